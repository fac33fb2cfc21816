// DC prediction of one block: the neighbours that count, and the prediction from them.
#![tactic(auto)]

ghost use Rattle.std.specs.Prelude.{◌≡◌, true, map, ◌+◌, ◌-◌, ◌≤◌, ◌<◌, nat_abs, length};
ghost use Rattle.block_record.specs.Packed.{unpacked};
ghost use Rattle.dc_neighbours.specs.Neighbours.{neighbour_at, neighbour_back, predicted};
ghost use Rattle.dc_neighbours.specs.Block.{state_of, Within, prediction};

// The last DC of each reference: none, previous, golden.
#[derive(Clone, Copy)]
pub struct LastDc {
    pub values: [i16; 3],
}

// The prediction from the DC of the neighbours that count, else from the last DC.
#[tactic(auto, unfolding(crate::specs::Neighbours::predicted))]
pub fn predicted(l: Option<i16>, dl: Option<i16>, d: Option<i16>, dr: Option<i16>, last: i16) -> i32
    ensures { (result ≡ predicted l dl d dr last) × (nat_abs result ≤ 86016) }
{
    if let (Some(l), Some(dl), Some(d)) = (l, dl, d) {
        return dc_means::replaced(l, dl, d);
    }
    if let (Some(l), Some(dr)) = (l, dr) {
        return dc_means::mean_l_dr(l, dr);
    }
    if let (Some(dl), Some(d), Some(dr)) = (dl, d, dr) {
        return dc_means::mean_dl_d_dr(dl, d, dr);
    }
    if let (Some(l), Some(d)) = (l, d) {
        return dc_means::mean_of_two(l, d);
    }
    if let Some(d) = d {
        return d as i32;
    }
    if let Some(l) = l {
        return l as i32;
    }
    if let (Some(dl), Some(dr)) = (dl, dr) {
        return dc_means::mean_of_two(dl, dr);
    }
    dl.or(dr).unwrap_or(last) as i32
}

// The DC of block n, if it counts as a neighbour of a block with the reference r.
#[tactic(auto, using(block_record::proofs::Laws::unpacked_at), unfolding(crate::specs::Neighbours::neighbour_at))]
pub fn neighbour_at(dc: &[i16], records: &[u32], r: usize, n: usize) -> Option<i16>
    requires { (n < length dc.now) × (n < length records.now) }
    ensures { result ≡ neighbour_at (map unpacked records.now) dc.now r n }
{
    let record = records[n];
    let k = block_record::reference(record);
    if block_record::is_coded(record) & (k == r) {
        Some(dc[n])
    } else {
        None
    }
}

// The neighbour whose number is `back` before b, where there is one.
#[tactic(auto, unfolding(crate::specs::Neighbours::neighbour_back))]
pub fn neighbour_back(
    dc: &[i16],
    records: &[u32],
    r: usize,
    there: bool,
    b: usize,
    back: usize,
) -> Option<i16>
    requires { (b < length dc.now) × (b < length records.now) × (there ≡ true → back ≤ b) }
    ensures { result ≡ neighbour_back (map unpacked records.now) dc.now r there b back }
{
    if there {
        neighbour_at(dc, records, r, b - back)
    } else {
        None
    }
}

// The prediction of block b, which is number x of its row, for the reference r. `below`: whether a row lies below.
#[tactic(auto, unfolding(crate::specs::Block::prediction))]
pub fn prediction(
    dc: &[i16],
    records: &[u32],
    across: usize,
    below: bool,
    b: usize,
    x: usize,
    r: usize,
    last: LastDc,
) -> i32
    requires { Within across below b x (length dc.now) × (b < length records.now) × (r ≤ 2) }
    ensures { (result ≡ prediction (map unpacked records.now) across below b x r (state_of dc.now last)) × (nat_abs result ≤ 86016) }
{
    let inner = 0 < x;
    let more = x + 1 < across;
    let l = neighbour_back(dc, records, r, inner, b, 1);
    let dl = neighbour_back(dc, records, r, below & inner, b, across + 1);
    let d = neighbour_back(dc, records, r, below, b, across);
    let dr = neighbour_back(dc, records, r, below & more, b, across - 1);
    predicted(l, dl, d, dr, last.values[r])
}
