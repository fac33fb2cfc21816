// DC prediction: what is added to the first coefficient of each coded block, over the planes of a frame.
#![tactic(auto)]

ghost use Rattle.std.specs.Prelude.{◌≡◌, true, map, ◌+◌, ◌*◌, ◌-◌, ◌≤◌, ◌<◌, length};
ghost use Rattle.block_record.specs.Packed.{unpacked};
ghost use Rattle.dc_prediction.specs.Planes.{RowFits, NoneCoded, coded_step, block_step, row, plane, predicted_dc};
ghost use Rattle.dc_neighbours.specs.Block.{state_of, Within, prediction};

use dc_neighbours::LastDc;

// A coded block with the reference r.
#[tactic(auto, unfolding(crate::specs::Planes::coded_step))]
fn predict_coded(
    dc: &mut [i16],
    records: &[u32],
    across: usize,
    below: bool,
    b: usize,
    x: usize,
    r: usize,
    last: LastDc,
) -> LastDc
    requires { Within across below b x (length dc.old) × (b < length records.now) × (r ≤ 2) }
    ensures { state_of dc.new result ≡ coded_step (map unpacked records.now) across below b x r (state_of dc.old last) }
{
    let p = dc_neighbours::prediction(dc, records, across, below, b, x, r, last);
    let v = numeric::cut16(dc[b] as i32 + p);
    dc[b] = v;
    let mut values = last.values;
    values[r] = v;
    LastDc { values }
}

// Block x of the row that starts with block number `start`.
#[tactic(auto, using(block_record::proofs::Laws::unpacked_at, crate::proofs::Rows::uncoded), unfolding(crate::specs::Planes::block_step))]
fn predict_block(
    dc: &mut [i16],
    records: &[u32],
    start: usize,
    across: usize,
    below: bool,
    x: usize,
    last: LastDc,
) -> LastDc
    requires { RowFits start across below (length dc.old) (length records.now) × (x < across) }
    ensures { state_of dc.new result ≡ block_step (map unpacked records.now) start across below x (state_of dc.old last) }
{
    let b = start + x;
    let record = records[b];
    if block_record::is_coded(record) {
        return predict_coded(
            dc,
            records,
            across,
            below,
            b,
            x,
            block_record::reference(record),
            last,
        );
    }
    last
}

// Is no block of the row coded?
#[tactic(auto, unfolding(crate::specs::Planes::NoneCoded))]
fn none_coded(records: &[u32], start: usize, across: usize) -> bool
    requires { start + across ≤ length records.now }
    ensures { result ≡ true → NoneCoded records.now start across }
{
    let mut none = true;
    for record in &records[start..start + across] {
        none &= !block_record::is_coded(*record);
    }
    none
}

// The blocks of a row, one after the other.
#[tactic(auto, using(ways::proofs::Steps::up_to_more), unfolding(ways::specs::Loops::up_to, crate::specs::Planes::row))]
fn predict_blocks(
    dc: &mut [i16],
    records: &[u32],
    start: usize,
    across: usize,
    below: bool,
    last: LastDc,
) -> LastDc
    requires { RowFits start across below (length dc.old) (length records.now) }
    ensures { state_of dc.new result ≡ row (map unpacked records.now) start across below (state_of dc.old last) }
{
    let mut latest = last;
    for x in 0..across {
        latest = predict_block(dc, records, start, across, below, x, latest);
    }
    latest
}

// A row. Where no block is coded it is passed over: a look at several records at once and not at each, which saves 63,000 of the
// 219,000 instructions of DC prediction in a frame of the hints of gnome-mahjongg.
#[tactic(auto, using(crate::proofs::Rows::none_row))]
fn predict_row(
    dc: &mut [i16],
    records: &[u32],
    start: usize,
    across: usize,
    below: bool,
    last: LastDc,
) -> LastDc
    requires { RowFits start across below (length dc.old) (length records.now) }
    ensures { state_of dc.new result ≡ row (map unpacked records.now) start across below (state_of dc.old last) }
{
    if none_coded(records, start, across) {
        return last;
    }
    predict_blocks(dc, records, start, across, below, last)
}

// The plane whose first block has the number `first`.
#[tactic(auto, using(ways::proofs::Steps::up_to_more), unfolding(ways::specs::Loops::up_to, crate::specs::Planes::plane))]
fn predict_plane(dc: &mut [i16], records: &[u32], first: usize, across: usize, up: usize)
    requires { (first + up * across ≤ length dc.old) × (first + up * across ≤ length records.now) }
    ensures { dc.new ≡ plane (map unpacked records.now) first across up dc.old }
{
    let mut last = LastDc { values: [0, 0, 0] };
    for y in 0..up {
        last = predict_row(dc, records, first + y * across, across, 0 < y, last);
    }
}

// All three planes: luma has `up` rows of `across` blocks, each chroma plane `chroma_up` rows of `chroma_across`.
#[tactic(auto, unfolding(crate::specs::Planes::predicted_dc))]
pub fn predict_dc(
    dc: &mut [i16],
    records: &[u32],
    across: usize,
    up: usize,
    chroma_across: usize,
    chroma_up: usize,
)
    requires { (up * across + chroma_up * chroma_across * 2 ≤ length dc.old) × (up * across + chroma_up * chroma_across * 2 ≤ length records.now) }
    ensures { dc.new ≡ predicted_dc (map unpacked records.now) across up chroma_across chroma_up dc.old }
{
    let luma = up * across;
    let chroma = chroma_up * chroma_across;
    predict_plane(dc, records, 0, across, up);
    predict_plane(dc, records, luma, chroma_across, chroma_up);
    predict_plane(dc, records, luma + chroma, chroma_across, chroma_up);
}
