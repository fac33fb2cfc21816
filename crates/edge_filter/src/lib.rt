// The loop filter at one edge: 8 times across it, along a row or along a column.
#![tactic(auto)]

ghost use Rattle.std.specs.Prelude.{◌≡◌, ◌+◌, ◌*◌, ◌-◌, ◌≤◌, ◌<◌, nat_abs, length};
ghost use Rattle.ways.specs.Ways.{edge};
ghost use Rattle.edge_filter.specs.Filter.{response_of, tent_of, limited_of, filtered};
ghost use Rattle.edge_filter.specs.Edge.{crossed, NewSides, Four, Fours, Pairs, pairs_at, Runs};

// p1 and p2 as the filter makes them.
#[derive(Clone, Copy)]
struct NewPair {
    p1: u8,
    p2: u8,
}

// R of four samples across an edge. 16 bits hold all that is made of samples here, so that a vector register holds 8 of them.
fn response(p0: u8, p1: u8, p2: u8, p3: u8) -> i16
    ensures { (result ≡ response_of p0 p1 p2 p3) × (nat_abs result ≤ 256) }
{
    (p0 as i16 - 3 * (p1 as i16) + 3 * (p2 as i16) - p3 as i16 + 4) >> 3
}

// 2 L - n, or 0 where that is negative.
fn falling(limit: u32, n: u16) -> u16
    requires { limit ≤ 127 }
    ensures { result ≡ 2 * limit - n }
{
    let twice = (2 * limit) as u16;
    twice.saturating_sub(n)
}

// f of the magnitude n of R: the less of n and 2 L - n.
#[tactic(auto, unfolding(crate::specs::Filter::tent_of))]
fn tent(limit: u32, n: u16) -> u16
    requires { limit ≤ 127 }
    ensures { (result ≡ tent_of limit n) × (result ≤ 127) }
{
    n.min(falling(limit, n))
}

// f of R. The sign comes last, so that no jump depends on it.
fn limited(limit: u32, r: i16) -> i16
    requires { (limit ≤ 127) × (nat_abs r ≤ 256) }
    ensures { (result ≡ limited_of limit r) × (nat_abs result ≤ 127) }
{
    let t = tent(limit, r.unsigned_abs()) as i16;
    if r < 0 { -t } else { t }
}

// What becomes of four samples across an edge.
fn sides(limit: u32, p0: u8, p1: u8, p2: u8, p3: u8) -> NewPair
    requires { limit ≤ 127 }
    ensures { (result.p1 ≡ (filtered limit p0 p1 p2 p3).0) × (result.p2 ≡ (filtered limit p0 p1 p2 p3).1) }
{
    let v = limited(limit, response(p0, p1, p2, p3));
    let more = p1 as i16 + v;
    let less = p2 as i16 - v;
    NewPair {
        p1: numeric::clamp_to_byte(more as i32),
        p2: numeric::clamp_to_byte(less as i32),
    }
}

// An edge along a row, whose p0 lie from `at` on: the 8 new p1, then the 8 new p2.
// They are made in an array of their own, which nothing else can refer to, so that all 8 are made at once.
fn row_sides(s: &[u8], at: usize, row: usize, limit: u32) -> [u8; 16]
    requires { (at + row * 3 + 7 < length s.now) × (limit ≤ 127) }
    ensures { NewSides (crossed limit at 1 row s.now) result }
{
    let mut t = [0; 16];
    for k in 0..8 {
        let i = at + k;
        let q = sides(limit, s[i], s[i + row], s[i + row * 2], s[i + row * 3]);
        t[k] = q.p1;
        t[8 + k] = q.p2;
    }
    t
}

// An edge along a row.
fn filter_row_edge(s: &mut [u8], at: usize, row: usize, limit: u32)
    requires { (at + row * 3 + 7 < length s.old) × (limit ≤ 127) × (8 ≤ row) }
    ensures { s.new ≡ edge (filtered limit) at 1 row s.old }
{
    let t = row_sides(s, at, row, limit);
    ways::copy_row(s, at + row, &t, 0);
    ways::copy_row(s, at + row * 2, &t, 8);
}

// The four samples from `at` on, as one number.
fn four(s: &[u8], at: usize) -> u32
    requires { at + 3 < length s.now }
    ensures { Four s.now at result }
{
    u32::from_le_bytes([s[at], s[at + 1], s[at + 2], s[at + 3]])
}

// The samples of an edge along a column: four of each row, the first at `at`.
fn fours(s: &[u8], at: usize, row: usize) -> [u32; 8]
    requires { at + 7 * row + 3 < length s.now }
    ensures { Fours s.now at row result }
{
    let mut t = [0; 8];
    for (k, n) in t.iter_mut().enumerate() {
        *n = four(s, at + k * row);
    }
    t
}

// What becomes of each four: the new p1, and 256 times the new p2.
fn column_sides(t: &[u32; 8], limit: u32) -> [u16; 8]
    requires { limit ≤ 127 }
    ensures { Pairs limit t.now result }
{
    let mut r = [0; 8];
    for (k, n) in t.iter().enumerate() {
        let [p0, p1, p2, p3] = n.to_le_bytes();
        let q = sides(limit, p0, p1, p2, p3);
        r[k] = u16::from_le_bytes([q.p1, q.p2]);
    }
    r
}

// Each pair in its row, after the p0.
fn write_pairs(s: &mut [u8], at: usize, row: usize, r: &[u16; 8])
    requires { at + 7 * row + 2 < length s.old }
    ensures { s.new ≡ pairs_at r.now at row s.old }
{
    for (k, n) in r.iter().enumerate() {
        let i = at + k * row;
        let [p1, p2] = n.to_le_bytes();
        s[i + 1] = p1;
        s[i + 2] = p2;
    }
}

// An edge along a column.
fn filter_column_edge(s: &mut [u8], at: usize, row: usize, limit: u32)
    requires { (at + 7 * row + 3 < length s.old) × (limit ≤ 127) × (8 ≤ row) }
    ensures { s.new ≡ edge (filtered limit) at row 1 s.old }
{
    let t = fours(s, at, row);
    let r = column_sides(&t, limit);
    write_pairs(s, at, row, &r);
}

// An edge: 8 times across it, `along` apart.
pub fn filter_edge(s: &mut [u8], at: usize, along: usize, step: usize, limit: u32)
    requires { (at + 7 * along + step * 3 < length s.old) × (limit ≤ 127) × Runs along step }
    ensures { s.new ≡ edge (filtered limit) at along step s.old }
{
    if along == 1 {
        filter_row_edge(s, at, step, limit);
    } else {
        filter_column_edge(s, at, along, limit);
    }
}
