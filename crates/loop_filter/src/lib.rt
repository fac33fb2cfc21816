// The loop filter of a frame.
#![tactic(auto)]

ghost use Rattle.std.specs.Prelude.{◌≡◌, ◌+◌, ◌*◌, ◌≤◌, ◌<◌, length};
ghost use Rattle.geometry.specs.Sizes.{across, up, blocks_before, blocks_of, largest};
ghost use Rattle.ways.specs.Ways.{filter_all};
ghost use Rattle.edge_filter.specs.Filter.{filtered};
ghost use Rattle.block_edges.specs.Flags.{coded_by};
ghost use Rattle.loop_filter.specs.Plane.{NoneCoded, block_step, row_steps, plane_steps};

use geometry::PixelFormat;

// Block (x, y) of a plane of u rows of a blocks, the first of which has number `first`.
fn filter_block_at(
    s: &mut [u8],
    records: &[u32],
    limit: u32,
    first: usize,
    a: usize,
    u: usize,
    y: usize,
    x: usize,
)
    requires { (x < a) × (y < u) × (64 * (first + u * a) ≤ length s.old) × (first + u * a ≤ length records.now) × (limit ≤ 127) }
    ensures { s.new ≡ block_step records.now limit first a u y x s.old }
{
    let n = first + (y * a + x);
    if !block_edges::is_coded(records, n) {
        return;
    }
    let row = 8 * a;
    let corner = 64 * first + (8 * y * row + 8 * x);
    let right = block_edges::is_open(records, x + 1 < a, n + 1);
    let upper = block_edges::is_open(records, y + 1 < u, n + a);
    block_edges::filter_block(s, corner, row, 0 < x, 0 < y, right, upper, limit);
}

// How many of the a blocks from number n on come before the first coded one. As `find` over the range it takes twice as long.
fn uncoded_before(records: &[u32], n: usize, a: usize) -> usize
    requires { n + a ≤ length records.now }
    ensures { (result ≤ a) × NoneCoded records.now n result }
{
    for x in 0..a {
        if block_edges::is_coded(records, n + x) {
            return x;
        }
    }
    a
}

// A row of blocks, from its first coded one on: a row in which nothing is coded is passed over.
#[tactic(auto, using(ways::proofs::Steps::up_to_more, crate::proofs::Facts::none_steps), unfolding(crate::specs::Plane::row_steps))]
fn filter_row(s: &mut [u8], records: &[u32], limit: u32, first: usize, a: usize, u: usize, y: usize)
    requires { (y < u) × (64 * (first + u * a) ≤ length s.old) × (first + u * a ≤ length records.now) × (limit ≤ 127) }
    ensures { s.new ≡ row_steps records.now limit first a u y s.old }
{
    let start = first + y * a;
    for x in uncoded_before(records, start, a)..a {
        filter_block_at(s, records, limit, first, a, u, y, x);
    }
}

// A plane.
#[tactic(auto, using(ways::proofs::Steps::up_to_more), unfolding(crate::specs::Plane::plane_steps, ways::specs::Loops::up_to))]
fn filter_plane(s: &mut [u8], records: &[u32], limit: u32, first: usize, a: usize, u: usize)
    requires { (64 * (first + u * a) ≤ length s.old) × (first + u * a ≤ length records.now) × (limit ≤ 127) }
    ensures { s.new ≡ plane_steps records.now limit first a u s.old }
{
    for y in 0..u {
        filter_row(s, records, limit, first, a, u, y);
    }
}

// Plane p of a frame of w by h macro blocks. Inlined into the loop over the planes, the filter takes 6 % longer.
#[inline(never)]
fn filter_frame_plane(
    s: &mut [u8],
    records: &[u32],
    limit: u32,
    format: PixelFormat,
    w: u64,
    h: u64,
    p: u64,
)
    requires { (w ≤ largest) × (h ≤ largest) × (p < 3) × (length s.old ≡ 64 * blocks_of format w h) × (length records.now ≡ blocks_of format w h) × (limit ≤ 127) }
    ensures { s.new ≡ plane_steps records.now limit (blocks_before format w h p) (across format w p) (up format h p) s.old }
{
    let q = geometry::plane_of(format, w, h, p);
    let first = (q.offset / 64) as usize;
    let a = q.across as usize;
    let u = q.up as usize;
    filter_plane(s, records, limit, first, a, u);
}

// The frame `new`, filtered: records holds each block's packed record, by raster number. A limit of 0 changes nothing.
#[tactic(auto, using(ways::proofs::Steps::up_to_more), unfolding(ways::specs::Loops::up_to))]
pub fn filter_frame(
    new: &mut [u8],
    records: &[u32],
    limit: u32,
    format: PixelFormat,
    w: u64,
    h: u64,
)
    requires { (w ≤ largest) × (h ≤ largest) × (length new.old ≡ 64 * blocks_of format w h) × (length records.now ≡ blocks_of format w h) × (limit ≤ 127) }
    ensures { new.new ≡ filter_all format w h (coded_by format w h records.now) (filtered limit) new.old }
{
    if limit == 0 {
        return;
    }
    for p in 0..3 {
        filter_frame_plane(new, records, limit, format, w, h, p);
    }
}
