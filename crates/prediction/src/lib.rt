// Prediction: the samples of a block, from golden or previous by its vector, with its residual.
#![tactic(auto)]

ghost use Rattle.std.specs.Prelude.{◌≡◌, ◌+◌, ◌*◌, ◌≤◌, ◌<◌, pos, ◌+ℤ◌, length, get_or};
ghost use Rattle.numeric.specs.Clamp.{clamp255};
ghost use Rattle.geometry.specs.Sizes.{across, blocks_of, largest};
ghost use Rattle.geometry.specs.Frame.{InFrame};
ghost use Rattle.geometry.specs.Sample.{sample_at};
ghost use Rattle.block_record.specs.Record.{PredictionInRange};
ghost use Rattle.ways.specs.Corner.{row_at, block_at};
ghost use Rattle.prediction.specs.Predicted.{summed};
ghost use Rattle.prediction.specs.Block.{mean_of, with_residual, start_of};
ghost use Rattle.fetches.specs.Fetched.{mean, Small, Lies, Near, mean_at, RowByRow};

use block_record::Prediction;
use fetches::Fetches;
use geometry::{Block, PixelFormat, Plane};

// A prediction, the mean of p and q, with a residual: one farther off than 255 makes the same of any prediction. 16 bits hold the sum, so that a vector register holds 8 of them.
#[tactic(auto, using(crate::proofs::Nearby::sum_near))]
fn sum(p: u8, q: u8, residual: i16) -> u8
    ensures { result ≡ clamp255 (pos (mean p q) +ℤ residual) }
{
    let total = fetches::mean(p, q) as i16 + residual.clamp(-255, 255);
    numeric::clamp_to_byte(total as i32)
}

// 8 samples from `at` on, predicted by what source has from a and from b on, with the residuals from k on.
#[tactic(auto, using(ways::proofs::Steps::up_to_more), unfolding(ways::specs::Loops::up_to, ways::specs::Corner::row_at, crate::specs::Block::with_residual))]
fn write_row(
    new: &mut [u8],
    at: usize,
    source: &[u8],
    a: usize,
    b: usize,
    residual: &[i16],
    k: usize,
)
    requires { (at + 8 ≤ length new.old) × (a + 8 ≤ length source.now) × (b + 8 ≤ length source.now) × (k + 8 ≤ length residual.now) }
    ensures { new.new ≡ row_at (λ c. with_residual residual.now (k + c) (mean_of source.now (a + c) (b + c))) at new.old }
{
    for c in 0..8 {
        new[at + c] = sum(source[a + c], source[b + c], residual[k + c]);
    }
}

// The 64 samples of a block, row by row, predicted by what source has from a and from b on, where a row has `stride` samples.
// They are made in an array of their own, which nothing else can refer to, so that a row is a few vector instructions.
#[tactic(auto, using(ways::proofs::Steps::up_to_more), unfolding(ways::specs::Loops::up_to))]
fn sum_rows(source: &[u8], a: usize, b: usize, stride: usize, residual: &[i16]) -> [u8; 64]
    requires { (a + 7 * stride + 8 ≤ length source.now) × (b + 7 * stride + 8 ≤ length source.now) × (length residual.now ≡ 64) }
    ensures { RowByRow (λ c r. with_residual residual.now (r * 8 + c) (mean_of source.now (a + r * stride + c) (b + r * stride + c))) result }
{
    let mut t = [0u8; 64];
    for r in 0..8 {
        write_row(
            &mut t,
            r * 8,
            source,
            a + r * stride,
            b + r * stride,
            residual,
            r * 8,
        );
    }
    t
}

// A block of `new`, where a row has `row` samples: those of t, row by row.
#[tactic(auto, using(ways::proofs::Steps::up_to_more), unfolding(ways::specs::Loops::up_to, ways::specs::Corner::block_at))]
fn copy_rows(new: &mut [u8], corner: usize, row: usize, t: &[u8])
    requires { (corner + 7 * row + 8 ≤ length new.old) × (length t.now ≡ 64) }
    ensures { new.new ≡ block_at (λ c r. get_or t.now (r * 8 + c) 0) corner row new.old }
{
    for r in 0..8 {
        ways::copy_row(new, corner + r * row, t, r * 8);
    }
}

// The block at `corner`, predicted as above.
fn write_rows(
    new: &mut [u8],
    corner: usize,
    row: usize,
    source: &[u8],
    a: usize,
    b: usize,
    stride: usize,
    residual: &[i16],
)
    requires { (corner + 7 * row + 8 ≤ length new.old) × (a + 7 * stride + 8 ≤ length source.now) × (b + 7 * stride + 8 ≤ length source.now) × (length residual.now ≡ 64) }
    ensures { new.new ≡ block_at (λ c r. with_residual residual.now (r * 8 + c) (mean_of source.now (a + r * stride + c) (b + r * stride + c))) corner row new.old }
{
    let t = sum_rows(source, a, b, stride, residual);
    copy_rows(new, corner, row, &t);
}

// Where the fetch that begins in column x and row y starts in the buffer, if it lies in the plane.
#[tactic(auto, unfolding(crate::specs::Block::start_of))]
fn start_of(plane: Plane, x: i32, y: i32) -> Option<usize>
    requires { Small plane }
    ensures { result ≡ start_of plane x y }
{
    if x < 0 || y < 0 {
        return None;
    }
    let column = x as usize;
    let row = y as usize;
    let width = (8 * plane.across) as usize;
    if column + 8 <= width && row + 8 <= (8 * plane.up) as usize {
        Some(plane.offset as usize + (row * width + column))
    } else {
        None
    }
}

// A block whose fetches do not both lie in the plane.
fn write_clamped(
    new: &mut [u8],
    corner: usize,
    source: &[u8],
    plane: Plane,
    t: Fetches,
    residual: &[i16],
)
    requires { (corner + 7 * (8 * plane.across) + 8 ≤ length new.old) × Lies plane (length source.now) × Near t × (length residual.now ≡ 64) }
    ensures { new.new ≡ block_at (λ c r. with_residual residual.now (r * 8 + c) (mean_at plane source.now t c r)) corner (8 * plane.across) new.old }
{
    let row = (8 * plane.across) as usize;
    let m = fetches::fetch_block(source, plane, t);
    write_rows(new, corner, row, &m, 0, 0, 8, residual);
}

// A block predicted from `source`.
fn write_moved(
    new: &mut [u8],
    corner: usize,
    source: &[u8],
    plane: Plane,
    t: Fetches,
    residual: &[i16],
)
    requires { (corner + 7 * (8 * plane.across) + 8 ≤ length new.old) × Lies plane (length source.now) × Near t × (length residual.now ≡ 64) }
    ensures { new.new ≡ block_at (λ c r. with_residual residual.now (r * 8 + c) (mean_at plane source.now t c r)) corner (8 * plane.across) new.old }
{
    let row = (8 * plane.across) as usize;
    match (start_of(plane, t.x1, t.y1), start_of(plane, t.x2, t.y2)) {
        (Some(a), Some(b)) => write_rows(new, corner, row, source, a, b, row, residual),
        _ => write_clamped(new, corner, source, plane, t, residual),
    }
}

// The samples of block b, predicted from golden and previous as lent, with its 64 residuals.
pub fn write_block(
    new: &mut [u8],
    golden: &[u8],
    previous: &[u8],
    residual: &[i16],
    format: PixelFormat,
    w: u64,
    h: u64,
    b: Block,
    p: Prediction,
)
    requires { (w ≤ largest) × (h ≤ largest) × InFrame format w h b × PredictionInRange p × (length new.old ≡ 64 * blocks_of format w h)
        × (length golden.now ≡ 64 * blocks_of format w h) × (length previous.now ≡ 64 * blocks_of format w h) × (length residual.now ≡ 64) }
    ensures { new.new ≡ block_at (summed format w h golden.now previous.now residual.now p b) (sample_at format w h b 0 0) (8 * across format w b.plane) new.old }
{
    let plane = geometry::plane_of(format, w, h, b.plane);
    let corner = geometry::sample_offset(format, w, h, b, 0, 0) as usize;
    match p {
        Prediction::None => {
            let grey = [128u8; 64];
            write_rows(
                new,
                corner,
                (8 * plane.across) as usize,
                &grey,
                0,
                0,
                8,
                residual,
            )
        }
        Prediction::Previous(v) => {
            let t = fetches::fetches_of(format, b, v);
            write_moved(new, corner, previous, plane, t, residual)
        }
        Prediction::Golden(v) => {
            let t = fetches::fetches_of(format, b, v);
            write_moved(new, corner, golden, plane, t, residual)
        }
    }
}
