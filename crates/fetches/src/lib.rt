// What a vector fetches for a block: where its two fetches begin, and the means of them.
#![tactic(auto)]

ghost use Rattle.std.specs.Prelude.{◌≡◌, cond, ◌+◌, ◌*◌, ◌≤◌, ◌<◌, pos, nat_abs, ◌+ℤ◌, length};
ghost use Rattle.geometry.specs.Sizes.{across};
ghost use Rattle.block_record.specs.Record.{VectorInRange};
ghost use Rattle.fetches.specs.Motion.{subsampled_across, subsampled_up, steps, down, rounded_up, inside, fetch};
ghost use Rattle.fetches.specs.Fetched.{mean, Lies, Near, fetches_of, mean_at, RowByRow};

use block_record::Vector;
use geometry::{Block, PixelFormat, Plane};

// The axes of a plane: is it subsampled across, and up?
#[derive(Clone, Copy)]
pub struct Axes {
    pub across: bool,
    pub up: bool,
}

// Where the two fetches of a block begin: column and row in the plane, or outside of it.
#[derive(Clone, Copy)]
pub struct Fetches {
    pub x1: i32,
    pub y1: i32,
    pub x2: i32,
    pub y2: i32,
}

// Along which axes is plane p subsampled?
#[tactic(auto, unfolding(crate::specs::Motion::subsampled_across, crate::specs::Motion::subsampled_up))]
pub fn subsampling(format: PixelFormat, p: u64) -> Axes
    ensures { (result.across ≡ subsampled_across format p) × (result.up ≡ subsampled_up format p) }
{
    if p == 0 {
        return Axes {
            across: false,
            up: false,
        };
    }
    match format {
        PixelFormat::Chroma420 => Axes {
            across: true,
            up: true,
        },
        PixelFormat::Chroma422 => Axes {
            across: true,
            up: false,
        },
        PixelFormat::Chroma444 => Axes {
            across: false,
            up: false,
        },
    }
}

// A component of a vector in whole samples, its magnitude rounded down.
#[tactic(auto, unfolding(crate::specs::Motion::down))]
pub fn down(subsampled: bool, z: i32) -> i32
    requires { nat_abs z ≤ 31 }
    ensures { (result ≡ down (steps subsampled) z) × (nat_abs result ≤ 31) }
{
    if subsampled {
        return z / 4;
    }
    z / 2
}

// Its magnitude rounded up.
#[tactic(auto, unfolding(crate::specs::Motion::rounded_up))]
pub fn rounded_up(subsampled: bool, z: i32) -> i32
    requires { nat_abs z ≤ 31 }
    ensures { (result ≡ rounded_up (steps subsampled) z) × (nat_abs result ≤ 31) }
{
    if subsampled {
        if z < 0 {
            return (z - 3) / 4;
        }
        return (z + 3) / 4;
    }
    if z < 0 {
        return (z - 1) / 2;
    }
    (z + 1) / 2
}

// Where a fetch begins along an axis on which the block is number `at`, the component's magnitude rounded up or down.
pub fn begin(subsampled: bool, more: bool, at: u64, z: i32) -> i32
    requires { (at < 131070) × (nat_abs z ≤ 31) }
    ensures { (result ≡ pos (8 * at) +ℤ cond more (rounded_up (steps subsampled) z) (down (steps subsampled) z)) × (nat_abs result ≤ 1048591) }
{
    let from = (8 * at) as i32;
    if more {
        return from + rounded_up(subsampled, z);
    }
    from + down(subsampled, z)
}

// Where the fetches of block b begin.
#[tactic(auto, unfolding(crate::specs::Fetched::fetches_of))]
pub fn fetches_of(format: PixelFormat, b: Block, v: Vector) -> Fetches
    requires { (b.x < 131070) × (b.y < 131070) × VectorInRange v }
    ensures { (result ≡ fetches_of format b v) × Near result }
{
    let Axes { across, up } = subsampling(format, b.plane);
    Fetches {
        x1: begin(across, false, b.x, v.x),
        y1: begin(up, false, b.y, v.y),
        x2: begin(across, true, b.x, v.x),
        y2: begin(up, true, b.y, v.y),
    }
}

// The nearest number from 0 to size - 1.
#[tactic(auto, unfolding(crate::specs::Motion::inside))]
pub fn inside(size: usize, z: i32) -> usize
    requires { 0 < size }
    ensures { (result ≡ inside size z) × (result < size) }
{
    (z.max(0) as usize).min(size - 1)
}

// The sample in a column and a row of a plane, each clamped.
#[tactic(auto, unfolding(crate::specs::Motion::fetch))]
pub fn fetch(s: &[u8], plane: Plane, column: i32, row: i32) -> u8
    requires { Lies plane (length s.now) }
    ensures { result ≡ fetch plane s.now column row }
{
    let width = (8 * plane.across) as usize;
    let y = inside((8 * plane.up) as usize, row);
    let x = inside(width, column);
    let at = plane.offset as usize + (y * width + x);
    s[at]
}

// The floor of the mean.
pub fn mean(p: u8, q: u8) -> u8
    ensures { result ≡ mean p q }
{
    ((p as u32 + q as u32) / 2) as u8
}

// The means of the two fetches of a block, row by row.
pub fn fetch_block(s: &[u8], plane: Plane, t: Fetches) -> [u8; 64]
    requires { Lies plane (length s.now) × Near t }
    ensures { RowByRow (mean_at plane s.now t) result }
{
    let mut m = [0u8; 64];
    for i in 0..64 {
        let c = (i % 8) as i32;
        let r = (i / 8) as i32;
        let p = fetch(s, plane, t.x1 + c, t.y1 + r);
        m[i] = mean(p, fetch(s, plane, t.x2 + c, t.y2 + r));
    }
    m
}
