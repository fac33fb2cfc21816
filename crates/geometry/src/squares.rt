// The super blocks of a plane of w by h blocks as squares of 4 by 4, and the walk inside one.
ghost use Rattle.std.specs.Prelude.{◌≡◌, ℕ, ◌+◌, ◌*◌, ◌/◌, ◌≤◌, ◌<◌};
ghost use Rattle.geometry.specs.Square.{reach, SpotOf};
ghost use Rattle.geometry.specs.Order.{block_walk};
ghost use Rattle.geometry.specs.Rank.{rank_in, in_corner};

use crate::Place;

// The square that holds (x, y): the number of its first place, and how much of it lies in the plane.
#[derive(Clone, Copy)]
pub(crate) struct Square {
    pub first: u64,
    pub u: u64,
    pub v: u64,
}

pub(crate) fn square_of(w: u64, h: u64, x: u64, y: u64) -> Square
    requires { (x < w) × (y < h) × (w ≤ 131070) × (h ≤ 131070) }
    ensures { (result.u ≡ reach 4 w (x / 4)) × (result.v ≡ reach 4 h (y / 4)) × (result.first ≡ 4 * (y / 4) * w + 4 * (x / 4) * result.v) }
{
    let a = 4 * (x / 4);
    let b = 4 * (y / 4);
    let u = u64::min(4, w - a);
    let v = u64::min(4, h - b);
    Square {
        first: b * w + a * v,
        u,
        v,
    }
}

// The square that holds number i: where it begins, how much of it lies in the plane, and what is left of i.
#[derive(Clone, Copy)]
pub(crate) struct Spot {
    pub a: u64,
    pub b: u64,
    pub u: u64,
    pub v: u64,
    pub rest: u64,
}

pub(crate) fn square_at(w: u64, h: u64, i: u64) -> Spot
    requires { (i < h * w) × (w ≤ 131070) × (h ≤ 131070) }
    ensures { SpotOf 4 w h i result.a result.b result.u result.v result.rest }
{
    let b = 4 * (i / (4 * w));
    let q = i % (4 * w);
    let v = u64::min(4, h - b);
    let a = 4 * (q / (4 * v));
    let u = u64::min(4, w - a);
    Spot {
        a,
        b,
        u,
        v,
        rest: q % (4 * v),
    }
}

// In a corner of u by v blocks of a super block: when the walk comes to (x, y), and what it comes to as number i (4 y + x).
// An entry takes 4 bits of its corner's number: as 256 entries the table would fill 256 lines here, and every goal about it.
const BLOCK_RANK: [u64; 16] = [
    0x0,
    0x10000,
    0x200010000,
    0x3000200010000,
    0x10,
    0x230010,
    0x5400230010,
    0x65007400230010,
    0x210,
    0x4230510,
    0x65407230810,
    0x96508740a230b10,
    0x3210,
    0x45237610,
    0x76548923ba10,
    0xa965b874cd23fe10,
];

const BLOCK_CORNER: [u64; 16] = [
    0x0,
    0x40,
    0x840,
    0xc840,
    0x10,
    0x4510,
    0x984510,
    0x9dc84510,
    0x210,
    0x264510,
    0x26a984510,
    0x26ea9dc84510,
    0x3210,
    0x32674510,
    0x3267ba984510,
    0x3267bfea9dc84510,
];

pub(crate) fn block_rank(u: u64, v: u64, x: u64, y: u64) -> u64
    requires { (u ≤ 4) × (v ≤ 4) × (x < u) × (y < v) }
    ensures { (result ≡ rank_in block_walk u v x y) × (result < 16) }
{
    let k = (u * 4 + v - 5) as usize;
    (BLOCK_RANK[k] >> (4 * (y * 4 + x))) % 16
}

pub(crate) fn block_in_corner(u: u64, v: u64, i: u64) -> Place
    requires { (u ≤ 4) × (v ≤ 4) × (i < u * v) }
    ensures { result ≡ in_corner block_walk u v i }
{
    let k = (u * 4 + v - 5) as usize;
    let p = (BLOCK_CORNER[k] >> (4 * i)) % 16;
    Place { x: p % 4, y: p / 4 }
}
