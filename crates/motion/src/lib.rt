// How a macro block moves, and the vectors that are kept behind it; how the record of a block starts.
#![tactic(auto)]

ghost use Rattle.std.specs.Prelude.{◌≡◌};
ghost use Rattle.block_record.specs.Memory.{IsPacked};
ghost use Rattle.motion.specs.Kept.{started, zero_vector, behind, still, last_read};

use block_record::{Prediction, Vector};

// The vectors of two luma blocks beside each other.
#[derive(Clone, Copy)]
pub struct Row {
    pub left: Vector,
    pub right: Vector,
}

// How a macro block moves: one prediction for all its blocks, or four luma vectors, A and B in the lower row, C and D in the upper.
#[derive(Clone, Copy)]
pub enum Motion {
    One(Prediction),
    Four(Row, Row),
}

// A macro block's motion, and the vectors that are kept behind it.
#[derive(Clone, Copy)]
pub struct Moved {
    pub motion: Motion,
    pub last: Vector,
    pub last2: Vector,
}

pub fn zero_vector() -> Vector
    ensures { result ≡ zero_vector }
{
    Vector { x: 0, y: 0 }
}

// One prediction for all blocks of the macro block, and what is kept behind it.
pub fn one_prediction(p: Prediction, last: Vector, last2: Vector) -> Moved
    ensures { result ≡ behind (Motion.One p) last last2 }
{
    Moved {
        motion: Motion::One(p),
        last: last,
        last2: last2,
    }
}

// The modes that send nothing: INTRA, LAST, LAST2, GOLDEN_NOMV, NOMV.
pub fn still_motion(mode: u8, last: Vector, last2: Vector) -> Moved
    ensures { result ≡ still mode last last2 }
{
    if mode == 1 {
        return one_prediction(Prediction::None, last, last2);
    }
    if mode == 3 {
        return one_prediction(Prediction::Previous(last), last, last2);
    }
    if mode == 4 {
        return one_prediction(Prediction::Previous(last2), last2, last);
    }
    let zero = zero_vector();
    if mode == 5 {
        return one_prediction(Prediction::Golden(zero), last, last2);
    }
    one_prediction(Prediction::Previous(zero), last, last2)
}

// The vector of the last coded block of A, B, C, D, of which one is coded.
pub fn last_read(b: bool, c: bool, d: bool, lower: Row, upper: Row) -> Vector
    ensures { result ≡ last_read b c d lower upper }
{
    if d {
        return upper.right;
    }
    if c {
        return upper.left;
    }
    if b {
        return lower.right;
    }
    lower.left
}

// How the record of a block starts: that of a coded one as mode 0 has it, previous with the vector 0.
pub fn start_record(n: u32) -> u32
    requires { IsPacked n }
    ensures { result ≡ started n }
{
    if block_record::is_coded(n) {
        return block_record::with_prediction(n, Prediction::Previous(zero_vector()));
    }
    n
}
