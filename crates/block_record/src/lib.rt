// A block's record: whether it is coded, which of the frame's qi it has, and which prediction; and how work memory holds it.
#![tactic(auto)]

ghost use Rattle.std.specs.Prelude.{◌≡◌, ◌≤◌, ◌<◌};
ghost use Rattle.block_record.specs.Record.{InRange, PredictionInRange, VectorInRange, reference_of, with_prediction, with_qi_index, now_coded};
ghost use Rattle.block_record.specs.Packed.{vector_number, vector_at, prediction_number, prediction_at, packed, unpacked};

// In half samples; along a subsampled axis in quarter samples.
#[derive(Clone, Copy)]
pub struct Vector {
    pub x: i32,
    pub y: i32,
}

#[derive(Clone, Copy)]
pub enum Prediction {
    None,
    Previous(Vector),
    Golden(Vector),
}

#[derive(Clone, Copy)]
pub struct BlockRecord {
    pub coded: bool,
    pub qi_index: u32,
    pub prediction: Prediction,
}

fn vector_number(v: Vector) -> u32
    requires { VectorInRange v }
    ensures { (result ≡ vector_number v) × (result < 4096) }
{
    let x = (v.x + 32) as u32;
    let y = (v.y + 32) as u32;
    x + y * 64
}

#[tactic(auto, unfolding(crate::specs::Packed::vector_at))]
fn vector_at(n: u32) -> Vector
    ensures { result ≡ vector_at n }
{
    let x = (n % 64) as i32;
    let y = (n / 64 % 64) as i32;
    Vector {
        x: x - 32,
        y: y - 32,
    }
}

#[tactic(auto, using(crate::proofs::Laws::prediction_lt), unfolding(crate::specs::Packed::prediction_number))]
fn prediction_number(p: Prediction) -> u32
    requires { PredictionInRange p }
    ensures { (result ≡ prediction_number p) × (result < 16384) }
{
    match p {
        Prediction::None => 0,
        Prediction::Previous(v) => vector_number(v) * 4 + 1,
        Prediction::Golden(v) => vector_number(v) * 4 + 2,
    }
}

#[tactic(auto, unfolding(crate::specs::Packed::prediction_at))]
fn prediction_at(n: u32) -> Prediction
    ensures { result ≡ prediction_at n }
{
    match n % 4 {
        0 => Prediction::None,
        1 => Prediction::Previous(vector_at(n / 4)),
        _ => Prediction::Golden(vector_at(n / 4)),
    }
}

// A record as a number.
#[tactic(auto, unfolding(crate::specs::Packed::packed))]
fn pack(r: BlockRecord) -> u32
    requires { InRange r }
    ensures { result ≡ packed r }
{
    prediction_number(r.prediction) * 8 + r.qi_index * 2 + u32::from(r.coded)
}

#[tactic(auto, unfolding(crate::specs::Packed::unpacked))]
pub fn unpack(n: u32) -> BlockRecord
    ensures { result ≡ unpacked n }
{
    BlockRecord {
        coded: is_coded(n),
        qi_index: qi_index(n),
        prediction: prediction_at(n / 8),
    }
}

// Whether the block of a packed record is coded.
#[tactic(auto, unfolding(crate::specs::Packed::unpacked))]
pub fn is_coded(n: u32) -> bool
    ensures { result ≡ (unpacked n).coded }
{
    n % 2 == 1
}

// The qi index of a packed record.
#[tactic(auto, unfolding(crate::specs::Packed::unpacked))]
pub fn qi_index(n: u32) -> u32
    ensures { result ≡ (unpacked n).qi_index }
{
    n / 2 % 4
}

// The packed record of a coded block of which nothing else is known yet.
#[tactic(auto, unfolding(crate::specs::Packed::packed, crate::specs::Packed::prediction_number))]
pub fn now_coded() -> u32
    ensures { result ≡ packed now_coded }
{
    1
}

// The reference of a packed record's prediction: 0 none, 1 previous, 2 golden.
#[tactic(auto, using(crate::proofs::Laws::reference_low, crate::proofs::Laws::reference_high), unfolding(crate::specs::Packed::unpacked))]
pub fn reference(n: u32) -> usize
    ensures { (result ≡ reference_of (unpacked n).prediction) × (result ≤ 2) }
{
    usize::min((n / 8 % 4) as usize, 2)
}

// A packed record with another prediction.
#[tactic(auto, unfolding(crate::specs::Packed::packed, crate::specs::Packed::unpacked))]
pub fn with_prediction(n: u32, p: Prediction) -> u32
    requires { PredictionInRange p }
    ensures { result ≡ packed (with_prediction p (unpacked n)) }
{
    n % 8 + prediction_number(p) * 8
}

// A packed record with another qi.
pub fn with_qi_index(n: u32, k: u32) -> u32
    requires { PredictionInRange (unpacked n).prediction × (k ≤ 2) }
    ensures { result ≡ packed (with_qi_index k (unpacked n)) }
{
    pack(BlockRecord {
        qi_index: k,
        ..unpack(n)
    })
}
