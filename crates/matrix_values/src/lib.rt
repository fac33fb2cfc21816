// One value of a quantization matrix, between those of two base matrices.
#![tactic(auto)]

ghost use Rattle.std.specs.Prelude.{◌≡◌, ◌+◌, ◌*◌, ◌≤◌, ◌<◌, length};
ghost use Rattle.bitstream.specs.Bits.{bits, number, longest};
ghost use Rattle.quant_ranges.specs.Ranges.{InRange};
ghost use Rattle.matrix_values.specs.Values.{minimum, scaled};
ghost use Rattle.matrix_values.specs.Weights.{Light, weighed, Weighs};

use quant_ranges::Range;

// What the values of two base matrices are weighed by, the one before qi and the one behind it.
#[derive(Clone, Copy)]
pub struct Weights {
    pub before: u16,
    pub behind: u16,
    pub half: u16,
    pub reciprocal: u16,
}

// The 8 bits behind the first `taken` ones of a byte. Two bytes are read, also where one is enough (it is then the first again), so that the loop over a matrix has no branch:
// 48 vector instructions for 8 values, where one value took 39.
pub fn byte_at(packet: &[u8], index: usize, taken: usize) -> u16
    requires { (length packet.now ≤ longest) × (taken < 8) × (index * 8 + taken + 8 ≤ bits packet.now) }
    ensures { result ≡ number packet.now (index * 8 + taken) 8 }
{
    let next = index + (taken + 7) / 8;
    let upper = packet[index] as u16;
    let lower = packet[next] as u16;
    ((upper * 256 + lower) >> (8 - taken)) % 256
}

// The weights of qi in a range of the size n. They spare a division for each value: a sum times 2^20 / n + 1 has its n-th part above the lowest 20 bits. All is taken 63 / n times, so that n
// becomes a number from 32 to 63 and the factor fits 16 bits (with 32 bits it is 67 instructions for 8 values, not 48).
pub fn weigh(range: Range, qi: usize) -> Weights
    requires { InRange range qi }
    ensures { Light result × Weighs range qi result }
{
    let start = range.start;
    let size = range.size;
    let factor = 63 / size;
    let whole = size * factor;
    let before = ((start + size - qi) * factor) as u16;
    let behind = ((qi - start) * factor) as u16;
    let half = (whole / 2) as u16;
    let reciprocal = (1048576 / whole + 1) as u16;
    Weights {
        before,
        behind,
        half,
        reciprocal,
    }
}

// The value between those of two base matrices.
pub fn interpolate(weights: Weights, left: u16, right: u16) -> u16
    requires { Light weights × (left < 256) × (right < 256) }
    ensures { result ≡ weighed weights left right }
{
    let sum = weights.before * left + weights.behind * right + weights.half;
    let product = sum as u32 * weights.reciprocal as u32;
    (product >> 20) as u16
}

// The least value of a type at the coefficient c.
pub fn least(qti: usize, c: usize) -> u16
    ensures { (result ≡ minimum qti c) × (result ≤ 32) }
{
    if c == 0 {
        if qti == 0 {
            return 16;
        }
        return 32;
    }
    if qti == 0 {
        return 8;
    }
    16
}

// The scaled value, at most 4096 and at least `low`. What is divided by 25 fits 16 bits, in which eight divisions are one run of vector instructions.
pub fn scale_value(low: u16, scale: u16, value: u16) -> u16
    requires { low ≤ 32 }
    ensures { result ≡ scaled low scale value }
{
    let quarter = scale as u32 * value as u32 / 4;
    if 25600 <= quarter {
        return 4096;
    }
    let whole = 4 * (quarter as u16 / 25);
    if whole <= low {
        return low;
    }
    whole
}
