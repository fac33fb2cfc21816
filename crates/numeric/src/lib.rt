// Cut to 16 bits, rounding with ties away from 0, and the clamp to a sample.
#![tactic(auto)]

ghost use Rattle.std.specs.Prelude.{◌≡◌, ◌+◌, ◌*◌, ◌^◌, ◌≤◌, ◌<◌, nat_abs};
ghost use Rattle.numeric.specs.Cut.{cut};
ghost use Rattle.numeric.specs.Divide.{round_over};
ghost use Rattle.numeric.specs.Clamp.{clamp255};

// The low 16 bits, read as two's complement.
pub fn cut16(x: i32) -> i16
    ensures { result ≡ cut x }
{
    ((x & 65535) as u16).cast_signed()
}

// x / d to the nearest, ties away from 0: half of d, with the sign of x, is added before the division.
// All is doubled, so that half of d is a whole number.
fn round_over(x: i32, d: u8) -> i32
    requires { (nat_abs x ≤ 2 ^ 24) × (0 < d) }
    ensures { result ≡ round_over d x }
{
    let by = d as i32;
    if x < 0 {
        (x * 2 - by) / (by * 2)
    } else {
        (x * 2 + by) / (by * 2)
    }
}

// The rounded mean of two numbers whose sum is x.
pub fn round_over_2(x: i32) -> i32
    requires { nat_abs x ≤ 2 ^ 24 }
    ensures { (result ≡ round_over 2 x) × (nat_abs result * 2 ≤ nat_abs x + 1) }
{
    round_over(x, 2)
}

// The rounded mean of four numbers whose sum is x.
pub fn round_over_4(x: i32) -> i32
    requires { nat_abs x ≤ 2 ^ 24 }
    ensures { (result ≡ round_over 4 x) × (nat_abs result * 4 ≤ nat_abs x + 2) }
{
    round_over(x, 4)
}

// The nearest number from 0 to 255.
pub fn clamp_to_byte(x: i32) -> u8
    ensures { result ≡ clamp255 x }
{
    x.clamp(0, 255) as u8
}
