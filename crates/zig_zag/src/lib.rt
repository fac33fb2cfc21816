// The values of a block: its coefficients, which stand in zig-zag order, dequantised and put to their places.
#![tactic(auto)]

ghost use Rattle.std.specs.Prelude.{◌≡◌, ◌+◌, ◌≤◌, length};
ghost use Rattle.zig_zag.specs.Values.{dequantized};
ghost use Rattle.zig_zag.specs.Placing.{StandsAt, Four, Grows, Fills};

pub fn dequantized(c: i16, q: u16) -> i16
    ensures { result ≡ dequantized c q }
{
    numeric::cut16(c as i32 * q as i32)
}

// The value of the position p in zig-zag order to its place, i in natural order. Where both are literals, so are the places in the compiled code: three instructions a value.
// A loop over the positions took eleven, and more than a quarter of the time of a recording in which much moves.
fn place(coefs: &[i16], at: usize, matrix: &[u16], p: usize, i: usize, out: &mut [i16])
    requires { (at + 64 ≤ length coefs.now) × (length matrix.now ≡ 64) × (length out.old ≡ 64) × (1 ≤ p) × StandsAt p i }
    ensures { Grows coefs.now at matrix.now p 1 out.old out.new }
{
    let z = at + p;
    let x = dequantized(coefs[z], matrix[i]);
    let j = i % 8 * 8 + i / 8;
    out[j] = x;
}

// Four positions from p on, whose places are a, b, c and d.
fn place_four(
    coefs: &[i16],
    at: usize,
    matrix: &[u16],
    p: usize,
    a: usize,
    b: usize,
    c: usize,
    d: usize,
    out: &mut [i16],
)
    requires { (at + 64 ≤ length coefs.now) × (length matrix.now ≡ 64) × (length out.old ≡ 64) × (1 ≤ p) × Four p a b c d }
    ensures { Grows coefs.now at matrix.now p 4 out.old out.new }
{
    place(coefs, at, matrix, p, a, out);
    place(coefs, at, matrix, p + 1, b, out);
    place(coefs, at, matrix, p + 2, c, out);
    place(coefs, at, matrix, p + 3, d, out);
}

// Eight positions from p on.
fn place_eight(
    coefs: &[i16],
    at: usize,
    matrix: &[u16],
    p: usize,
    a: usize,
    b: usize,
    c: usize,
    d: usize,
    e: usize,
    f: usize,
    g: usize,
    h: usize,
    out: &mut [i16],
)
    requires { (at + 64 ≤ length coefs.now) × (length matrix.now ≡ 64) × (length out.old ≡ 64) × (1 ≤ p) × Four p a b c d × Four (p + 4) e f g h }
    ensures { Grows coefs.now at matrix.now p 8 out.old out.new }
{
    place_four(coefs, at, matrix, p, a, b, c, d, out);
    place_four(coefs, at, matrix, p + 4, e, f, g, h, out);
}

// The values from the position 8 on, eight at a time as far as some may be other than 0: those from n on are 0.
fn place_rest(coefs: &[i16], at: usize, n: usize, matrix: &[u16], out: &mut [i16])
    requires { (at + 64 ≤ length coefs.now) × (length matrix.now ≡ 64) × (length out.old ≡ 64) }
    ensures { Fills coefs.now at matrix.now 8 n out.old out.new }
{
    place_eight(coefs, at, matrix, 8, 17, 24, 32, 25, 18, 11, 4, 5, out);
    if n <= 16 {
        return;
    }
    place_eight(coefs, at, matrix, 16, 12, 19, 26, 33, 40, 48, 41, 34, out);
    if n <= 24 {
        return;
    }
    place_eight(coefs, at, matrix, 24, 27, 20, 13, 6, 7, 14, 21, 28, out);
    if n <= 32 {
        return;
    }
    place_eight(coefs, at, matrix, 32, 35, 42, 49, 56, 57, 50, 43, 36, out);
    if n <= 40 {
        return;
    }
    place_eight(coefs, at, matrix, 40, 29, 22, 15, 23, 30, 37, 44, 51, out);
    if n <= 48 {
        return;
    }
    place_eight(coefs, at, matrix, 48, 58, 59, 52, 45, 38, 31, 39, 46, out);
    if n <= 56 {
        return;
    }
    place_eight(coefs, at, matrix, 56, 53, 60, 61, 54, 47, 55, 62, 63, out);
}

// All values but DC's; those from n on are 0.
pub fn place_values(coefs: &[i16], at: usize, n: usize, matrix: &[u16], out: &mut [i16])
    requires { (at + 64 ≤ length coefs.now) × (length matrix.now ≡ 64) × (length out.old ≡ 64) }
    ensures { Fills coefs.now at matrix.now 1 n out.old out.new }
{
    place(coefs, at, matrix, 1, 1, out);
    place(coefs, at, matrix, 2, 8, out);
    place(coefs, at, matrix, 3, 16, out);
    place_four(coefs, at, matrix, 4, 9, 2, 3, 10, out);
    if 8 < n {
        place_rest(coefs, at, n, matrix, out);
    }
}
