// The residual of a block: its coefficients dequantised, and the inverse transform.
#![tactic(auto)]

ghost use Rattle.std.specs.Prelude.{◌≡◌, true, map, ℕ, ◌+◌, ◌*◌, ◌/◌, ◌%◌, ◌≤◌, ◌<◌, pos, length, get_or};
ghost use Rattle.transform.specs.Block.{rows, columns, inverse};
ghost use Rattle.zig_zag.specs.Values.{tabulated, values};
ghost use Rattle.zig_zag.specs.Placing.{turned, ZerosFrom};
ghost use Rattle.transform.specs.Residual.{dc_only, rounded, residual};

use lines::Line;

// A line of zeros.
const ZEROS: Line = Line {
    x0: 0,
    x1: 0,
    x2: 0,
    x3: 0,
    x4: 0,
    x5: 0,
    x6: 0,
    x7: 0,
};

// The rows of a block, from the block turned: row i from column i, so that eight rows go together as eight columns do.
fn transform_rows(turned: &[i16], out: &mut [i16])
    requires { (length turned.now ≡ 64) × (length out.old ≡ 64) }
    ensures { out.new ≡ rows 8 (tabulated (λ i. get_or turned.now (i % 8 * 8 + i / 8) (pos 0)) 0 64) }
{
    for i in 0..8 {
        let l = lines::transformed_line(lines::line_at(turned, i, 8));
        lines::put_line(out, i * 8, 1, l);
    }
}

fn transform_columns(s: &mut [i16])
    requires { length s.old ≡ 64 }
    ensures { s.new ≡ columns 8 s.old }
{
    for i in 0..8 {
        lines::transform_line(s, i, 8);
    }
}

// The inverse transform of 64 values, from the block turned: rows, then columns.
fn inverse_transform(turned: &[i16], out: &mut [i16])
    requires { (length turned.now ≡ 64) × (length out.old ≡ 64) }
    ensures { out.new ≡ inverse (tabulated (λ i. get_or turned.now (i % 8 * 8 + i / 8) (pos 0)) 0 64) }
{
    transform_rows(turned, out);
    transform_columns(out);
}

fn dc_only(c: i16, q: u16) -> i16
    ensures { result ≡ dc_only c q }
{
    numeric::cut16((c as i32 * q as i32 + 15) >> 5)
}

// How many of the 64 coefficients that start at `at` may be other than 0: all from there on are 0. Eight are tested at a time, the last first.
fn used(coefs: &[i16], at: usize) -> usize
    requires { at + 64 ≤ length coefs.now }
    ensures { (result ≤ 64) × ZerosFrom coefs.now at result }
{
    for g in (0..8).rev() {
        if lines::line_at(coefs, at + g * 8, 1) != ZEROS {
            return g * 8 + 8;
        }
    }
    0
}

// The dequantised values, turned, from the 64 coefficients in zig-zag order that start at `at`. The first is DC's, whose quantizer is `q`.
// Zeros first, then the values of those that are used, each to its place. `[..64]` tells the compiler the length, which makes a DC-only block 4 ns faster.
fn dequantize(coefs: &[i16], at: usize, dc: i16, q: u16, matrix: &[u16], out: &mut [i16])
    requires { (at + 64 ≤ length coefs.now) × (length matrix.now ≡ 64) × (length out.old ≡ 64) }
    ensures { out.new ≡ turned (values coefs.now at dc q matrix.now) }
{
    out[..64].fill(0);
    out[0] = zig_zag::dequantized(dc, q);
    zig_zag::place_values(coefs, at, used(coefs, at), matrix, out);
}

// In 16 bits throughout: x + 8 may be more than they hold.
fn rounded(x: i16) -> i16
    ensures { result ≡ rounded x }
{
    ((x >> 3) + 1) >> 1
}

fn round_all(s: &mut [i16])
    requires { length s.old ≡ 64 }
    ensures { s.new ≡ map rounded s.old }
{
    for i in 0..64 {
        s[i] = rounded(s[i]);
    }
}

// The 64 residuals of a block, row 0 lowest. `dc` takes the place of the first coefficient, and `q` is its quantizer; `last` is the position of the block's last visit.
pub fn residual(
    coefs: &[i16],
    at: usize,
    dc: i16,
    last: u8,
    q: u16,
    matrix: &[u16],
    out: &mut [i16],
)
    requires { (at + 64 ≤ length coefs.now) × (length matrix.now ≡ 64) × (length out.old ≡ 64) }
    ensures { out.new ≡ residual coefs.now at dc last q matrix.now }
{
    if last < 2 {
        out[..64].fill(dc_only(dc, q));
        return;
    }
    let mut turned = [0i16; 64];
    dequantize(coefs, at, dc, q, matrix, &mut turned);
    inverse_transform(&turned, out);
    round_all(out);
}
