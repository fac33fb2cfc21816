// What a call that writes bytes into a lent slice answers and leaves.
#![tactic(auto)]

ghost use Rattle.std.specs.Prelude.{◌≡◌, ◌+◌, ◌≤◌, length};
ghost use Rattle.output.specs.Output.{spliced};

// How many bytes were written, or the number of the refusal and its place.
#[derive(Clone, Copy)]
pub enum Written {
    Bytes(u64),
    Refused(u32, usize),
}

// Writes the bytes from place `at` on; the place behind them.
pub fn put(out: &mut [u8], at: usize, bytes: &[u8]) -> usize
    requires { at + length bytes.now ≤ length out.old }
    ensures value { result ≡ at + length bytes.now }
    ensures out_after { out.new ≡ spliced at bytes.now out.old }
{
    let end = at + bytes.len();
    buffer::copy(&mut out[at..end], bytes);
    end
}
