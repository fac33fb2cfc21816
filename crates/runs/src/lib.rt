// Strings of bits that a frame packet sends as runs.
#![tactic(auto)]

ghost use Rattle.std.specs.Prelude.{◌≡◌, ℕ, ◌<◌, ◌≤◌, length};
ghost use Rattle.bitstream.specs.Bits.{longest};
ghost use Rattle.bitstream.specs.Answer.{as_field, as_end, Stored};
ghost use Rattle.runs.specs.Runs.{most, start, extra, run, next_bit, fresh, bit_string};

use bitstream::{End, Field};

// The two codes of run lengths.
#[derive(Clone, Copy)]
pub enum RunCode {
    Long,
    Short,
}

const LONG_START: [u32; 7] = [1, 2, 4, 6, 10, 18, 34];

const LONG_EXTRA: [u32; 7] = [0, 1, 1, 2, 3, 4, 12];

const SHORT_START: [u32; 7] = [1, 3, 5, 7, 11, 15, 0];

const SHORT_EXTRA: [u32; 7] = [1, 1, 1, 2, 2, 4, 0];

// How many 1s the longest prefix of a code has.
fn most_ones(code: RunCode) -> u32
    ensures { (result ≡ most code) × (result ≤ 6) }
{
    match code {
        RunCode::Long => 6,
        RunCode::Short => 5,
    }
}

// The shortest run of a prefix of r 1s.
fn run_start(code: RunCode, r: usize) -> u32
    requires { r < 7 }
    ensures { (result ≡ start code r) × (result ≤ 34) }
{
    match code {
        RunCode::Long => LONG_START[r],
        RunCode::Short => SHORT_START[r],
    }
}

// How many bits are added to it.
fn run_extra(code: RunCode, r: usize) -> u32
    requires { r < 7 }
    ensures { (result ≡ extra code r) × (result ≤ 12) }
{
    match code {
        RunCode::Long => LONG_EXTRA[r],
        RunCode::Short => SHORT_EXTRA[r],
    }
}

// Whether the bit behind a run is read anew, as a number.
fn bit_is_fresh(length: usize) -> u8
    ensures { result ≡ fresh length }
{
    if length == 4129 {
        return 1;
    }
    0
}

// A run's length; whatever is wrong with it is reported at its prefix.
fn read_run(packet: &[u8], at: usize, code: RunCode) -> Field
    requires { length packet.now ≤ longest }
    ensures { result ≡ as_field (run code packet.now at) }
{
    let ones = most_ones(code);
    let prefix = bitstream::read_unary(packet, at, ones);
    match prefix {
        Field::Refused(k, _) => Field::Refused(k, at),
        Field::Got(r, next) => {
            let least = run_start(code, r as usize);
            let width = run_extra(code, r as usize) as usize;
            let added = bitstream::read(packet, next, width);
            match added {
                Field::Refused(k, _) => Field::Refused(k, at),
                Field::Got(x, end) => Field::Got(least + x, end),
            }
        }
    }
}

// The bit of the next run.
fn next_bit(packet: &[u8], at: usize, fresh: u8, value: u8) -> Field
    requires { length packet.now ≤ longest }
    ensures { result ≡ as_field (next_bit fresh value packet.now at) }
{
    if fresh == 1 {
        return bitstream::read(packet, at, 1);
    }
    Field::Got(value as u32, at)
}

// A string as long as `out`, one bit to a byte.
pub fn read_string(packet: &[u8], at: usize, code: RunCode, out: &mut [u8]) -> End
    requires { length packet.now ≤ longest }
    ensures value { result ≡ as_end (bit_string code (length out.old) packet.now at) }
    ensures stored { Stored out.new (bit_string code (length out.old) packet.now at) }
{
    let n = out.len();
    let mut filled: usize = 0;
    let mut value: u8 = 0;
    let mut fresh: u8 = 1;
    let mut place = at;
    while filled < n {
        let bit = next_bit(packet, place, fresh, value);
        match bit {
            Field::Refused(k, e) => {
                return End::Refused(k, e);
            }
            Field::Got(b, first) => {
                let one = read_run(packet, first, code);
                match one {
                    Field::Refused(k, e) => {
                        return End::Refused(k, e);
                    }
                    Field::Got(r, next) => {
                        let count = r as usize;
                        if n - filled < count {
                            return End::Refused(bitstream::LONG_RUN, first);
                        }
                        buffer::fill_bytes(out, filled, count, b as u8);
                        filled += count;
                        value = (1 - b) as u8;
                        fresh = bit_is_fresh(count);
                        place = next;
                    }
                }
            }
        }
    }
    End::At(place)
}
