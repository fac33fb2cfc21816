// The coding modes of an inter frame's macro blocks.
#![tactic(auto)]

ghost use Rattle.std.specs.Prelude.{◌≡◌, ◌+◌, ◌*◌, ◌<◌, ◌≤◌, [], length};
ghost use Rattle.bitstream.specs.Bits.{longest};
ghost use Rattle.bitstream.specs.Answer.{Stored, as_end};
ghost use Rattle.modes.specs.Modes.{mode, mode_of, modes_from, macro_modes, as_mode};

use bitstream::{End, Field};

// A mode and the place behind it, or the number of the refusal and the place of the field at fault.
#[derive(Clone, Copy)]
enum Mode {
    Is(u8, usize),
    Refused(u32, usize),
}

// The mode of a macro block that has a coded luma block.
fn read_mode(packet: &[u8], at: usize, scheme: u32, alphabet: &[u8; 8]) -> Mode
    requires { (length packet.now ≤ longest) × (scheme ≤ 7) }
    ensures { result ≡ as_mode (mode scheme alphabet.now packet.now at) }
{
    if scheme == 7 {
        let raw = bitstream::read(packet, at, 3);
        match raw {
            Field::Refused(k, e) => {
                return Mode::Refused(k, e);
            }
            Field::Got(v, next) => {
                return Mode::Is(v as u8, next);
            }
        }
    }
    let code = bitstream::read_unary(packet, at, 7);
    match code {
        Field::Refused(k, _) => Mode::Refused(k, at),
        Field::Got(r, next) => Mode::Is(mode_schemes::mode_of_rank(scheme, alphabet, r), next),
    }
}

fn read_mode_of(
    packet: &[u8],
    at: usize,
    scheme: u32,
    alphabet: &[u8; 8],
    flags: &[u8],
    m: usize,
) -> Mode
    requires { (length packet.now ≤ longest) × (scheme ≤ 7) × (m * 4 + 3 < length flags.now) }
    ensures { result ≡ as_mode (mode_of scheme alphabet.now flags.now m packet.now at) }
{
    if mode_schemes::luma_is_coded(flags, m) {
        return read_mode(packet, at, scheme, alphabet);
    }
    Mode::Is(0, at)
}

// The modes of all macro blocks in coded order, behind the alphabet.
fn read_each(
    packet: &[u8],
    at: usize,
    scheme: u32,
    alphabet: &[u8; 8],
    flags: &[u8],
    modes: &mut [u8],
) -> End
    requires { (length packet.now ≤ longest) × (scheme ≤ 7) × (length modes.old * 4 ≤ length flags.now) }
    ensures value { result ≡ as_end (modes_from scheme alphabet.now flags.now (length modes.old) 0 [] packet.now at) }
    ensures stored { Stored modes.new (modes_from scheme alphabet.now flags.now (length modes.old) 0 [] packet.now at) }
{
    let n = modes.len();
    let mut m: usize = 0;
    let mut place = at;
    while m < n {
        let one = read_mode_of(packet, place, scheme, alphabet, flags, m);
        match one {
            Mode::Refused(k, e) => {
                return End::Refused(k, e);
            }
            Mode::Is(v, next) => {
                modes[m] = v;
                place = next;
                m += 1;
            }
        }
    }
    End::At(place)
}

// The scheme, and the mode of each macro block in coded order. flags holds a 0 or 1 for each block, in coded order.
pub fn read_modes(packet: &[u8], at: usize, flags: &[u8], modes: &mut [u8]) -> End
    requires { (length packet.now ≤ longest) × (length modes.old * 4 ≤ length flags.now) }
    ensures value { result ≡ as_end (macro_modes flags.now (length modes.old) packet.now at) }
    ensures stored { Stored modes.new (macro_modes flags.now (length modes.old) packet.now at) }
{
    let first = bitstream::read(packet, at, 3);
    match first {
        Field::Refused(k, e) => End::Refused(k, e),
        Field::Got(scheme, next) => {
            let mut alphabet = [0u8; 8];
            let sent = mode_schemes::read_alphabet(packet, next, scheme, &mut alphabet);
            match sent {
                End::Refused(k, e) => End::Refused(k, e),
                End::At(start) => read_each(packet, start, scheme, &alphabet, flags, modes),
            }
        }
    }
}
