// The schemes of modes: the mode of each rank, sent or listed; and which macro blocks send a mode.
#![tactic(auto)]

ghost use Rattle.std.specs.Prelude.{◌≡◌, ◌+◌, ◌*◌, ◌<◌, ◌≤◌, length, replicate};
ghost use Rattle.bitstream.specs.Bits.{longest};
ghost use Rattle.bitstream.specs.Answer.{Stored, as_end};
ghost use Rattle.mode_schemes.specs.Schemes.{ranks_from, sent_alphabet, mode_of_rank, luma_coded};

use bitstream::{End, Field};

// The modes of ranks 0 to 7 in schemes 1 to 6, as decimal digits from the left.
const DIGITS: [u32; 6] = [34201567, 34021567, 32401567, 32041567, 3421567, 5342167];

const PLACES: [u32; 8] = [10000000, 1000000, 100000, 10000, 1000, 100, 10, 1];

// Scheme 0: for each mode its rank, put into the modes of the ranks.
fn read_ranks(packet: &[u8], at: usize, alphabet: &mut [u8; 8]) -> End
    requires { length packet.now ≤ longest }
    ensures value { result ≡ as_end (ranks_from 8 0 alphabet.old packet.now at) }
    ensures stored { Stored alphabet.new (ranks_from 8 0 alphabet.old packet.now at) }
{
    let mut m: u8 = 0;
    let mut place = at;
    while m < 8 {
        let one = bitstream::read(packet, place, 3);
        match one {
            Field::Refused(k, e) => {
                return End::Refused(k, e);
            }
            Field::Got(r, next) => {
                let rank = r as usize;
                alphabet[rank] = m;
                place = next;
                m += 1;
            }
        }
    }
    End::At(place)
}

// The modes of the ranks that the scheme sends, put into 8 zeros.
pub fn read_alphabet(packet: &[u8], at: usize, scheme: u32, alphabet: &mut [u8; 8]) -> End
    requires { (length packet.now ≤ longest) × (alphabet.old ≡ replicate 8 0) }
    ensures value { result ≡ as_end (sent_alphabet scheme packet.now at) }
    ensures stored { Stored alphabet.new (sent_alphabet scheme packet.now at) }
{
    if scheme == 0 {
        return read_ranks(packet, at, alphabet);
    }
    End::At(at)
}

pub fn mode_of_rank(scheme: u32, alphabet: &[u8; 8], r: u32) -> u8
    requires { (scheme ≤ 6) × (r ≤ 7) }
    ensures { result ≡ mode_of_rank scheme alphabet.now r }
{
    let rank = r as usize;
    if scheme == 0 {
        return alphabet[rank];
    }
    let line = (scheme - 1) as usize;
    (DIGITS[line] / PLACES[rank] % 10) as u8
}

// Whether one of the four luma blocks of macro block m is coded.
pub fn luma_is_coded(flags: &[u8], m: usize) -> bool
    requires { m * 4 + 3 < length flags.now }
    ensures { result ≡ luma_coded flags.now m }
{
    let first = m * 4;
    if 0 < flags[first] {
        return true;
    }
    if 0 < flags[first + 1] {
        return true;
    }
    if 0 < flags[first + 2] {
        return true;
    }
    0 < flags[first + 3]
}
