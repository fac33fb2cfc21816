// Which blocks of a frame are coded: their flags in coded order.
#![tactic(auto)]

ghost use Rattle.std.specs.Prelude.{◌≡◌, ◌+◌, ◌*◌, ◌/◌, ◌≤◌, ◌<◌, eqb, length, take, drop, replicate};
ghost use Rattle.bitstream.specs.Bits.{longest};
ghost use Rattle.bitstream.specs.Reading.{choose};
ghost use Rattle.geometry.specs.Sizes.{blocks_of, super_blocks_of, largest};
ghost use Rattle.bitstream.specs.Answer.{Stored, as_end};
ghost use Rattle.coded_flags.specs.Flags.{ones, rest, super_sizes, super_flags, partly_blocks, spread, inter_flags};
ghost use Rattle.coded_flags.specs.Answer.{as_supers, StoredSupers};

use bitstream::End;
use block_flags::Taken;
use geometry::PixelFormat;
use runs::RunCode;

// How many super blocks are not partly coded, and the place behind both strings of super blocks; or the refusal.
#[derive(Clone, Copy)]
enum SuperRead {
    At(usize, usize),
    Refused(u32, usize),
}

fn one_if(b: u8) -> usize
    ensures { (result ≡ choose (eqb b 1) 1 0) × (result ≤ 1) }
{
    if b == 1 {
        return 1;
    }
    0
}

// How many of the bits are 1.
pub fn count_ones(bits: &[u8]) -> usize
    ensures { (result ≡ ones bits.now) × (result ≤ length bits.now) }
{
    let mut n: usize = 0;
    let mut i = 0;
    while i < bits.len() {
        n += one_if(bits[i]);
        i += 1;
    }
    n
}

// The two strings of super blocks, the first into the first half of `supers`, the second into the second half.
fn read_super_flags(packet: &[u8], at: usize, supers: &mut [u8]) -> SuperRead
    requires { length packet.now ≤ longest }
    ensures value { result ≡ as_supers (super_flags (length supers.old / 2) packet.now at) }
    ensures stored_supers { StoredSupers supers.new (length supers.old / 2) (super_flags (length supers.old / 2) packet.now at) }
{
    let n = supers.len() / 2;
    let partly = runs::read_string(packet, at, RunCode::Long, &mut supers[..n]);
    match partly {
        End::Refused(k, e) => SuperRead::Refused(k, e),
        End::At(next) => {
            let left = n - count_ones(&supers[..n]);
            let end = n + left;
            let full = runs::read_string(packet, next, RunCode::Long, &mut supers[n..end]);
            match full {
                End::Refused(k, e) => SuperRead::Refused(k, e),
                End::At(place) => SuperRead::At(left, place),
            }
        }
    }
}

fn count_if(b: u8, count: u64) -> usize
    ensures { (result ≡ choose (eqb b 1) count 0) × (result ≤ count) }
{
    if b == 1 {
        return count as usize;
    }
    0
}

// How many blocks the partly coded super blocks have.
fn partly_blocks(format: PixelFormat, w: u64, h: u64, partly: &[u8]) -> usize
    requires { (w ≤ largest) × (h ≤ largest) × (length partly.now ≡ super_blocks_of format w h) }
    ensures { result ≡ partly_blocks (super_sizes format w h) partly.now }
{
    let mut n: usize = 0;
    let mut k = 0;
    while k < partly.len() {
        let s = geometry::super_block(format, w, h, k as u64);
        n += count_if(partly[k], s.count);
        k += 1;
    }
    n
}

// Spreads the three strings over the flags of all blocks.
fn spread_flags(
    format: PixelFormat,
    w: u64,
    h: u64,
    partly: &[u8],
    full: &[u8],
    bits: &[u8],
    flags: &mut [u8],
)
    requires { (w ≤ largest) × (h ≤ largest) × (length partly.now ≡ super_blocks_of format w h) × (length full.now ≡ rest partly.now) × (length bits.now ≡ partly_blocks (super_sizes format w h) partly.now) × (length flags.old ≡ blocks_of format w h) }
    ensures { flags.new ≡ spread (super_sizes format w h) partly.now full.now bits.now }
{
    let mut taken = Taken { full: 0, bits: 0 };
    let mut k = 0;
    while k < partly.len() {
        let s = geometry::super_block(format, w, h, k as u64);
        taken = block_flags::flag_blocks(
            flags,
            s.first as usize,
            s.count as usize,
            partly[k],
            full,
            bits,
            taken,
        );
        k += 1;
    }
}

// The same, with the two strings of super blocks in the two halves of `supers`.
fn spread_strings(
    format: PixelFormat,
    w: u64,
    h: u64,
    supers: &[u8],
    left: usize,
    bits: &[u8],
    flags: &mut [u8],
)
    requires { (w ≤ largest) × (h ≤ largest) × (length supers.now ≡ 2 * super_blocks_of format w h) × (left ≡ rest (take (super_blocks_of format w h) supers.now)) × (length bits.now ≡ partly_blocks (super_sizes format w h) (take (super_blocks_of format w h) supers.now)) × (length flags.old ≡ blocks_of format w h) }
    ensures { flags.new ≡ spread (super_sizes format w h) (take (super_blocks_of format w h) supers.now) (take left (drop (super_blocks_of format w h) supers.now)) bits.now }
{
    let n = supers.len() / 2;
    let end = n + left;
    spread_flags(format, w, h, &supers[..n], &supers[n..end], bits, flags);
}

// The flags of an inter frame. `supers` and `bits` are scratch for the strings; what they hold afterwards is open.
pub fn read_flags(
    packet: &[u8],
    at: usize,
    format: PixelFormat,
    w: u64,
    h: u64,
    supers: &mut [u8],
    bits: &mut [u8],
    flags: &mut [u8],
) -> End
    requires { (length packet.now ≤ longest) × (w ≤ largest) × (h ≤ largest) × (length supers.old ≡ 2 * super_blocks_of format w h) × (length bits.old ≡ blocks_of format w h) × (length flags.old ≡ blocks_of format w h) }
    ensures value { result ≡ as_end (inter_flags format w h packet.now at) }
    ensures stored { Stored flags.new (inter_flags format w h packet.now at) }
{
    let n = supers.len() / 2;
    let read = read_super_flags(packet, at, supers);
    match read {
        SuperRead::Refused(k, e) => End::Refused(k, e),
        SuperRead::At(left, next) => {
            let m = partly_blocks(format, w, h, &supers[..n]);
            let string = runs::read_string(packet, next, RunCode::Short, &mut bits[..m]);
            match string {
                End::Refused(k, e) => End::Refused(k, e),
                End::At(place) => {
                    spread_strings(format, w, h, supers, left, &bits[..m], flags);
                    End::At(place)
                }
            }
        }
    }
}

// The flags of an intra frame.
pub fn flag_all(flags: &mut [u8])
    ensures { flags.new ≡ replicate (length flags.old) 1 }
{
    let n = flags.len();
    buffer::fill_bytes(flags, 0, n, 1);
}
