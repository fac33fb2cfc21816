// What a player does beside the calls: it hands frames on, and makes the hash of a frame.
#![tactic(auto)]

ghost use Rattle.std.specs.Prelude.{◌≡◌, length};
ghost use Rattle.player.specs.Hash.{hash_byte, hash_of};
ghost use Rattle.player.specs.HandOn.{HandsOn};

use frame_header::Kind;

// After an accepted frame new becomes previous, after an intra frame also golden.
pub fn hand_on(kind: Kind, golden: &mut [u8], previous: &mut [u8], new: &[u8])
    requires { (length golden.old ≡ length new.now) × (length previous.old ≡ length new.now) }
    ensures { HandsOn kind golden.old previous.old new.now golden.new previous.new }
{
    buffer::copy(previous, new);
    match kind {
        Kind::Intra => buffer::copy(golden, new),
        Kind::Inter => return,
        Kind::Repeat => return,
    }
}

// The hash of one byte more. The prime is 2^40 + 435.
pub fn hash_byte(hash: u64, byte: u8) -> u64
    ensures { result ≡ hash_byte hash byte }
{
    let mixed = hash ^ (byte as u64);
    let high = mixed / 4294967296 * 435 % 4294967296 * 4294967296;
    let low = mixed % 4294967296 * 435;
    let sum = std::num::wrapping_add_u64(high, low);
    std::num::wrapping_add_u64(sum, mixed % 16777216 * 1099511627776)
}

// The hash of a frame.
pub fn hash(bytes: &[u8]) -> u64
    ensures { result ≡ hash_of bytes.now }
{
    let mut hash: u64 = 14695981039346656037;
    let mut i: usize = 0;
    while i < bytes.len() {
        hash = hash_byte(hash, bytes[i]);
        i += 1;
    }
    hash
}
