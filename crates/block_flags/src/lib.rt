// The flags of the blocks of one super block, out of strings that were read.
#![tactic(auto)]

ghost use Rattle.std.specs.Prelude.{◌≡◌, ◌++◌, ◌+◌, ◌≤◌, ◌<◌, length, take, drop};
ghost use Rattle.block_flags.specs.Flags.{block_flags, taken_next};

// How much is taken of the string of fully coded super blocks, and of the string of blocks.
#[derive(Clone, Copy)]
pub struct Taken {
    pub full: usize,
    pub bits: usize,
}

// The flags of one super block, whose blocks are `count` from `first` on.
pub fn flag_blocks(
    flags: &mut [u8],
    first: usize,
    count: usize,
    partly: u8,
    full: &[u8],
    bits: &[u8],
    taken: Taken,
) -> Taken
    requires { (first + count ≤ length flags.old) × (partly ≡ 1 → taken.bits + count ≤ length bits.now) × ((partly ≡ 1 → ⊥) → taken.full < length full.now) }
    ensures value { result ≡ taken_next partly count taken }
    ensures flags_after { flags.new ≡ take first flags.old ++ block_flags partly count full.now bits.now taken ++ drop (first + count) flags.old }
{
    let Taken { full: j, bits: m } = taken;
    if partly == 1 {
        buffer::copy(&mut flags[first..first + count], &bits[m..m + count]);
        Taken {
            full: j,
            bits: m + count,
        }
    } else {
        buffer::fill_bytes(flags, first, count, full[j]);
        Taken {
            full: j + 1,
            bits: m,
        }
    }
}
