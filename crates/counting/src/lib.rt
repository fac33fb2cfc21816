// What one frame adds to a census: its coded and uncoded blocks by plane, and the macro blocks of an inter frame by mode.
#![tactic(auto)]

ghost use Rattle.std.specs.Prelude.{◌≡◌, ◌&&◌, ◌≤◌, leb, ltb};
ghost use Rattle.bitstream.specs.Reading.{choose};
ghost use Rattle.bitstream.specs.Lists.{Once, AllBelow};
ghost use Rattle.geometry.specs.Sizes.{blocks_of, largest};
ghost use Rattle.counting.specs.Counts.{count_within, mode_counts, no_counts, block_counts, frame_counts};

use frame_header::Kind;
use geometry::PixelFormat;

// Blocks by plane, macro blocks by mode.
#[derive(Clone, Copy)]
pub struct Counts {
    pub coded: [u64; 3],
    pub uncoded: [u64; 3],
    pub modes: [u64; 8],
}

// Nothing counted.
pub fn no_counts() -> Counts
    ensures { result ≡ no_counts }
{
    Counts {
        coded: [0, 0, 0],
        uncoded: [0, 0, 0],
        modes: [0, 0, 0, 0, 0, 0, 0, 0],
    }
}

// 1 for a number that lies from `low` on and below `high`, else 0.
fn one_if_within(n: u64, low: u64, high: u64) -> u64
    ensures { (result ≡ choose (leb low n && ltb n high) 1 0) × (result ≤ 1) }
{
    if (low <= n) & (n < high) {
        return 1;
    }
    0
}

// How many numbers lie from `low` on and below `high`.
fn count_within(numbers: &[u64], low: u64, high: u64) -> u64
    ensures { result ≡ count_within low high numbers.now }
{
    let mut i: usize = 0;
    let mut found: u64 = 0;
    while i < numbers.len() {
        found += one_if_within(numbers[i], low, high);
        i += 1;
    }
    found
}

// How often each mode stands in the list.
fn count_modes(modes: &[u8]) -> [u64; 8]
    requires { AllBelow 8 modes.now }
    ensures { result ≡ mode_counts modes.now }
{
    let mut counts = [0u64; 8];
    let mut i: usize = 0;
    while i < modes.len() {
        let mode = modes[i] as usize;
        counts[mode] = counts[mode] + 1;
        i += 1;
    }
    counts
}

// The coded and the uncoded blocks by plane, from the raster numbers of the coded blocks, beside the numbers of the modes.
fn count_blocks(format: PixelFormat, w: u64, h: u64, coded: &[u64], modes: [u64; 8]) -> Counts
    requires { (w ≤ largest) × (h ≤ largest) × Once coded.now × AllBelow (blocks_of format w h) coded.now }
    ensures { result ≡ block_counts format w h coded.now modes }
{
    let sizes = geometry::sizes(format, w, h);
    let cb = sizes.cb.offset / 64;
    let cr = sizes.cr.offset / 64;
    let all = sizes.blocks;
    let first = count_within(coded, 0, cb);
    let second = count_within(coded, cb, cr);
    let third = count_within(coded, cr, all);
    let first_rest = cb - first;
    let second_rest = cr - cb - second;
    let third_rest = all - cr - third;
    Counts {
        coded: [first, second, third],
        uncoded: [first_rest, second_rest, third_rest],
        modes,
    }
}

// What a frame of a kind adds, by its coded blocks and, in an inter frame, its modes.
pub fn count_frame(
    kind: Kind,
    format: PixelFormat,
    w: u64,
    h: u64,
    coded: &[u64],
    modes: &[u8],
) -> Counts
    requires { (w ≤ largest) × (h ≤ largest) × Once coded.now × AllBelow (blocks_of format w h) coded.now × AllBelow 8 modes.now }
    ensures { result ≡ frame_counts format w h kind coded.now modes.now }
{
    match kind {
        Kind::Intra => count_blocks(format, w, h, coded, [0, 0, 0, 0, 0, 0, 0, 0]),
        Kind::Inter => {
            let counts = count_modes(modes);
            count_blocks(format, w, h, coded, counts)
        }
        Kind::Repeat => no_counts(),
    }
}
