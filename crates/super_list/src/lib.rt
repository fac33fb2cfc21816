// The coded blocks of one super block, put into the list, and their records.
#![tactic(auto)]

ghost use Rattle.std.specs.Prelude.{◌≡◌, true, ◌+◌, ◌≤◌, ◌<◌, eqb, length, get_or, set};
ghost use Rattle.bitstream.specs.Reading.{choose};
ghost use Rattle.geometry.specs.Sizes.{blocks_of, largest};
ghost use Rattle.block_record.specs.Record.{now_coded};
ghost use Rattle.block_record.specs.Packed.{packed};
ghost use Rattle.coded_flags.specs.Coded.{order};
ghost use Rattle.super_list.specs.Listing.{Goes, NoneSet, WholeAt};

use geometry::PixelFormat;

// The walk through a whole super block: 4 times the row, and the column, of each of its blocks.
const WALK: [u8; 16] = [0, 1, 5, 4, 8, 12, 13, 9, 10, 14, 15, 11, 7, 6, 2, 3];

// The block with raster number n: where it is coded, its record, and its number behind the first `count` of `coded`.
fn list_number(n: u64, flag: u8, records: &mut [u32], coded: &mut [u64], count: usize) -> usize
    requires { (n < length records.old) × (count < length coded.old) }
    ensures value { result ≡ choose (eqb flag 1) (count + 1) count }
    ensures records_after { records.new ≡ choose (eqb flag 1) (set records.old n (packed now_coded)) records.old }
    ensures coded_after { coded.new ≡ choose (eqb flag 1) (set coded.old count n) coded.old }
{
    if flag != 1 {
        return count;
    }
    records[n as usize] = block_record::now_coded();
    coded[count] = n;
    count + 1
}

// Block i of the coded order, likewise.
fn list_block(
    format: PixelFormat,
    w: u64,
    h: u64,
    i: usize,
    flag: u8,
    records: &mut [u32],
    coded: &mut [u64],
    count: usize,
) -> usize
    requires { (w ≤ largest) × (h ≤ largest) × (i < blocks_of format w h) × (length records.old ≡ blocks_of format w h) × (count < length coded.old) }
    ensures value { result ≡ choose (eqb flag 1) (count + 1) count }
    ensures records_after { records.new ≡ choose (eqb flag 1) (set records.old (get_or (order format w h) i 0) (packed now_coded)) records.old }
    ensures coded_after { coded.new ≡ choose (eqb flag 1) (set coded.old count (get_or (order format w h) i 0)) coded.old }
{
    if flag != 1 {
        return count;
    }
    let b = geometry::block_at(format, w, h, i as u64);
    let n = geometry::raster_number(format, w, h, b);
    list_number(n, flag, records, coded, count)
}

// A super block that the frame cuts: its blocks from `first` to before `end`, each by its place in the coded order.
pub fn list_cut(
    format: PixelFormat,
    w: u64,
    h: u64,
    flags: &[u8],
    first: usize,
    end: usize,
    records: &mut [u32],
    coded: &mut [u64],
    before: usize,
) -> usize
    requires { (w ≤ largest) × (h ≤ largest) × (length flags.now ≡ blocks_of format w h) × (length records.old ≡ blocks_of format w h) × (length coded.old ≡ blocks_of format w h) × (before ≤ first) × (first ≤ end) × (end ≤ blocks_of format w h) }
    ensures { (result ≤ end) × Goes (order format w h) flags.now records.old coded.old before first records.new coded.new result (end) }
{
    let mut count = before;
    for i in first..end {
        count = list_block(format, w, h, i, flags[i], records, coded, count);
    }
    count
}

// A whole super block, which begins with block number `first`. One place is computed, and the others follow by the walk: that saves
// 3.2 % of the instructions of a frame in which much moves (cif).
pub fn list_whole(
    format: PixelFormat,
    w: u64,
    h: u64,
    flags: &[u8],
    first: usize,
    records: &mut [u32],
    coded: &mut [u64],
    before: usize,
) -> usize
    requires { (w ≤ largest) × (h ≤ largest) × (length flags.now ≡ blocks_of format w h) × (length records.old ≡ blocks_of format w h) × (length coded.old ≡ blocks_of format w h) × (before ≤ first) × (first + 16 ≤ blocks_of format w h) × WholeAt format w h first }
    ensures { (result ≤ first + 16) × Goes (order format w h) flags.now records.old coded.old before first records.new coded.new result (first + 16) }
{
    let b = geometry::block_at(format, w, h, first as u64);
    let corner = geometry::raster_number(format, w, h, b);
    let across = geometry::plane_of(format, w, h, b.plane).across;
    let mut count = before;
    for (j, place) in WALK.iter().enumerate() {
        let place = u64::from(*place);
        let n = corner + place / 4 * across + place % 4;
        count = list_number(n, flags[first + j], records, coded, count);
    }
    count
}

// Is none of the flags from `first` to before `end` 1? The loop looks at all of them, so that the compiler takes sixteen at a time.
#[tactic(auto, unfolding(crate::specs::Listing::NoneSet))]
pub fn none_set(flags: &[u8], first: usize, end: usize) -> bool
    requires { (first ≤ end) × (end ≤ length flags.now) }
    ensures { result ≡ true → NoneSet flags.now first end }
{
    let mut none = true;
    for flag in &flags[first..end] {
        none &= *flag != 1;
    }
    none
}
