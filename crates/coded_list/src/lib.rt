// The list of a frame's coded blocks, and the records of all blocks: super block by super block.
#![tactic(auto)]

ghost use Rattle.std.specs.Prelude.{◌≡◌, ◌++◌, map, ◌+◌, ◌≤◌, ◌<◌, length, drop, replicate};
ghost use Rattle.geometry.specs.Sizes.{blocks_of, largest};
ghost use Rattle.block_record.specs.Packed.{packed};
ghost use Rattle.coded_flags.specs.Coded.{order, coded_blocks, coded_records};
ghost use Rattle.super_list.specs.Listing.{Goes, WholeAt};
ghost use Rattle.coded_list.specs.Answer.{listed_of};

use geometry::PixelFormat;

// How many blocks are coded, and how many of them are luma blocks, which come first.
#[derive(Clone, Copy)]
pub struct Listed {
    pub count: usize,
    pub luma: usize,
}

// A super block, with blocks from `first` to before `end`. One without a coded block is passed over.
fn list_super(
    format: PixelFormat,
    w: u64,
    h: u64,
    flags: &[u8],
    first: usize,
    end: usize,
    records: &mut [u32],
    coded: &mut [u64],
    before: usize,
) -> usize
    requires { (w ≤ largest) × (h ≤ largest) × (length flags.now ≡ blocks_of format w h) × (length records.old ≡ blocks_of format w h) × (length coded.old ≡ blocks_of format w h) × (before ≤ first) × (first ≤ end) × (end ≤ blocks_of format w h) × (end ≡ first + 16 → WholeAt format w h first) }
    ensures { (result ≤ end) × Goes (order format w h) flags.now records.old coded.old before first records.new coded.new result (end) }
{
    if super_list::none_set(flags, first, end) {
        return before;
    }
    if end - first == 16 {
        return super_list::list_whole(format, w, h, flags, first, records, coded, before);
    }
    super_list::list_cut(format, w, h, flags, first, end, records, coded, before)
}

// The coded blocks' raster numbers, in coded order, into the front of `coded`, whose rest stays; and all blocks' records.
pub fn list_coded(
    format: PixelFormat,
    w: u64,
    h: u64,
    flags: &[u8],
    records: &mut [u32],
    coded: &mut [u64],
) -> Listed
    requires { (w ≤ largest) × (h ≤ largest) × (length flags.now ≡ blocks_of format w h) × (records.old ≡ replicate (blocks_of format w h) 0) × (length coded.old ≡ blocks_of format w h) }
    ensures value { result ≡ listed_of format w h flags.now }
    ensures records_after { records.new ≡ map packed (coded_records format w h flags.now) }
    ensures coded_after { coded.new ≡ coded_blocks format w h flags.now ++ drop (length (coded_blocks format w h flags.now)) coded.old }
{
    let mut count = 0;
    for k in 0..geometry::sizes(format, w, h).super_blocks {
        let s = geometry::super_block(format, w, h, k);
        let start = s.first as usize;
        let end = start + s.count as usize;
        count = list_super(format, w, h, flags, start, end, records, coded, count);
    }
    let luma = geometry::plane_of(format, w, h, 0);
    let n = (luma.length / 64) as usize;
    let first = coded_flags::count_ones(&flags[..n]);
    Listed { count, luma: first }
}
