// The frame that a packet asks for, and the lists of its blocks cleared.
#![tactic(auto)]

ghost use Rattle.std.specs.Prelude.{◌≡◌, ◌*◌, ◌≤◌, pos, length, replicate};
ghost use Rattle.geometry.specs.Sizes.{blocks_of, largest};
ghost use Rattle.ways.specs.Ways.{first_way};
ghost use Rattle.reconstruct.specs.Picture.{picture_of};
ghost use Rattle.reconstruct.specs.Lent.{blocks_in, matrix_in, Lent, ZerosBehind};

use geometry::PixelFormat;

// The frame of the coded blocks that are lent, which is previous where none is. What held them is 0 everywhere at last.
pub fn make_frame(
    new: &mut [u8],
    golden: &[u8],
    previous: &[u8],
    records: &mut [u32],
    coded: &mut [u64],
    count: usize,
    coefs: &mut [i16],
    dc: &mut [i16],
    lasts: &mut [u8],
    matrices: &[u16],
    limit: u32,
    format: PixelFormat,
    w: u64,
    h: u64,
)
    requires { (w ≤ largest) × (h ≤ largest) × Lent format w h records.old coded.old count coefs.old lasts.old matrices.now × ZerosBehind coded.old count coefs.old lasts.old × (dc.old ≡ replicate (blocks_of format w h) (pos 0)) × (limit ≤ 127)
        × (length new.old ≡ 64 * blocks_of format w h) × (length golden.now ≡ 64 * blocks_of format w h) × (length previous.now ≡ 64 * blocks_of format w h) }
    ensures after { new.new ≡ first_way format w h (picture_of format w h (blocks_in records.old coded.old count coefs.old lasts.old) (matrix_in matrices.now) limit golden.now previous.now) previous.now }
    ensures records_after { (records.new ≡ replicate (length records.old) 0) × (coded.new ≡ replicate (length coded.old) 0) × (coefs.new ≡ replicate (length coefs.old) (pos 0))
        × (dc.new ≡ replicate (length dc.old) (pos 0)) × (lasts.new ≡ replicate (length lasts.old) 0) }
{
    if count == 0 {
        let blocks = records.len();
        buffer::copy(new, previous);
        buffer::clear_words(records, blocks);
        return;
    }
    reconstruct::reconstruct(
        new, golden, previous, records, coded, count, coefs, dc, lasts, matrices, limit, format, w,
        h,
    );
    block_clearing::clear_blocks(records, coded, count, coefs, dc, lasts);
}
