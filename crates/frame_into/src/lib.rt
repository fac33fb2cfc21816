// The frame that a packet asks for, into the free one of three buffers, and the lists of its blocks cleared.
#![tactic(auto)]

ghost use Rattle.std.specs.Prelude.{◌≡◌, true, false, [], ◌∷◌, ◌≢◌, ◌*◌, ◌≤◌, ◌<◌, pos, length, set, replicate};
ghost use Rattle.bitstream.specs.Reading.{choose};
ghost use Rattle.geometry.specs.Sizes.{blocks_of, largest};
ghost use Rattle.ways.specs.Ways.{first_way};
ghost use Rattle.reconstruct.specs.Picture.{picture_of};
ghost use Rattle.reconstruct.specs.Lent.{blocks_in, matrix_in, Lent, ZerosBehind};
ghost use Rattle.frame_into.specs.Buffers.{buffer_of, index};

use geometry::PixelFormat;

// One of two buffers.
fn one_of<'a>(second: bool, a: &'a [u8], b: &'a [u8]) -> &'a [u8]
    ensures { result.now ≡ choose second b.now a.now }
{
    if second {
        return b;
    }
    a
}

// The frame, by golden and previous in two other buffers.
fn make_by<'a>(
    new: &mut [u8],
    low: &'a [u8],
    high: &'a [u8],
    golden_high: bool,
    previous_high: bool,
    records: &mut [u32],
    coded: &mut [u64],
    count: usize,
    coefs: &mut [i16],
    dc: &mut [i16],
    lasts: &mut [u8],
    matrices: &[u16],
    limit: u32,
    format: PixelFormat,
    w: u64,
    h: u64,
)
    requires { (w ≤ largest) × (h ≤ largest) × Lent format w h records.old coded.old count coefs.old lasts.old matrices.now × ZerosBehind coded.old count coefs.old lasts.old × (dc.old ≡ replicate (blocks_of format w h) (pos 0)) × (limit ≤ 127)
        × (length new.old ≡ 64 * blocks_of format w h) × (length low.now ≡ 64 * blocks_of format w h) × (length high.now ≡ 64 * blocks_of format w h) }
    ensures after { new.new ≡ first_way format w h (picture_of format w h (blocks_in records.old coded.old count coefs.old lasts.old) (matrix_in matrices.now) limit
        (choose golden_high high.now low.now) (choose previous_high high.now low.now)) (choose previous_high high.now low.now) }
    ensures records_after { (records.new ≡ replicate (length records.old) 0) × (coded.new ≡ replicate (length coded.old) 0) × (coefs.new ≡ replicate (length coefs.old) (pos 0))
        × (dc.new ≡ replicate (length dc.old) (pos 0)) × (lasts.new ≡ replicate (length lasts.old) 0) }
{
    let golden = one_of(golden_high, low, high);
    let previous = one_of(previous_high, low, high);
    making::make_frame(
        new, golden, previous, records, coded, count, coefs, dc, lasts, matrices, limit, format, w,
        h,
    );
}

// The frame of the coded blocks that are lent, into the buffer of the number `free`, by golden and previous in the buffers of their names. Without an accepted packet nothing changes.
pub fn make_into(
    accepted: bool,
    free: u64,
    golden: u64,
    previous: u64,
    first: &mut [u8],
    second: &mut [u8],
    third: &mut [u8],
    records: &mut [u32],
    coded: &mut [u64],
    count: usize,
    coefs: &mut [i16],
    dc: &mut [i16],
    lasts: &mut [u8],
    matrices: &[u16],
    limit: u32,
    format: PixelFormat,
    w: u64,
    h: u64,
)
    requires w_le_largest { accepted ≡ true → (w ≤ largest) × (h ≤ largest) × Lent format w h records.old coded.old count coefs.old lasts.old matrices.now × ZerosBehind coded.old count coefs.old lasts.old
        × (dc.old ≡ replicate (blocks_of format w h) (pos 0)) × (limit ≤ 127)
        × (length first.old ≡ 64 * blocks_of format w h) × (length second.old ≡ 64 * blocks_of format w h) × (length third.old ≡ 64 * blocks_of format w h) }
    requires free_bound { (free < 3) × (index golden ≢ free) × (index previous ≢ free) }
    ensures third_after { accepted ≡ true
        → (first.new ∷ second.new ∷ third.new ∷ []
        ≡ set (first.old ∷ second.old ∷ third.old ∷ []) free
        (first_way format w h (picture_of format w h (blocks_in records.old coded.old count coefs.old lasts.old) (matrix_in matrices.now) limit
        (buffer_of (first.old ∷ second.old ∷ third.old ∷ []) golden) (buffer_of (first.old ∷ second.old ∷ third.old ∷ []) previous))
        (buffer_of (first.old ∷ second.old ∷ third.old ∷ []) previous)))
        × (records.new ≡ replicate (length records.old) 0) × (coded.new ≡ replicate (length coded.old) 0) × (coefs.new ≡ replicate (length coefs.old) (pos 0))
        × (dc.new ≡ replicate (length dc.old) (pos 0)) × (lasts.new ≡ replicate (length lasts.old) 0) }
    ensures first_unchanged { accepted ≡ false → (first.new ≡ first.old) × (second.new ≡ second.old) × (third.new ≡ third.old)
        × (records.new ≡ records.old) × (coded.new ≡ coded.old) × (coefs.new ≡ coefs.old) × (dc.new ≡ dc.old) × (lasts.new ≡ lasts.old) }
{
    if !accepted {
        return;
    }
    if free == 0 {
        let golden_high = golden == 2;
        let previous_high = previous == 2;
        make_by(
            first,
            second,
            third,
            golden_high,
            previous_high,
            records,
            coded,
            count,
            coefs,
            dc,
            lasts,
            matrices,
            limit,
            format,
            w,
            h,
        );
        return;
    }
    if free == 1 {
        let golden_high = golden == 2;
        let previous_high = previous == 2;
        make_by(
            second,
            first,
            third,
            golden_high,
            previous_high,
            records,
            coded,
            count,
            coefs,
            dc,
            lasts,
            matrices,
            limit,
            format,
            w,
            h,
        );
        return;
    }
    let golden_high = golden != 0;
    let previous_high = previous != 0;
    make_by(
        third,
        first,
        second,
        golden_high,
        previous_high,
        records,
        coded,
        count,
        coefs,
        dc,
        lasts,
        matrices,
        limit,
        format,
        w,
        h,
    );
}
