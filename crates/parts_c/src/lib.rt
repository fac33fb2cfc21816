// For the tests alone: each part of making a frame behind a call on numbers and slices, so that it can be compared by itself.
// A call has the contract of the part, and its caller meets what that requires. A pixel format is PF, a prediction the packed record of a block.
#![tactic(auto)]

ghost use Rattle.std.specs.Prelude.{◌≡◌, map, ◌+◌, ◌*◌, ◌≤◌, pos, length, replicate};
ghost use Rattle.geometry.specs.Sizes.{across, blocks_of, largest};
ghost use Rattle.geometry.specs.Frame.{block, InFrame};
ghost use Rattle.geometry.specs.Sample.{sample_at};
ghost use Rattle.headers.specs.Sizes.{format_of};
ghost use Rattle.block_record.specs.Record.{PredictionInRange};
ghost use Rattle.block_record.specs.Packed.{unpacked};
ghost use Rattle.transform.specs.Residual.{residual};
ghost use Rattle.dc_prediction.specs.Planes.{predicted_dc};
ghost use Rattle.prediction.specs.Predicted.{summed};
ghost use Rattle.loop_filter.specs.Filter.{filtered};
ghost use Rattle.loop_filter.specs.Flags.{coded_by};
ghost use Rattle.ways.specs.Corner.{block_at};
ghost use Rattle.ways.specs.Ways.{filter_all, first_way};
ghost use Rattle.reconstruct.specs.Picture.{picture_of};
ghost use Rattle.reconstruct.specs.Lent.{blocks_in, matrix_in, Lent, ZerosBehind};

use geometry::Block;

// The 64 residuals of a block, from the coefficients that start at `at`.
#[unsafe(no_mangle)]
pub extern "C" fn parts_residual(
    coefs: &[i16],
    at: usize,
    dc: i16,
    last: u8,
    q: u16,
    matrix: &[u16],
    out: &mut [i16],
)
    requires { (at + 64 ≤ length coefs.now) × (length matrix.now ≡ 64) × (length out.old ≡ 64) }
    ensures { out.new ≡ residual coefs.now at dc last q matrix.now }
{
    transform::residual(coefs, at, dc, last, q, matrix, out);
}

// DC prediction over the planes of a frame.
#[unsafe(no_mangle)]
pub extern "C" fn parts_predict_dc(
    dc: &mut [i16],
    records: &[u32],
    across: usize,
    up: usize,
    chroma_across: usize,
    chroma_up: usize,
)
    requires { (up * across + chroma_up * chroma_across * 2 ≤ length dc.old) × (up * across + chroma_up * chroma_across * 2 ≤ length records.now) }
    ensures { dc.new ≡ predicted_dc (map unpacked records.now) across up chroma_across chroma_up dc.old }
{
    dc_prediction::predict_dc(dc, records, across, up, chroma_across, chroma_up);
}

// The samples of block (x, y) of a plane, predicted as its record says, with its 64 residuals.
#[unsafe(no_mangle)]
pub extern "C" fn parts_write_block(
    new: &mut [u8],
    golden: &[u8],
    previous: &[u8],
    residual: &[i16],
    pf: u64,
    w: u64,
    h: u64,
    plane: u64,
    x: u64,
    y: u64,
    packed: u32,
)
    requires { (w ≤ largest) × (h ≤ largest) × InFrame (format_of pf) w h (block plane x y) × PredictionInRange (unpacked packed).prediction × (length new.old ≡ 64 * blocks_of (format_of pf) w h)
        × (length golden.now ≡ 64 * blocks_of (format_of pf) w h) × (length previous.now ≡ 64 * blocks_of (format_of pf) w h) × (length residual.now ≡ 64) }
    ensures { new.new ≡ block_at (summed (format_of pf) w h golden.now previous.now residual.now (unpacked packed).prediction (block plane x y)) (sample_at (format_of pf) w h (block plane x y) 0 0) (8 * across (format_of pf) w plane) new.old }
{
    let format = headers::pixel_format(pf);
    let b = Block { plane, x, y };
    let r = block_record::unpack(packed);
    let p = r.prediction;
    prediction::write_block(new, golden, previous, residual, format, w, h, b, p);
}

// The frame `new`, filtered. A record says whether its block is coded.
#[unsafe(no_mangle)]
pub extern "C" fn parts_filter_frame(
    new: &mut [u8],
    records: &[u32],
    limit: u32,
    pf: u64,
    w: u64,
    h: u64,
)
    requires { (w ≤ largest) × (h ≤ largest) × (length new.old ≡ 64 * blocks_of (format_of pf) w h) × (length records.now ≡ blocks_of (format_of pf) w h) × (limit ≤ 127) }
    ensures { new.new ≡ filter_all (format_of pf) w h (coded_by (format_of pf) w h records.now) (filtered limit) new.old }
{
    let format = headers::pixel_format(pf);
    loop_filter::filter_frame(new, records, limit, format, w, h);
}

// The frame of the coded blocks that are lent. What held them is 0 everywhere at last.
#[unsafe(no_mangle)]
pub extern "C" fn parts_make_frame(
    new: &mut [u8],
    golden: &[u8],
    previous: &[u8],
    records: &mut [u32],
    coded: &mut [u64],
    count: usize,
    coefs: &mut [i16],
    dc: &mut [i16],
    lasts: &mut [u8],
    matrices: &[u16],
    limit: u32,
    pf: u64,
    w: u64,
    h: u64,
)
    requires { (w ≤ largest) × (h ≤ largest) × Lent (format_of pf) w h records.old coded.old count coefs.old lasts.old matrices.now × ZerosBehind coded.old count coefs.old lasts.old × (dc.old ≡ replicate (blocks_of (format_of pf) w h) (pos 0)) × (limit ≤ 127)
        × (length new.old ≡ 64 * blocks_of (format_of pf) w h) × (length golden.now ≡ 64 * blocks_of (format_of pf) w h) × (length previous.now ≡ 64 * blocks_of (format_of pf) w h) }
    ensures after { new.new ≡ first_way (format_of pf) w h (picture_of (format_of pf) w h (blocks_in records.old coded.old count coefs.old lasts.old) (matrix_in matrices.now) limit golden.now previous.now) previous.now }
    ensures records_after { (records.new ≡ replicate (length records.old) 0) × (coded.new ≡ replicate (length coded.old) 0) × (coefs.new ≡ replicate (length coefs.old) (pos 0))
        × (dc.new ≡ replicate (length dc.old) (pos 0)) × (lasts.new ≡ replicate (length lasts.old) 0) }
{
    let format = headers::pixel_format(pf);
    making::make_frame(
        new, golden, previous, records, coded, count, coefs, dc, lasts, matrices, limit, format, w,
        h,
    );
}

// Every byte of src, in its place.
#[unsafe(no_mangle)]
pub extern "C" fn parts_copy(dst: &mut [u8], src: &[u8])
    requires { length dst.old ≡ length src.now }
    ensures { dst.new ≡ src.now }
{
    buffer::copy(dst, src);
}
