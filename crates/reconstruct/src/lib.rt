// The frame of the coded blocks that a packet asks for, made in the second way: previous whole, the coded blocks over it, then the loop filter.
#![tactic(auto)]

ghost use Rattle.std.specs.Prelude.{◌≡◌, map, ◌+◌, ◌*◌, ◌≤◌, ◌<◌, pos, length, get_or, take, replicate};
ghost use Rattle.geometry.specs.Sizes.{across, up, blocks_of, largest};
ghost use Rattle.block_record.specs.Record.{InRange};
ghost use Rattle.block_record.specs.Packed.{unpacked};
ghost use Rattle.transform.specs.Residual.{residual};
ghost use Rattle.dc_prediction.specs.Planes.{predicted_dc};
ghost use Rattle.prediction.specs.Predicted.{summed};
ghost use Rattle.ways.specs.Loops.{over};
ghost use Rattle.block_walk.specs.Band.{InBand};
ghost use Rattle.geometry.specs.Raster.{block_no};
ghost use Rattle.ways.specs.Ways.{first_way};
ghost use Rattle.reconstruct.specs.Picture.{gathered, type_of, block_residual, dc_of, sample_of, picture_of};
ghost use Rattle.reconstruct.specs.Lent.{blocks_in, matrix_place, matrix_in, Below, Lent, put_block};

use block_record::Prediction;
use block_walk::Band;
use geometry::PixelFormat;

// The first coefficient of each coded block, put in its place.
fn gather_dc(dc: &mut [i16], coded: &[u64], count: usize, coefs: &[i16])
    requires { (count ≤ length coded.now) × (count * 64 ≤ length coefs.now) × Below (take count coded.now) (length dc.old) }
    ensures { dc.new ≡ gathered (take count coded.now) coefs.now dc.old }
{
    let mut k: usize = 0;
    while k < count {
        let n = coded[k] as usize;
        let v = coefs[k * 64];
        dc[n] = v;
        k += 1;
    }
}

// DC prediction over the planes of a frame.
fn predict_frame_dc(dc: &mut [i16], records: &[u32], format: PixelFormat, w: u64, h: u64)
    requires { (w ≤ largest) × (h ≤ largest) × (length dc.old ≡ blocks_of format w h) × (length records.now ≡ blocks_of format w h) }
    ensures { dc.new ≡ predicted_dc (map unpacked records.now) (across format w 0) (up format h 0) (across format w 1) (up format h 1) dc.old }
{
    let luma = geometry::plane_of(format, w, h, 0);
    let chroma = geometry::plane_of(format, w, h, 1);
    dc_prediction::predict_dc(
        dc,
        records,
        luma.across as usize,
        luma.up as usize,
        chroma.across as usize,
        chroma.up as usize,
    );
}

// Where the matrix of a block's type and plane stands, for one of the frame's qi.
fn matrix_at(p: Prediction, plane: u64, index: u32) -> usize
    requires { (plane < 3) × (index ≤ 2) }
    ensures { (result ≡ matrix_place (type_of p) plane index) × (result ≤ 1088) }
{
    let at = (plane * 3) as usize + index as usize;
    match p {
        Prediction::None => at * 64,
        Prediction::Previous(_) => (9 + at) * 64,
        Prediction::Golden(_) => (9 + at) * 64,
    }
}

// The residuals of the block of rank k.
fn residual_of(
    coefs: &[i16],
    k: usize,
    dc: i16,
    last: u8,
    matrices: &[u16],
    p: Prediction,
    plane: u64,
    index: u32,
    out: &mut [i16],
)
    requires { ((k + 1) * 64 ≤ length coefs.now) × (length matrices.now ≡ 1152) × (plane < 3) × (index ≤ 2) × (length out.old ≡ 64) }
    ensures { out.new ≡ residual coefs.now (k * 64) dc last (get_or (matrix_in matrices.now (type_of p) plane 0) 0 0) (matrix_in matrices.now (type_of p) plane index) }
{
    let first = matrix_at(p, plane, 0);
    let at = matrix_at(p, plane, index);
    let q = matrices[first];
    let end = at + 64;
    transform::residual(coefs, k * 64, dc, last, q, &matrices[at..end], out);
}

// The coded block with raster number n and rank k, which stands in the band.
fn write_coded(
    new: &mut [u8],
    golden: &[u8],
    previous: &[u8],
    coefs: &[i16],
    matrices: &[u16],
    format: PixelFormat,
    w: u64,
    h: u64,
    band: Band,
    n: u64,
    k: usize,
    packed: u32,
    dc: i16,
    last: u8,
)
    requires { (w ≤ largest) × (h ≤ largest) × (n < blocks_of format w h) × InBand format w h band n × InRange (unpacked packed) × ((k + 1) * 64 ≤ length coefs.now) × (length matrices.now ≡ 1152)
        × (length new.old ≡ 64 * blocks_of format w h) × (length golden.now ≡ 64 * blocks_of format w h) × (length previous.now ≡ 64 * blocks_of format w h) }
    ensures { new.new ≡ put_block format w h (λ b. summed format w h golden.now previous.now (block_residual (matrix_in matrices.now) coefs.now k dc last (unpacked packed) b.plane) (unpacked packed).prediction b) (block_no format w h n) new.old }
{
    let b = block_walk::block_in(format, w, h, band, n);
    let r = block_record::unpack(packed);
    let p = r.prediction;
    let mut residual = [0i16; 64];
    residual_of(
        coefs,
        k,
        dc,
        last,
        matrices,
        p,
        b.plane,
        r.qi_index,
        &mut residual,
    );
    prediction::write_block(new, golden, previous, &residual, format, w, h, b, p);
}

// The coded blocks, in coded order.
fn write_blocks(
    new: &mut [u8],
    golden: &[u8],
    previous: &[u8],
    records: &[u32],
    coded: &[u64],
    count: usize,
    coefs: &[i16],
    dc: &[i16],
    lasts: &[u8],
    matrices: &[u16],
    format: PixelFormat,
    w: u64,
    h: u64,
)
    requires { (w ≤ largest) × (h ≤ largest) × Lent format w h records.now coded.now count coefs.now lasts.now matrices.now × (dc.now ≡ dc_of format w h (blocks_in records.now coded.now count coefs.now lasts.now))
        × (length dc.now ≡ blocks_of format w h) × (length new.old ≡ 64 * blocks_of format w h) × (length golden.now ≡ 64 * blocks_of format w h) × (length previous.now ≡ 64 * blocks_of format w h) }
    ensures { new.new ≡ over (map (block_no format w h) (take count coded.now)) (put_block format w h (sample_of format w h (blocks_in records.now coded.now count coefs.now lasts.now) (matrix_in matrices.now) golden.now previous.now)) new.old }
{
    let mut band = Band {
        plane: 0,
        y: 0,
        first: 0,
        end: 0,
    };
    let mut k: usize = 0;
    while k < count {
        let n = coded[k];
        let i = n as usize;
        let packed = records[i];
        let value = dc[i];
        let last = lasts[k];
        band = block_walk::band_with(format, w, h, band, n);
        write_coded(
            new, golden, previous, coefs, matrices, format, w, h, band, n, k, packed, value, last,
        );
        k += 1;
    }
}

// The frame of the coded blocks that are lent. `dc` is 0 everywhere at first, and holds each coded block's DC at last.
pub fn reconstruct(
    new: &mut [u8],
    golden: &[u8],
    previous: &[u8],
    records: &[u32],
    coded: &[u64],
    count: usize,
    coefs: &[i16],
    dc: &mut [i16],
    lasts: &[u8],
    matrices: &[u16],
    limit: u32,
    format: PixelFormat,
    w: u64,
    h: u64,
)
    requires { (w ≤ largest) × (h ≤ largest) × Lent format w h records.now coded.now count coefs.now lasts.now matrices.now × (dc.old ≡ replicate (blocks_of format w h) (pos 0)) × (limit ≤ 127)
        × (length new.old ≡ 64 * blocks_of format w h) × (length golden.now ≡ 64 * blocks_of format w h) × (length previous.now ≡ 64 * blocks_of format w h) }
    ensures after { new.new ≡ first_way format w h (picture_of format w h (blocks_in records.now coded.now count coefs.now lasts.now) (matrix_in matrices.now) limit golden.now previous.now) previous.now }
    ensures dc_after { dc.new ≡ dc_of format w h (blocks_in records.now coded.now count coefs.now lasts.now) }
{
    buffer::copy(new, previous);
    gather_dc(dc, coded, count, coefs);
    predict_frame_dc(dc, records, format, w, h);
    write_blocks(
        new, golden, previous, records, coded, count, coefs, dc, lasts, matrices, format, w, h,
    );
    loop_filter::filter_frame(new, records, limit, format, w, h);
}
