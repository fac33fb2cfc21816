// Frames of a stream: plane buffers with the rows of each plane turned over.
ghost use Rattle.std.specs.Prelude.{◌≡◌, true, ◌+◌, ◌*◌, ◌≤◌, length, drop};
ghost use Rattle.geometry.specs.Sizes.{blocks_of, largest};
ghost use Rattle.output.specs.Output.{spliced};
ghost use Rattle.y4m.specs.Stream.{frame_bytes, frame_rows, rows_of, frame_text, frames_text};
ghost use Rattle.y4m.specs.Film.{numbers_fit, step, planes_of};

use geometry::PixelFormat;
use stream_numbers::Numbers;

// The three planes of src, the rows of each turned over.
fn turn_planes(format: PixelFormat, w: u64, h: u64, src: &[u8], dst: &mut [u8])
    requires { (w ≤ largest) × (h ≤ largest) × (length src.now ≡ 64 * blocks_of format w h) × (length dst.old ≡ 64 * blocks_of format w h) }
    ensures { dst.new ≡ frame_rows format w h src.now }
{
    let mut p: u64 = 0;
    while p < 3 {
        let plane = geometry::plane_of(format, w, h, p);
        let begin = plane.offset as usize;
        let end = (plane.offset + plane.length) as usize;
        let row = (8 * plane.across) as usize;
        let rows = (8 * plane.up) as usize;
        rows::turn_rows(&src[begin..end], row, rows, &mut dst[begin..end]);
        p += 1;
    }
}

// A frame's planes with the rows of each turned over: as a stream has them, and back.
fn turn_frame(n: Numbers, src: &[u8], dst: &mut [u8])
    requires { (numbers_fit n ≡ true) × (length src.now ≡ frame_bytes n) × (length dst.old ≡ frame_bytes n) }
    ensures { dst.new ≡ rows_of n src.now }
{
    let format = headers::pixel_format(n.pf);
    turn_planes(format, n.width / 16, n.height / 16, src, dst);
}

// Writes a frame from place `at` on; the place behind it.
pub fn put_frame(n: Numbers, planes: &[u8], out: &mut [u8], at: usize) -> usize
    requires { (numbers_fit n ≡ true) × (length planes.now ≡ frame_bytes n) × (at + step n ≤ length out.old) }
    ensures value { result ≡ at + step n }
    ensures out_after { out.new ≡ spliced at (frame_text n planes.now) out.old }
{
    let begin = output::put(out, at, b"FRAME\n");
    let end = begin + planes.len();
    turn_frame(n, planes, &mut out[begin..end]);
    end
}

// Writes the frames of a buffer from place `at` on; the place behind them.
pub fn put_frames(
    n: Numbers,
    size: usize,
    frames: &[u8],
    count: usize,
    out: &mut [u8],
    at: usize,
) -> usize
    requires { (numbers_fit n ≡ true) × (size ≡ frame_bytes n) × (count * frame_bytes n ≤ length frames.now) × (at + count * step n ≤ length out.old) }
    ensures value { result ≡ at + count * step n }
    ensures out_after { out.new ≡ spliced at (frames_text n frames.now count) out.old }
{
    let mut place = at;
    let mut from: usize = 0;
    let mut k: usize = 0;
    while k < count {
        let end = from + size;
        place = put_frame(n, &frames[from..end], out, place);
        from = end;
        k += 1;
    }
    place
}

// The planes of the frames behind place `at`, one frame after the other.
pub fn take_frames(
    n: Numbers,
    size: usize,
    stream: &[u8],
    at: usize,
    count: usize,
    planes: &mut [u8],
)
    requires { (numbers_fit n ≡ true) × (size ≡ frame_bytes n) × (at + count * step n ≤ length stream.now) × (count * frame_bytes n ≤ length planes.old) }
    ensures { planes.new ≡ spliced 0 (planes_of n (drop at stream.now) count) planes.old }
{
    let mut place = at;
    let mut to: usize = 0;
    let mut k: usize = 0;
    while k < count {
        let begin = place + 6;
        let end = begin + size;
        let next = to + size;
        turn_frame(n, &stream[begin..end], &mut planes[to..next]);
        place = end;
        to = next;
        k += 1;
    }
}
