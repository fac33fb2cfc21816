// A file compared with the stream that it must be, from a running place on: nothing is copied.
#![tactic(auto)]

ghost use Rattle.std.specs.Prelude.{◌≡◌, true, ◌+◌, ◌*◌, ◌≤◌, min, leb, length};
ghost use Rattle.geometry.specs.Sizes.{blocks_of, largest};
ghost use Rattle.headers.specs.Fits.{session_fits};
ghost use Rattle.rows.specs.Rows.{turned};
ghost use Rattle.stream_numbers.specs.Numbers.{numbers_of};
ghost use Rattle.y4m.specs.Stream.{frame_bytes, frame_rows, frame_text, header_text};
ghost use Rattle.stream_check.specs.Compared.{difference, onward, beginning};

use geometry::PixelFormat;
use headers::Session;
use output::Written;

// The place that was reached in the file, and whether a difference was found there. The place never goes behind the file's end.
#[derive(Clone, Copy)]
pub struct Compared {
    pub place: usize,
    pub differs: bool,
}

// Whether the first n bytes are the same. The loop looks at all of them, so that the compiler takes sixteen at a time.
fn alike(want: &[u8], file: &[u8], n: usize) -> bool
    requires { (n ≤ length want.now) × (n ≤ length file.now) }
    ensures { result ≡ leb n (difference want.now file.now) }
{
    let mut same = true;
    let mut i: usize = 0;
    while i < n {
        same = same & (want[i] == file[i]);
        i += 1;
    }
    same
}

fn lesser(a: usize, b: usize) -> usize
    ensures { result ≡ min a b }
{
    if a < b {
        return a;
    }
    b
}

// The first place at which two texts differ, or the shorter length.
fn difference(want: &[u8], file: &[u8]) -> usize
    ensures { result ≡ difference want.now file.now }
{
    let n = lesser(want.len(), file.len());
    if alike(want, file, n) {
        return n;
    }
    let mut i: usize = 0;
    while i < n {
        if want[i] != file[i] {
            return i;
        }
        i += 1;
    }
    n
}

// The file compared with some wanted bytes more, from the place that was reached on.
fn compare(c: Compared, want: &[u8], file: &[u8]) -> Compared
    requires { c.place ≤ length file.now }
    ensures { (result ≡ onward c want.now file.now) × (result.place ≤ length file.now) }
{
    if c.differs {
        return c;
    }
    let at = c.place;
    let end = file.len();
    let n = difference(want, &file[at..end]);
    let next = at + n;
    Compared {
        place: next,
        differs: n < want.len(),
    }
}

// The rows of a plane, the last one first.
fn compare_rows(c: Compared, src: &[u8], row: usize, rows: usize, file: &[u8]) -> Compared
    requires { (length src.now ≡ rows * row) × (c.place ≤ length file.now) }
    ensures { (result ≡ onward c (turned row rows src.now) file.now) × (result.place ≤ length file.now) }
{
    let mut compared = c;
    let mut from = src.len();
    while from > 0 {
        let begin = from - row;
        compared = compare(compared, &src[begin..from], file);
        from = begin;
    }
    compared
}

// The three planes of a frame, each from its top row on.
fn compare_planes(
    c: Compared,
    format: PixelFormat,
    w: u64,
    h: u64,
    planes: &[u8],
    file: &[u8],
) -> Compared
    requires { (w ≤ largest) × (h ≤ largest) × (length planes.now ≡ 64 * blocks_of format w h) × (c.place ≤ length file.now) }
    ensures { (result ≡ onward c (frame_rows format w h planes.now) file.now) × (result.place ≤ length file.now) }
{
    let mut compared = c;
    let mut p: u64 = 0;
    while p < 3 {
        let plane = geometry::plane_of(format, w, h, p);
        let begin = plane.offset as usize;
        let end = (plane.offset + plane.length) as usize;
        let row = (8 * plane.across) as usize;
        let rows = (8 * plane.up) as usize;
        compared = compare_rows(compared, &planes[begin..end], row, rows, file);
        p += 1;
    }
    compared
}

// A frame of a session's stream: its line and its planes.
pub fn compare_frame(c: Compared, s: Session, planes: &[u8], file: &[u8]) -> Compared
    requires { (session_fits s ≡ true) × (length planes.now ≡ frame_bytes (numbers_of s)) × (c.place ≤ length file.now) }
    ensures { (result ≡ onward c (frame_text (numbers_of s) planes.now) file.now) × (result.place ≤ length file.now) }
{
    let marked = compare(c, b"FRAME\n", file);
    let f = s.fields;
    let format = headers::pixel_format(f.pf);
    compare_planes(marked, format, f.fmbw, f.fmbh, planes, file)
}

// The header of a session's stream, at the file's front.
pub fn compare_header(s: Session, file: &[u8]) -> Compared
    requires { session_fits s ≡ true }
    ensures { (result ≡ onward beginning (header_text (numbers_of s)) file.now) × (result.place ≤ length file.now) }
{
    let mut line = [0u8; 110];
    let written = y4m::write_header(s, &mut line);
    let c = Compared {
        place: 0,
        differs: false,
    };
    match written {
        Written::Bytes(n) => {
            let end = n as usize;
            compare(c, &line[..end], file)
        }
        Written::Refused(_, _) => c,
    }
}
