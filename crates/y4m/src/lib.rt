// Frames as a YUV4MPEG2 stream, and such a stream read back.
#![tactic(auto)]

mod frames;
mod header;

ghost use Rattle.std.specs.Prelude.{◌≡◌, true, length};
ghost use Rattle.output.specs.Output.{left_by, within, as_written};
ghost use Rattle.y4m.specs.Stream.{stream_text, frame_bytes, count_of, stream_for, header_for, frame_for};
ghost use Rattle.y4m.specs.Film.{numbers_fit, looked, film_in, as_film, planes_by};

use headers::Session;
use output::Written;
use stream_numbers::Numbers;

// What a reader found: the header's numbers, and how many frames.
#[derive(Clone, Copy)]
pub struct Film {
    pub numbers: Numbers,
    pub frames: u64,
}

#[derive(Clone, Copy)]
pub enum FilmAnswer {
    Is(Film),
    Refused(u32, usize),
}

// Writes the stream of a whole number of frames, if the output has room for it.
fn write_stream(n: Numbers, size: usize, frames: &[u8], out: &mut [u8]) -> Written
    requires { (numbers_fit n ≡ true) × (size ≡ frame_bytes n) }
    ensures value { result ≡ as_written (within (length out.old) (stream_text n frames.now (count_of n frames.now))) }
    ensures out_after { out.new ≡ left_by (within (length out.old) (stream_text n frames.now (count_of n frames.now))) out.old }
{
    let count = frames.len() / size;
    let mut line = [0u8; 110];
    let head = header::put_header(n, &mut line);
    if out.len() < head {
        return Written::Refused(bitstream::SHORT_OUTPUT, 0);
    }
    if (out.len() - head) / (6 + size) < count {
        return Written::Refused(bitstream::SHORT_OUTPUT, 0);
    }
    let begin = output::put(out, 0, &line[..head]);
    let end = frames::put_frames(n, size, frames, count, out, begin);
    Written::Bytes(end as u64)
}

// Writes the frames of a buffer as a stream.
pub fn write(s: Session, frames: &[u8], out: &mut [u8]) -> Written
    ensures value { result ≡ as_written (stream_for s frames.now (length out.old)) }
    ensures out_after { out.new ≡ left_by (stream_for s frames.now (length out.old)) out.old }
{
    if !headers::session_fits(s) {
        return Written::Refused(bitstream::NOT_GENUINE, 0);
    }
    let n = stream_numbers::numbers_of(s);
    let size = header::frame_bytes(n);
    if frames.len() % size != 0 {
        return Written::Refused(bitstream::WRONG_LENGTH, 0);
    }
    write_stream(n, size, frames, out)
}

// Writes the header of a session's stream.
pub fn write_header(s: Session, out: &mut [u8]) -> Written
    ensures value { result ≡ as_written (header_for s (length out.old)) }
    ensures out_after { out.new ≡ left_by (header_for s (length out.old)) out.old }
{
    if !headers::session_fits(s) {
        return Written::Refused(bitstream::NOT_GENUINE, 0);
    }
    let n = stream_numbers::numbers_of(s);
    let mut line = [0u8; 110];
    let head = header::put_header(n, &mut line);
    if out.len() < head {
        return Written::Refused(bitstream::SHORT_OUTPUT, 0);
    }
    let end = output::put(out, 0, &line[..head]);
    Written::Bytes(end as u64)
}

// Writes one frame of a session's stream.
pub fn write_frame(s: Session, planes: &[u8], out: &mut [u8]) -> Written
    ensures value { result ≡ as_written (frame_for s planes.now (length out.old)) }
    ensures out_after { out.new ≡ left_by (frame_for s planes.now (length out.old)) out.old }
{
    if !headers::session_fits(s) {
        return Written::Refused(bitstream::NOT_GENUINE, 0);
    }
    let n = stream_numbers::numbers_of(s);
    let size = header::frame_bytes(n);
    if planes.len() != size {
        return Written::Refused(bitstream::WRONG_LENGTH, 0);
    }
    if out.len() < 6 + size {
        return Written::Refused(bitstream::SHORT_OUTPUT, 0);
    }
    let end = frames::put_frame(n, planes, out, 0);
    Written::Bytes(end as u64)
}

// Where the frames of a stream begin, the bytes of one's planes, and how many there are.
#[derive(Clone, Copy)]
enum Looked {
    Frames(usize, usize, usize),
    Other,
}

// Whether this is a stream of these numbers.
fn look(n: Numbers, stream: &[u8]) -> Looked
    ensures { result ≡ looked n stream.now }
{
    let begin = header::header_end(n, stream);
    if begin == 0 {
        return Looked::Other;
    }
    let size = header::frame_bytes(n);
    let rest = stream.len() - begin;
    if rest % (6 + size) != 0 {
        return Looked::Other;
    }
    let count = rest / (6 + size);
    if !frame_marks::all_marked(stream, begin, size, count) {
        return Looked::Other;
    }
    Looked::Frames(begin, size, count)
}

// Reads a stream: its numbers, and the planes of its frames one after the other.
pub fn read(stream: &[u8], planes: &mut [u8]) -> FilmAnswer
    ensures value { result ≡ as_film (film_in stream.now (length planes.old)) }
    ensures planes_after { planes.new ≡ planes_by (film_in stream.now (length planes.old)) planes.old }
{
    let n = header::numbers_in(stream);
    match look(n, stream) {
        Looked::Other => FilmAnswer::Refused(bitstream::OTHER_STREAM, 0),
        Looked::Frames(begin, size, count) => {
            if planes.len() / size < count {
                return FilmAnswer::Refused(bitstream::SHORT_OUTPUT, 0);
            }
            frames::take_frames(n, size, stream, begin, count, planes);
            let film = Film {
                numbers: n,
                frames: count as u64,
            };
            FilmAnswer::Is(film)
        }
    }
}
