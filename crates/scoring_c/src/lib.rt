// The scoring product's face for C and other languages: numbers, lists of numbers and bytes alone.
#![tactic(auto)]

ghost use Rattle.std.specs.Prelude.{◌≡◌, [], ◌∷◌, length};
ghost use Rattle.output.specs.Output.{left_by, as_written};
ghost use Rattle.y4m.specs.Film.{film_in, as_film};
ghost use Rattle.settings.specs.Settings.{as_loaded, read};
ghost use Rattle.session_list.specs.List.{gives};
ghost use Rattle.settings_list.specs.List.{settings_of};
ghost use Rattle.scoring_c.specs.Face.{wrote_returned, film_returned, loaded_returned, stream_call, header_call, frame_call, planes_left, film_call, text_call, read_call};

use output::Written;
use settings::{Loaded, Settings, Verdict};
use y4m::FilmAnswer;

// Tells how many bytes were written.
fn tell(answer: Written, list: &mut [u64]) -> u32
    requires { length list.old ≡ 1 }
    ensures { gives result list.new ≡ wrote_returned list.old answer }
{
    match answer {
        Written::Bytes(n) => {
            list[0] = n;
            0
        }
        Written::Refused(k, _) => k,
    }
}

// Tells what a stream holds.
fn tell_film(answer: FilmAnswer, list: &mut [u64]) -> u32
    requires { length list.old ≡ 8 }
    ensures { gives result list.new ≡ film_returned list.old answer }
{
    match answer {
        FilmAnswer::Is(film) => {
            let n = film.numbers;
            let numbers = [
                n.width,
                n.height,
                n.frn,
                n.frd,
                n.parn,
                n.pard,
                n.pf,
                film.frames,
            ];
            buffer::copy_longs(list, &numbers);
            0
        }
        FilmAnswer::Refused(k, _) => k,
    }
}

// Tells the settings of an accepted text.
fn tell_settings(answer: Loaded, list: &mut [u64]) -> u32
    requires { length list.old ≡ 4 }
    ensures { gives result list.new ≡ loaded_returned list.old answer }
{
    let verdict = answer.verdict;
    let s = answer.settings;
    match verdict {
        Verdict::Accepted => {
            let numbers = [s.tile, s.shot_first, s.shot_last, s.plane];
            buffer::copy_longs(list, &numbers);
            0
        }
        Verdict::Refused(k, _) => k,
    }
}

// Writes frames as a stream.
pub fn wedgepetal_y4m_write(
    session: &[u64],
    frames: &[u8],
    out: &mut [u8],
    bytes: &mut [u64],
) -> u32
    ensures bytes_after { gives result bytes.new ≡ wrote_returned bytes.old (as_written (stream_call session.now frames.now (length out.old) (length bytes.old))) }
    ensures out_after { out.new ≡ left_by (stream_call session.now frames.now (length out.old) (length bytes.old)) out.old }
{
    let refusal = session_list::lists_refusal(session, bytes.len(), 1);
    if refusal != 0 {
        return refusal;
    }
    let s = session_list::session_of(session);
    tell(y4m::write(s, frames, out), bytes)
}

// Writes the header of a session's stream.
pub fn wedgepetal_y4m_header(session: &[u64], out: &mut [u8], bytes: &mut [u64]) -> u32
    ensures bytes_after { gives result bytes.new ≡ wrote_returned bytes.old (as_written (header_call session.now (length out.old) (length bytes.old))) }
    ensures out_after { out.new ≡ left_by (header_call session.now (length out.old) (length bytes.old)) out.old }
{
    let refusal = session_list::lists_refusal(session, bytes.len(), 1);
    if refusal != 0 {
        return refusal;
    }
    let s = session_list::session_of(session);
    tell(y4m::write_header(s, out), bytes)
}

// Writes one frame of a session's stream.
pub fn wedgepetal_y4m_frame(
    session: &[u64],
    planes: &[u8],
    out: &mut [u8],
    bytes: &mut [u64],
) -> u32
    ensures bytes_after { gives result bytes.new ≡ wrote_returned bytes.old (as_written (frame_call session.now planes.now (length out.old) (length bytes.old))) }
    ensures out_after { out.new ≡ left_by (frame_call session.now planes.now (length out.old) (length bytes.old)) out.old }
{
    let refusal = session_list::lists_refusal(session, bytes.len(), 1);
    if refusal != 0 {
        return refusal;
    }
    let s = session_list::session_of(session);
    tell(y4m::write_frame(s, planes, out), bytes)
}

// Reads a stream.
pub fn wedgepetal_y4m_read(stream: &[u8], planes: &mut [u8], film: &mut [u64]) -> u32
    ensures film_after { gives result film.new ≡ film_call film.old (as_film (film_in stream.now (length planes.old))) }
    ensures planes_after { planes.new ≡ planes_left (length film.old) (film_in stream.now (length planes.old)) planes.old }
{
    if film.len() != 8 {
        return bitstream::WRONG_LENGTH;
    }
    tell_film(y4m::read(stream, planes), film)
}

// Writes the text of settings.
pub fn wedgepetal_settings_write(
    version: u64,
    list: &[u64],
    out: &mut [u8],
    bytes: &mut [u64],
) -> u32
    ensures bytes_after { gives result bytes.new ≡ wrote_returned bytes.old (as_written (text_call version list.now (length out.old) (length bytes.old))) }
    ensures out_after { out.new ≡ left_by (text_call version list.now (length out.old) (length bytes.old)) out.old }
{
    if list.len() != 4 {
        return bitstream::WRONG_LENGTH;
    }
    if bytes.len() != 1 {
        return bitstream::WRONG_LENGTH;
    }
    let s = settings_list::settings_of(list);
    tell(settings::write(version, s, out), bytes)
}

// Reads the text of settings into the list of those in use.
pub fn wedgepetal_settings_read(version: u64, text: &[u8], list: &mut [u64]) -> u32
    ensures { gives result list.new ≡ read_call list.old (as_loaded (settings_of list.old) (read version text.now)) }
{
    if list.len() != 4 {
        return bitstream::WRONG_LENGTH;
    }
    let s = settings_list::settings_of(list);
    tell_settings(settings::read(version, text, s), list)
}
