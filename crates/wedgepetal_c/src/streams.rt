// Streams of frames and settings.
ghost use Rattle.std.specs.Prelude.{◌≡◌, length};
ghost use Rattle.output.specs.Output.{left_by, as_written};
ghost use Rattle.y4m.specs.Film.{film_in, as_film};
ghost use Rattle.settings.specs.Settings.{as_loaded, read};
ghost use Rattle.session_list.specs.List.{gives};
ghost use Rattle.settings_list.specs.List.{settings_of};
ghost use Rattle.scoring_c.specs.Face.{wrote_returned, stream_call, header_call, frame_call, planes_left, film_call, text_call, read_call};

// Writes frames as a stream.
#[unsafe(no_mangle)]
pub extern "C" fn wedgepetal_y4m_write(
    session: &[u64],
    frames: &[u8],
    out: &mut [u8],
    bytes: &mut [u64],
) -> u32
    ensures bytes_after { gives result bytes.new ≡ wrote_returned bytes.old (as_written (stream_call session.now frames.now (length out.old) (length bytes.old))) }
    ensures out_after { out.new ≡ left_by (stream_call session.now frames.now (length out.old) (length bytes.old)) out.old }
{
    scoring_c::wedgepetal_y4m_write(session, frames, out, bytes)
}

// Writes the header of a session's stream.
#[unsafe(no_mangle)]
pub extern "C" fn wedgepetal_y4m_header(session: &[u64], out: &mut [u8], bytes: &mut [u64]) -> u32
    ensures bytes_after { gives result bytes.new ≡ wrote_returned bytes.old (as_written (header_call session.now (length out.old) (length bytes.old))) }
    ensures out_after { out.new ≡ left_by (header_call session.now (length out.old) (length bytes.old)) out.old }
{
    scoring_c::wedgepetal_y4m_header(session, out, bytes)
}

// Writes one frame of a session's stream.
#[unsafe(no_mangle)]
pub extern "C" fn wedgepetal_y4m_frame(
    session: &[u64],
    planes: &[u8],
    out: &mut [u8],
    bytes: &mut [u64],
) -> u32
    ensures bytes_after { gives result bytes.new ≡ wrote_returned bytes.old (as_written (frame_call session.now planes.now (length out.old) (length bytes.old))) }
    ensures out_after { out.new ≡ left_by (frame_call session.now planes.now (length out.old) (length bytes.old)) out.old }
{
    scoring_c::wedgepetal_y4m_frame(session, planes, out, bytes)
}

// Reads a stream.
#[unsafe(no_mangle)]
pub extern "C" fn wedgepetal_y4m_read(stream: &[u8], planes: &mut [u8], film: &mut [u64]) -> u32
    ensures film_after { gives result film.new ≡ film_call film.old (as_film (film_in stream.now (length planes.old))) }
    ensures planes_after { planes.new ≡ planes_left (length film.old) (film_in stream.now (length planes.old)) planes.old }
{
    scoring_c::wedgepetal_y4m_read(stream, planes, film)
}

// Writes the text of settings.
#[unsafe(no_mangle)]
pub extern "C" fn wedgepetal_settings_write(
    version: u64,
    list: &[u64],
    out: &mut [u8],
    bytes: &mut [u64],
) -> u32
    ensures bytes_after { gives result bytes.new ≡ wrote_returned bytes.old (as_written (text_call version list.now (length out.old) (length bytes.old))) }
    ensures out_after { out.new ≡ left_by (text_call version list.now (length out.old) (length bytes.old)) out.old }
{
    scoring_c::wedgepetal_settings_write(version, list, out, bytes)
}

// Reads the text of settings into the list of those in use.
#[unsafe(no_mangle)]
pub extern "C" fn wedgepetal_settings_read(version: u64, text: &[u8], list: &mut [u64]) -> u32
    ensures { gives result list.new ≡ read_call list.old (as_loaded (settings_of list.old) (read version text.now)) }
{
    scoring_c::wedgepetal_settings_read(version, text, list)
}
