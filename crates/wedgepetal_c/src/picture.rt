// RGB.
ghost use Rattle.std.specs.Prelude.{◌≡◌, length};
ghost use Rattle.session_list.specs.List.{gives};
ghost use Rattle.rgb_c.specs.Face.{rgb_call, rgb_left};

// A frame in red, green and blue: three bytes a pixel, the whole coded frame, top row first.
#[unsafe(no_mangle)]
pub extern "C" fn wedgepetal_rgb(
    session: &[u64],
    planes: &[u8],
    out: &mut [u8],
    written: &mut [u64],
) -> u32
    ensures written_after { gives result written.new ≡ rgb_call session.now planes.now (length out.old) written.old }
    ensures out_after { out.new ≡ rgb_left session.now planes.now out.old (length written.old) }
{
    rgb_c::wedgepetal_rgb(session, planes, out, written)
}
