// The face of `rgb` for C and other languages: include/wedgepetal.h says what the call is for.
#![tactic(auto)]

ghost use Rattle.std.specs.Prelude.{◌≡◌, length};
ghost use Rattle.session_list.specs.List.{gives};
ghost use Rattle.rgb_c.specs.Face.{written_returned, rgb_call, rgb_left};

use output::Written;

// What an answer returns and leaves in a list of one number: how many bytes were written.
fn return_written(answer: Written, list: &mut [u64]) -> u32
    requires { length list.old ≡ 1 }
    ensures { gives result list.new ≡ written_returned list.old answer }
{
    match answer {
        Written::Bytes(n) => {
            list[0] = n;
            0
        }
        Written::Refused(k, _) => k,
    }
}

// A frame in red, green and blue: three bytes a pixel, the whole coded frame, top row first.
pub fn wedgepetal_rgb(session: &[u64], planes: &[u8], out: &mut [u8], written: &mut [u64]) -> u32
    ensures written_after { gives result written.new ≡ rgb_call session.now planes.now (length out.old) written.old }
    ensures out_after { out.new ≡ rgb_left session.now planes.now out.old (length written.old) }
{
    let k = session_list::lists_refusal(session, written.len(), 1);
    if k == 0 {
        return return_written(
            rgb::convert(session_list::session_of(session), planes, out),
            written,
        );
    }
    k
}
