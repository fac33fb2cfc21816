// A file that is compared while packets are applied: what one packet more shows, its refusal or its frame.
#![tactic(auto)]

ghost use Rattle.std.specs.Prelude.{◌≡◌, true, ◌≤◌, length};
ghost use Rattle.headers.specs.Fits.{session_fits};
ghost use Rattle.stream_numbers.specs.Numbers.{numbers_of};
ghost use Rattle.y4m.specs.Stream.{frame_bytes};
ghost use Rattle.watching.specs.Watch.{watched};

use headers::Session;
use reading::Verdict;
use stream_check::Compared;

// How far the file was compared, and the first refusal among the packets, if there is one.
#[derive(Clone, Copy)]
pub struct Watched {
    pub compared: Compared,
    pub refused: bool,
    pub number: u32,
    pub bit: usize,
}

// One packet more: its refusal, if it is the first, or its frame compared. Behind a refusal nothing is looked at.
pub fn watch(w: Watched, s: Session, verdict: Verdict, frame: &[u8], file: &[u8]) -> Watched
    requires { (session_fits s ≡ true) × (length frame.now ≡ frame_bytes (numbers_of s)) × (w.compared.place ≤ length file.now) }
    ensures { (result ≡ watched (numbers_of s) file.now w verdict frame.now) × (result.compared.place ≤ length file.now) }
{
    if w.refused {
        return w;
    }
    let reached = w.compared;
    match verdict {
        Verdict::Refused(k, e) => Watched {
            compared: reached,
            refused: true,
            number: k,
            bit: e,
        },
        Verdict::Accepted(_) => {
            let compared = stream_check::compare_frame(reached, s, frame, file);
            Watched {
                compared,
                refused: false,
                number: 0,
                bit: 0,
            }
        }
    }
}
