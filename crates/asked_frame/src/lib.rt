// What is answered for a frame packet that was read, and what is left to do with it.
#![tactic(auto)]

ghost use Rattle.std.specs.Prelude.{true, ◌≡◌};
ghost use Rattle.bitstream.specs.Reading.{Outcome, after};
ghost use Rattle.headers.specs.Fits.{session_fits};
ghost use Rattle.setup.specs.Header.{Setup};
ghost use Rattle.frame_packet.specs.Frame.{Frame};
ghost use Rattle.frame_packet.specs.Work.{as_frame};
ghost use Rattle.reading.specs.Answer.{counted, answer_for};
ghost use Rattle.asked_frame.specs.Next.{next_of};

use frame_packet::{FrameRead, Read};
use headers::Session;
use reading::{FrameAnswer, Verdict};

// What is left to do: nothing after a refusal; what was read is cleared where the session's numbers would pass their bounds; else the frame of so many coded blocks is made.
#[derive(Clone, Copy)]
pub enum Next {
    Nothing,
    Clear,
    Make(usize),
}

// The answer for a packet, and what is left to do.
#[derive(Clone, Copy)]
pub struct Judged {
    pub answer: FrameAnswer,
    pub next: Next,
}

// A packet that was read: 17 comes "after all other checks".
pub fn judge(got: FrameRead, s: Session) -> Judged
    requires { session_fits s ≡ true }
    ensures answer_value { (setup : Setup) (o : Outcome Frame) → got ≡ as_frame o → result.answer ≡ answer_for s (after o (counted s setup)) }
    ensures next_value { result.next ≡ next_of s got }
{
    let read = got.read;
    match read {
        Read::Refused(k, e) => {
            let answer = reading::refusal(k, e, s);
            Judged {
                answer,
                next: Next::Nothing,
            }
        }
        Read::Whole(count, tokens, _) => {
            let header = got.header;
            let kind = header.kind;
            if !session_steps::stays_counted(kind, s) {
                let answer = reading::refusal(bitstream::UNCOUNTED, 0, s);
                return Judged {
                    answer,
                    next: Next::Clear,
                };
            }
            let session = session_steps::session_after(kind, s);
            let answer = FrameAnswer {
                verdict: Verdict::Accepted(tokens),
                header,
                session,
            };
            Judged {
                answer,
                next: Next::Make(count),
            }
        }
    }
}
