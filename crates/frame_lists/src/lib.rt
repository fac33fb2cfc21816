// What a frame's call for C returns and leaves in the lists of the session and of the answer.
#![tactic(auto)]

ghost use Rattle.std.specs.Prelude.{◌≡◌, length};
ghost use Rattle.session_list.specs.List.{answers};
ghost use Rattle.frame_lists.specs.FrameLists.{reference_number, verdict_returned};

use frame_header::Kind;
use reading::{FrameAnswer, Verdict};

// The reference number of a session after an accepted frame.
pub fn reference_number(kind: Kind, before: u64) -> u64
    ensures { result ≡ reference_number kind before }
{
    match kind {
        Kind::Intra => 1,
        Kind::Inter => before,
        Kind::Repeat => before,
    }
}

// What the answer of a frame returns, and what it leaves in the lists of the session and of the answer.
pub fn return_frame(answer: FrameAnswer, session: &mut [u64], list: &mut [u64]) -> u32
    requires { (length session.old ≡ 19) × (length list.old ≡ 8) }
    ensures { answers result session.new list.new ≡ verdict_returned session.old answer.header answer.session answer.verdict }
{
    let header = answer.header;
    let kind = header.kind;
    let next = answer.session;
    let verdict = answer.verdict;
    reading::store_answer(verdict, header, list);
    match verdict {
        Verdict::Accepted(_) => {
            let before = session[16];
            session[16] = reference_number(kind, before);
            session[17] = next.key_frames;
            session[18] = next.others;
            0
        }
        Verdict::Refused(k, _) => k,
    }
}
