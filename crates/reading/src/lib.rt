// What a frame packet answers. No sample is needed for it.
#![tactic(auto)]

ghost use Rattle.std.specs.Prelude.{◌≡◌, length};
ghost use Rattle.bitstream.specs.Reading.{refused};
ghost use Rattle.reading.specs.declared.Verdict.TheVariants.{Accepted};
ghost use Rattle.reading.specs.Answer.{answer_for, kind_number, answer_numbers};

use frame_header::{Header, Kind};
use headers::Session;

// An accepted frame, with the number of its tokens; or the number of the refusal and its bit place.
#[derive(Clone, Copy)]
pub enum Verdict {
    Accepted(usize),
    Refused(u32, usize),
}

// A frame call's answer: beside a refusal the header is that of a repeat, and says nothing. The session is that for the next call.
#[derive(Clone, Copy)]
pub struct FrameAnswer {
    pub verdict: Verdict,
    pub header: Header,
    pub session: Session,
}

// A refusal by its number and its bit place: nothing else of the answer says anything, and the session stays.
pub fn refusal(k: u32, place: usize, s: Session) -> FrameAnswer
    ensures { result ≡ answer_for s (refused k place) }
{
    FrameAnswer {
        verdict: Verdict::Refused(k, place),
        header: Header {
            kind: Kind::Repeat,
            qis: [0, 0, 0],
            count: 0,
        },
        session: s,
    }
}

// ---- an answer as numbers

fn kind_number(kind: Kind) -> u64
    ensures { result ≡ kind_number kind }
{
    match kind {
        Kind::Intra => 0,
        Kind::Inter => 1,
        Kind::Repeat => 2,
    }
}

fn store_header(h: Header, tokens: usize, list: &mut [u64])
    requires { length list.old ≡ 8 }
    ensures { list.new ≡ answer_numbers (Accepted tokens) h }
{
    let kind = h.kind;
    let qis = h.qis;
    let number = kind_number(kind);
    let count = h.count as u64;
    let first = qis[0] as u64;
    let second = qis[1] as u64;
    let third = qis[2] as u64;
    let numbers = [0, 0, number, count, first, second, third, tokens as u64];
    buffer::copy_longs(list, &numbers);
}

// Stores the numbers of a frame's answer.
pub fn store_answer(verdict: Verdict, header: Header, list: &mut [u64])
    requires { length list.old ≡ 8 }
    ensures { list.new ≡ answer_numbers verdict header }
{
    match verdict {
        Verdict::Accepted(tokens) => store_header(header, tokens, list),
        Verdict::Refused(k, place) => {
            let number = k as u64;
            let bit = place as u64;
            let numbers = [number, bit, 0, 0, 0, 0, 0, 0];
            buffer::copy_longs(list, &numbers);
        }
    }
}
