// The names of the buffers that hold golden and previous: which of three is free, and the names after a packet.
#![tactic(auto)]

ghost use Rattle.std.specs.Prelude.{◌≡◌};
ghost use Rattle.buffer_names.specs.Names.{free, names_after, names_of, names_fit};

use frame_header::Kind;
use headers::Session;
use reading::{FrameAnswer, Verdict};

// The buffers of golden and previous, 0 to 2; 3 and 3 without references.
#[derive(Clone, Copy)]
pub struct Names {
    pub golden: u64,
    pub previous: u64,
}

// The names that a shot begins with: without references the caller's are ignored.
pub fn names_of(s: Session, names: Names) -> Names
    ensures { result ≡ names_of s names }
{
    if s.references {
        return names;
    }
    Names {
        golden: 3,
        previous: 3,
    }
}

// Whether the caller's names are names.
pub fn names_fit(s: Session, names: Names) -> bool
    ensures { result ≡ names_fit s names }
{
    if s.references {
        return (names.golden < 3) & (names.previous < 3);
    }
    true
}

// The first buffer that holds neither golden nor previous.
pub fn free_buffer(names: Names) -> u64
    ensures { result ≡ free names }
{
    let golden = names.golden;
    let previous = names.previous;
    if (golden != 0) & (previous != 0) {
        return 0;
    }
    if (golden != 1) & (previous != 1) {
        return 1;
    }
    2
}

// The names after a packet whose new frame is the buffer `new`.
fn names_after(names: Names, new: u64, verdict: Verdict, kind: Kind) -> Names
    ensures { result ≡ names_after names new verdict kind }
{
    match verdict {
        Verdict::Refused(_, _) => names,
        Verdict::Accepted(_) => match kind {
            Kind::Intra => Names {
                golden: new,
                previous: new,
            },
            Kind::Inter => Names {
                golden: names.golden,
                previous: new,
            },
            Kind::Repeat => Names {
                golden: names.golden,
                previous: new,
            },
        },
    }
}

// The names after a packet with this answer: its new frame is the free buffer.
pub fn after_packet(names: Names, answer: FrameAnswer) -> Names
    ensures { result ≡ names_after names (free names) answer.verdict answer.header.kind }
{
    let new = free_buffer(names);
    let verdict = answer.verdict;
    let header = answer.header;
    let kind = header.kind;
    names_after(names, new, verdict, kind)
}
