// A frame packet, read to its end and counted: what a frame call would answer, and what a census adds. No sample is made. Work memory is all zero before and after.
#![tactic(auto)]

ghost use Rattle.std.specs.Prelude.{◌≡◌, true, ◌≤◌, length};
ghost use Rattle.bitstream.specs.Bits.{longest};
ghost use Rattle.bitstream.specs.Reading.{choose, refused};
ghost use Rattle.bitstream.specs.Numbers.{uncounted};
ghost use Rattle.headers.specs.Fits.{session_fits};
ghost use Rattle.setup.specs.Header.{Setup};
ghost use Rattle.tokens.specs.Answer.{Tables, trees_of};
ghost use Rattle.work_memory.specs.Memory.{work};
ghost use Rattle.work_memory.specs.Lengths.{lengths_of, cleared};
ghost use Rattle.reading.specs.Answer.{read_by, stays_counted};
ghost use Rattle.tally.specs.Counted.{counted_by, accepted};

use counting::Counts;
use frame_header::Header;
use frame_packet::Read;
use headers::Session;
use reading::{FrameAnswer, Verdict};

// A frame call's answer, and what is counted: nothing beside a refusal.
#[derive(Clone, Copy)]
pub struct Counted {
    pub answer: FrameAnswer,
    pub counts: Counts,
}

// The answer for a packet that was read to its end: 17 comes "after all other checks".
fn answer(s: Session, header: Header, tokens: usize, counts: Counts) -> Counted
    requires { session_fits s ≡ true }
    ensures { result ≡ choose (stays_counted header.kind s) (accepted s header tokens counts) (counted_by s (refused uncounted 0)) }
{
    let kind = header.kind;
    if !session_steps::stays_counted(kind, s) {
        return Counted {
            answer: reading::refusal(bitstream::UNCOUNTED, 0, s),
            counts: counting::no_counts(),
        };
    }
    let next = session_steps::session_after(kind, s);
    Counted {
        answer: FrameAnswer {
            verdict: Verdict::Accepted(tokens),
            header: header,
            session: next,
        },
        counts,
    }
}

// A packet, by the nodes of a setup's trees.
pub fn count_packet(
    s: Session,
    packet: &[u8],
    nodes: &[u8],
    records: &mut [u32],
    coded: &mut [u64],
    coefs: &mut [i16],
    lasts: &mut [u8],
    flags: &mut [u8],
    bits: &mut [u8],
    supers: &mut [u8],
    modes: &mut [u8],
    active: &mut [u64],
) -> Counted
    requires { (session_fits s ≡ true) × (length packet.now ≤ longest) × Tables nodes.now × (work records.old coded.old coefs.old lasts.old flags.old bits.old supers.old modes.old active.old ≡ (cleared (lengths_of s)).work) }
    ensures value { (setup : Setup) → trees_of nodes.now ≡ setup.trees → result ≡ counted_by s (read_by s setup packet.now) }
    ensures active_after { work records.new coded.new coefs.new lasts.new flags.new bits.new supers.new modes.new active.new ≡ (cleared (lengths_of s)).work }
{
    let format = headers::pixel_format(s.fields.pf);
    let w = s.fields.fmbw;
    let h = s.fields.fmbh;
    let got = frame_packet::read_kept(
        packet,
        s.references,
        nodes,
        format,
        w,
        h,
        records,
        coded,
        coefs,
        lasts,
        flags,
        bits,
        supers,
        modes,
        active,
    );
    let read = got.read;
    match read {
        Read::Refused(k, e) => Counted {
            answer: reading::refusal(k, e, s),
            counts: counting::no_counts(),
        },
        Read::Whole(count, tokens, _) => {
            let header = got.header;
            let kind = header.kind;
            let counts = counting::count_frame(kind, format, w, h, &coded[..count], modes);
            work_memory::clear_kept(count, records, coded, coefs, lasts, modes);
            answer(s, header, tokens, counts)
        }
    }
}
