// The public face of the decoder: the two headers, the sizes, and the frame call. No call asks anything of what is handed in.
#![tactic(auto)]

ghost use Rattle.std.specs.Prelude.{◌≡◌, length};
ghost use Rattle.headers.specs.Identification.{identification, as_identification};
ghost use Rattle.headers.specs.Sizes.{session_sizes};
ghost use Rattle.setup.specs.Table.{setup_outcome, as_setup_answer, table_after};
ghost use Rattle.work_memory.specs.Memory.{memory};
ghost use Rattle.asked_frame.specs.Answer.{state, done};
ghost use Rattle.calls.specs.Call.{call, FramePromise};
ghost use Rattle.theora.specs.Lengths.{work_lengths};

use calls::Room;
use headers::{IdentificationAnswer, Session, SizesAnswer};
use reading::FrameAnswer;
use setup::SetupAnswer;
use work_memory::WorkLengths;

// The published lengths of work memory, or number 8.
#[derive(Clone, Copy)]
pub enum WorkAnswer {
    Is(WorkLengths),
    Refused(u32),
}

// An identification packet: the fresh session, or the number of the refusal and its bit place.
pub fn identification(packet: &[u8]) -> IdentificationAnswer
    ensures { result ≡ as_identification (identification packet.now 0) }
{
    headers::identification(packet)
}

// A setup packet: what it says is kept in table memory.
pub fn setup(packet: &[u8], table: &mut [u8]) -> SetupAnswer
    ensures value { result ≡ as_setup_answer (setup_outcome (length table.old) packet.now) }
    ensures table_after { table.new ≡ table_after table.old packet.now }
{
    setup::setup(packet, table)
}

// The sizes of a session's frames.
pub fn sizes(s: Session) -> SizesAnswer
    ensures { result ≡ session_sizes s }
{
    headers::sizes(s)
}

// The lengths of work memory for a session's frames.
pub fn work_lengths(s: Session) -> WorkAnswer
    ensures { result ≡ work_lengths s }
{
    if headers::session_fits(s) {
        return WorkAnswer::Is(work_memory::lengths_of(s));
    }
    WorkAnswer::Refused(bitstream::NOT_GENUINE)
}

// A frame call: reads a packet and, if it is accepted, makes its frame in `new`. Of the lent slices a caller keeps golden, previous and new;
// the others are work memory, which may hold anything.
pub fn frame(
    s: Session,
    packet: &[u8],
    table: &[u8],
    records: &mut [u32],
    coded: &mut [u64],
    coefs: &mut [i16],
    dc: &mut [i16],
    lasts: &mut [u8],
    flags: &mut [u8],
    bits: &mut [u8],
    supers: &mut [u8],
    modes: &mut [u8],
    active: &mut [u64],
    golden: &[u8],
    previous: &[u8],
    new: &mut [u8],
) -> FrameAnswer
    ensures { FramePromise (state s golden.now previous.now)
        (call packet.now table.now (memory records.old coded.old coefs.old dc.old lasts.old flags.old bits.old supers.old modes.old active.old) new.old)
        (done result new.new (memory records.new coded.new coefs.new dc.new lasts.new flags.new bits.new supers.new modes.new active.new)) }
{
    let room = Room {
        records: records.len(),
        coded: coded.len(),
        coefs: coefs.len(),
        dc: dc.len(),
        lasts: lasts.len(),
        flags: flags.len(),
        bits: bits.len(),
        supers: supers.len(),
        modes: modes.len(),
        active: active.len(),
        first: golden.len(),
        second: previous.len(),
        third: new.len(),
    };
    let k = calls::lent_number(s, table.len(), room);
    if k != 0 {
        return reading::refusal(k, 0, s);
    }
    work_memory::clear_memory(
        records, coded, coefs, dc, lasts, flags, bits, supers, modes, active,
    );
    decoding::decode(
        s,
        bitstream::readable(packet),
        table,
        records,
        coded,
        coefs,
        dc,
        lasts,
        flags,
        bits,
        supers,
        modes,
        active,
        golden,
        previous,
        new,
    )
}
