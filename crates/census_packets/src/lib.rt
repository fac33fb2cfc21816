// The packets of a recording, counted: its headers, one packet more, and all of them.
#![tactic(auto)]

ghost use Rattle.std.specs.Prelude.{◌≡◌, List, [], ℕ, ◌≤◌, length, get_or, take};
ghost use Rattle.setup.specs.Table.{table_after};
ghost use Rattle.packet_list.specs.Packets.{total, packets_in};
ghost use Rattle.report.specs.Report.{plus};
ghost use Rattle.report.specs.Running.{Runs};
ghost use Rattle.census_packets.specs.Recording.{answer_adds, counts_add, headers_of, setup_of};
ghost use Rattle.census_packets.specs.Inner.{as_headers, IfSound, AllNumbered};

use counting::Counts;
use frame_header::Kind;
use headers::{IdentificationAnswer, Session};
use reading::{FrameAnswer, Verdict};
use report::Running;
use setup::SetupAnswer;

// The fresh session of a recording and the byte place of its first frame packet, or the number of the first refused header.
#[derive(Clone, Copy)]
pub enum HeadersAnswer {
    Sound(Session, usize),
    Refused(u32),
}

// The setup header behind a sound identification header: the third packet. The second is not read.
fn read_setup(s: Session, lengths: &[u64], packets: &[u8], table: &mut [u8]) -> HeadersAnswer
    requires { total lengths.now ≤ length packets.now }
    ensures value { result ≡ as_headers (total (take 3 lengths.now)) (setup_of (length table.old) (packets_in lengths.now packets.now) s) }
    ensures if_sound { IfSound (table.new ≡ table_after table.old (get_or (packets_in lengths.now packets.now) 2 [])) result }
{
    if lengths.len() < 3 {
        return HeadersAnswer::Refused(bitstream::PACKET_ENDS);
    }
    let first = lengths[0] as usize;
    let second = lengths[1] as usize;
    let third = lengths[2] as usize;
    let from = first + second;
    let to = from + third;
    match setup::setup(&packets[from..to], table) {
        SetupAnswer::Accepted => HeadersAnswer::Sound(s, to),
        SetupAnswer::Refused(k, _) => HeadersAnswer::Refused(k),
    }
}

// The headers of a recording. What they say is kept in table memory.
pub fn read_headers(lengths: &[u64], packets: &[u8], table: &mut [u8]) -> HeadersAnswer
    requires { total lengths.now ≤ length packets.now }
    ensures value { result ≡ as_headers (total (take 3 lengths.now)) (headers_of (length table.old) (packets_in lengths.now packets.now)) }
    ensures if_sound { IfSound (table.new ≡ table_after table.old (get_or (packets_in lengths.now packets.now) 2 [])) result }
{
    if lengths.len() == 0 {
        return HeadersAnswer::Refused(bitstream::PACKET_ENDS);
    }
    let first = lengths[0] as usize;
    match headers::identification(&packets[..first]) {
        IdentificationAnswer::Accepted(s) => read_setup(s, lengths, packets, table),
        IdentificationAnswer::Refused(k, _) => HeadersAnswer::Refused(k),
    }
}

// Adds an accepted packet of a kind, with its counts.
fn add_frame(running: Running, kind: u64, counts: Counts) -> Running
    requires { kind ≤ 2 }
    ensures { (l : List ℕ) → Runs running l → Runs result (plus l (counts_add kind counts)) }
{
    let at = kind as usize;
    let more = report::add_at(running, at, 1);
    let coded = counts.coded;
    let uncoded = counts.uncoded;
    let modes = counts.modes;
    let list = [
        0, 0, 0, 0, 0, 0, 0, 0, 0, 0, 0, 0, 0, 0, 0, 0, 0, 0, 0, 0, coded[0], coded[1], coded[2],
        uncoded[0], uncoded[1], uncoded[2], modes[0], modes[1], modes[2], modes[3], modes[4],
        modes[5], modes[6], modes[7],
    ];
    report::add(more, &list)
}

// Adds a packet's answer, with its counts.
pub fn add_packet(running: Running, answer: FrameAnswer, counts: Counts) -> Running
    requires { AllNumbered answer.verdict }
    ensures { (l : List ℕ) → Runs running l → Runs result (plus l (answer_adds answer counts)) }
{
    let verdict = answer.verdict;
    match verdict {
        Verdict::Refused(k, _) => report::add_refusals(running, k, 1),
        Verdict::Accepted(_) => {
            let header = answer.header;
            let kind = header.kind;
            match kind {
                Kind::Intra => add_frame(running, 0, counts),
                Kind::Inter => add_frame(running, 1, counts),
                Kind::Repeat => add_frame(running, 2, counts),
            }
        }
    }
}
