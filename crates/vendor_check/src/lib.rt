// The vendor's file, checked: two headers and packets are decoded, and a file is compared with the stream of their frames.
#![tactic(auto)]

ghost use Rattle.std.specs.Prelude.{◌≡◌, true, ◌≤◌, length};
ghost use Rattle.headers.specs.Fits.{session_fits};
ghost use Rattle.work_memory.specs.Memory.{memory};
ghost use Rattle.opening.specs.Call.{shot_call};
ghost use Rattle.vendor_check.specs.Check.{begun_by, lent, check_done, ShotChecked, check_left, checked};

use buffer_names::Names;
use calls::Room;
use check_answer::CheckAnswer;
use headers::{IdentificationAnswer, Session};
use setup::SetupAnswer;
use watching::Watched;

// The header of a session's stream compared, before the first packet.
fn begin(s: Session, file: &[u8]) -> Watched
    requires { session_fits s ≡ true }
    ensures { (result ≡ begun_by s file.now) × (result.compared.place ≤ length file.now) }
{
    let compared = stream_check::compare_header(s, file);
    Watched {
        compared,
        refused: false,
        number: 0,
        bit: 0,
    }
}

// A check from a session on: request 6's call, and the file compared.
fn check_shot(
    s: Session,
    names: Names,
    lengths: &[u64],
    packets: &[u8],
    file: &[u8],
    table: &[u8],
    records: &mut [u32],
    coded: &mut [u64],
    coefs: &mut [i16],
    dc: &mut [i16],
    lasts: &mut [u8],
    flags: &mut [u8],
    bits: &mut [u8],
    supers: &mut [u8],
    modes: &mut [u8],
    active: &mut [u64],
    first: &mut [u8],
    second: &mut [u8],
    third: &mut [u8],
    answers: &mut [u64],
) -> CheckAnswer
    ensures { ShotChecked (shot_call s names lengths.now packets.now table.now
        (memory records.old coded.old coefs.old dc.old lasts.old flags.old bits.old supers.old modes.old active.old) first.old second.old third.old answers.old) file.now
        (check_done result first.new second.new third.new (memory records.new coded.new coefs.new dc.new lasts.new flags.new bits.new supers.new modes.new active.new) answers.new) }
{
    let room = Room {
        records: records.len(),
        coded: coded.len(),
        coefs: coefs.len(),
        dc: dc.len(),
        lasts: lasts.len(),
        flags: flags.len(),
        bits: bits.len(),
        supers: supers.len(),
        modes: modes.len(),
        active: active.len(),
        first: first.len(),
        second: second.len(),
        third: third.len(),
    };
    let opened = opening::open(s, names, lengths, packets, table, room, answers.len());
    let number = opened.number;
    if number != 0 {
        return CheckAnswer::Refused(number, 0);
    }
    let begun = begin(s, file);
    if lengths.len() == 0 {
        return check_answer::conclude(begun, file);
    }
    let both = buffer_names::names_of(s, names);
    work_memory::clear_memory(
        records, coded, coefs, dc, lasts, flags, bits, supers, modes, active,
    );
    let seen = checked_packets::check_packets(
        s,
        both,
        lengths,
        packets,
        file,
        begun,
        table,
        opened.setup,
        records,
        coded,
        coefs,
        dc,
        lasts,
        flags,
        bits,
        supers,
        modes,
        active,
        first,
        second,
        third,
        answers,
    );
    check_answer::conclude(seen, file)
}

// Checks a file against two headers and packets: whether it is the stream of their frames.
pub fn check(
    identification: &[u8],
    setup: &[u8],
    lengths: &[u64],
    packets: &[u8],
    file: &[u8],
    table: &mut [u8],
    records: &mut [u32],
    coded: &mut [u64],
    coefs: &mut [i16],
    dc: &mut [i16],
    lasts: &mut [u8],
    flags: &mut [u8],
    bits: &mut [u8],
    supers: &mut [u8],
    modes: &mut [u8],
    active: &mut [u64],
    first: &mut [u8],
    second: &mut [u8],
    third: &mut [u8],
    answers: &mut [u64],
) -> CheckAnswer
    ensures { check_left result table.new first.new second.new third.new (memory records.new coded.new coefs.new dc.new lasts.new flags.new bits.new supers.new modes.new active.new) answers.new
        ≡ checked identification.now setup.now file.now (lent lengths.now packets.now table.old
        (memory records.old coded.old coefs.old dc.old lasts.old flags.old bits.old supers.old modes.old active.old) first.old second.old third.old answers.old) }
{
    match theora::identification(identification) {
        IdentificationAnswer::Refused(k, e) => CheckAnswer::Refused(k, e),
        IdentificationAnswer::Accepted(s) => match theora::setup(setup, table) {
            SetupAnswer::Refused(k, e) => CheckAnswer::Refused(k, e),
            SetupAnswer::Accepted => {
                let names = Names {
                    golden: 3,
                    previous: 3,
                };
                check_shot(
                    s, names, lengths, packets, file, table, records, coded, coefs, dc, lasts,
                    flags, bits, supers, modes, active, first, second, third, answers,
                )
            }
        },
    }
}
