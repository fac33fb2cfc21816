// The face of `shot` for C and other languages: include/wedgepetal.h says what the call is for.
#![tactic(auto)]

ghost use Rattle.std.specs.Prelude.{◌≡◌, length};
ghost use Rattle.work_memory.specs.Memory.{memory};
ghost use Rattle.shot_c.specs.Face.{names_in, reference_number, lists, lists_after, shot_gives, shot_face};

use buffer_names::Names;
use shot::{ShotAnswer, ShotVerdict};

// The names that a list of 2 numbers says.
pub fn names_in(list: &[u64]) -> Names
    requires { length list.now ≡ 2 }
    ensures { result ≡ names_in list.now }
{
    let golden = list[0];
    let previous = list[1];
    Names { golden, previous }
}

// The reference number of a session, which stays where it says the same.
fn reference_number(references: bool, before: u64) -> u64
    ensures { result ≡ reference_number references before }
{
    if references {
        if before == 0 {
            return 1;
        }
        return before;
    }
    0
}

// Puts session and names for the next call into their lists, and answers 0; or answers the number of the refusal.
pub fn return_shot(answer: ShotAnswer, session: &mut [u64], names: &mut [u64]) -> u32
    requires { (length session.old ≡ 19) × (length names.old ≡ 2) }
    ensures { lists result session.new names.new ≡ lists_after session.old names.old answer }
{
    let verdict = answer.verdict;
    let next = answer.session;
    let after = answer.names;
    match verdict {
        ShotVerdict::Played => {
            let before = session[16];
            session[16] = reference_number(next.references, before);
            session[17] = next.key_frames;
            session[18] = next.others;
            names[0] = after.golden;
            names[1] = after.previous;
            0
        }
        ShotVerdict::Refused(k) => k,
    }
}

// A whole shot: packets joined together, applied in order.
pub fn wedgepetal_shot(
    session: &mut [u64],
    names: &mut [u64],
    lengths: &[u64],
    packets: &[u8],
    table: &[u8],
    records: &mut [u32],
    coded: &mut [u64],
    coefs: &mut [i16],
    dc: &mut [i16],
    lasts: &mut [u8],
    flags: &mut [u8],
    bits: &mut [u8],
    supers: &mut [u8],
    modes: &mut [u8],
    active: &mut [u64],
    first: &mut [u8],
    second: &mut [u8],
    third: &mut [u8],
    answers: &mut [u64],
) -> u32
    ensures { shot_gives (lists result session.new names.new) first.new second.new third.new (memory records.new coded.new coefs.new dc.new lasts.new flags.new bits.new supers.new modes.new active.new) answers.new
        ≡ shot_face session.old names.old lengths.now packets.now table.now
        (memory records.old coded.old coefs.old dc.old lasts.old flags.old bits.old supers.old modes.old active.old) first.old second.old third.old answers.old }
{
    if (session.len() == 19) & (names.len() == 2) {
        let s = session_list::session_of(session);
        let both = names_in(names);
        let done = shot::shot(
            s, both, lengths, packets, table, records, coded, coefs, dc, lasts, flags, bits,
            supers, modes, active, first, second, third, answers,
        );
        return return_shot(done, session, names);
    }
    bitstream::WRONG_LENGTH
}
