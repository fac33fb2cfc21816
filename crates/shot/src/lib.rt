// A whole shot in one call: packets joined together, applied in order, with three buffers that are named.
#![tactic(auto)]

ghost use Rattle.std.specs.Prelude.{◌≡◌};
ghost use Rattle.work_memory.specs.Memory.{memory};
ghost use Rattle.opening.specs.Call.{shot_call};
ghost use Rattle.shot.specs.Call.{shot_done, refused_by, ShotPromise};

use buffer_names::Names;
use calls::Room;
use headers::Session;

// The packets were played, each with its own answer; or the number of the call's refusal.
#[derive(Clone, Copy)]
pub enum ShotVerdict {
    Played,
    Refused(u32),
}

// What a shot call answers, and session and names for the next call.
#[derive(Clone, Copy)]
pub struct ShotAnswer {
    pub verdict: ShotVerdict,
    pub session: Session,
    pub names: Names,
}

// A refusal by its number: session and names are the caller's.
pub fn refused(k: u32, s: Session, names: Names) -> ShotAnswer
    ensures { result ≡ refused_by k s names }
{
    ShotAnswer {
        verdict: ShotVerdict::Refused(k),
        session: s,
        names,
    }
}

// A whole shot: packets joined together, applied in order. Each new frame goes into the first buffer that holds neither golden nor
// previous; the answer names both.
pub fn shot(
    s: Session,
    names: Names,
    lengths: &[u64],
    packets: &[u8],
    table: &[u8],
    records: &mut [u32],
    coded: &mut [u64],
    coefs: &mut [i16],
    dc: &mut [i16],
    lasts: &mut [u8],
    flags: &mut [u8],
    bits: &mut [u8],
    supers: &mut [u8],
    modes: &mut [u8],
    active: &mut [u64],
    first: &mut [u8],
    second: &mut [u8],
    third: &mut [u8],
    answers: &mut [u64],
) -> ShotAnswer
    ensures { ShotPromise (shot_call s names lengths.now packets.now table.now
        (memory records.old coded.old coefs.old dc.old lasts.old flags.old bits.old supers.old modes.old active.old) first.old second.old third.old answers.old)
        (shot_done result first.new second.new third.new (memory records.new coded.new coefs.new dc.new lasts.new flags.new bits.new supers.new modes.new active.new) answers.new) }
{
    let room = Room {
        records: records.len(),
        coded: coded.len(),
        coefs: coefs.len(),
        dc: dc.len(),
        lasts: lasts.len(),
        flags: flags.len(),
        bits: bits.len(),
        supers: supers.len(),
        modes: modes.len(),
        active: active.len(),
        first: first.len(),
        second: second.len(),
        third: third.len(),
    };
    let opened = opening::open(s, names, lengths, packets, table, room, answers.len());
    let number = opened.number;
    if number != 0 {
        return refused(number, s, names);
    }
    let both = buffer_names::names_of(s, names);
    if lengths.len() == 0 {
        return ShotAnswer {
            verdict: ShotVerdict::Played,
            session: s,
            names: both,
        };
    }
    work_memory::clear_memory(
        records, coded, coefs, dc, lasts, flags, bits, supers, modes, active,
    );
    let ended = shot_packets::play_packets(
        s,
        both,
        lengths,
        packets,
        table,
        opened.setup,
        records,
        coded,
        coefs,
        dc,
        lasts,
        flags,
        bits,
        supers,
        modes,
        active,
        first,
        second,
        third,
        answers,
    );
    let session = ended.session;
    let after = ended.names;
    ShotAnswer {
        verdict: ShotVerdict::Played,
        session,
        names: after,
    }
}
