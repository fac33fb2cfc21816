// A whole shot in one call, and for each packet the map of the tiles that it changed.
#![tactic(auto)]

ghost use Rattle.work_memory.specs.Memory.{memory};
ghost use Rattle.opening.specs.Call.{shot_call};
ghost use Rattle.shot.specs.Call.{shot_done};
ghost use Rattle.tiles_shot.specs.Call.{tiles_shot_done, TilesShotPromise};

use buffer_names::Names;
use calls::Room;
use headers::Session;
use settings::Settings;
use shot::{ShotAnswer, ShotVerdict};

// A whole shot, as `shot::shot` plays it, with settings and one map for each packet, one behind the other. A refused packet leaves its map.
pub fn shot(
    set: Settings,
    s: Session,
    names: Names,
    lengths: &[u64],
    packets: &[u8],
    table: &[u8],
    records: &mut [u32],
    coded: &mut [u64],
    coefs: &mut [i16],
    dc: &mut [i16],
    lasts: &mut [u8],
    flags: &mut [u8],
    bits: &mut [u8],
    supers: &mut [u8],
    modes: &mut [u8],
    active: &mut [u64],
    first: &mut [u8],
    second: &mut [u8],
    third: &mut [u8],
    answers: &mut [u64],
    maps: &mut [u8],
) -> ShotAnswer
    ensures { TilesShotPromise set (shot_call s names lengths.now packets.now table.now
        (memory records.old coded.old coefs.old dc.old lasts.old flags.old bits.old supers.old modes.old active.old) first.old second.old third.old answers.old) maps.old
        (tiles_shot_done (shot_done result first.new second.new third.new (memory records.new coded.new coefs.new dc.new lasts.new flags.new bits.new supers.new modes.new active.new) answers.new) maps.new) }
{
    let fault = shot_maps::maps_number(set, s, lengths.len(), maps.len());
    if fault != 0 {
        return shot::refused(fault, s, names);
    }
    let room = Room {
        records: records.len(),
        coded: coded.len(),
        coefs: coefs.len(),
        dc: dc.len(),
        lasts: lasts.len(),
        flags: flags.len(),
        bits: bits.len(),
        supers: supers.len(),
        modes: modes.len(),
        active: active.len(),
        first: first.len(),
        second: second.len(),
        third: third.len(),
    };
    let opened = opening::open(s, names, lengths, packets, table, room, answers.len());
    let number = opened.number;
    if number != 0 {
        return shot::refused(number, s, names);
    }
    let both = buffer_names::names_of(s, names);
    if lengths.len() == 0 {
        return ShotAnswer {
            verdict: ShotVerdict::Played,
            session: s,
            names: both,
        };
    }
    work_memory::clear_memory(
        records, coded, coefs, dc, lasts, flags, bits, supers, modes, active,
    );
    let ended = tiles_packets::play_packets(
        set,
        s,
        both,
        lengths,
        packets,
        table,
        opened.setup,
        records,
        coded,
        coefs,
        dc,
        lasts,
        flags,
        bits,
        supers,
        modes,
        active,
        first,
        second,
        third,
        answers,
        maps,
    );
    let session = ended.session;
    let after = ended.names;
    ShotAnswer {
        verdict: ShotVerdict::Played,
        session,
        names: after,
    }
}
