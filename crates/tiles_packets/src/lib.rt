// The packets of a shot, applied in order, each with the map of the tiles that it changed.
#![tactic(auto)]

ghost use Rattle.std.specs.Prelude.{◌≡◌, true, [], ◌∷◌, ◌*◌, ◌≤◌, length};
ghost use Rattle.headers.specs.Fits.{session_fits};
ghost use Rattle.settings.specs.Settings.{settings_fit};
ghost use Rattle.work_memory.specs.Memory.{memory};
ghost use Rattle.work_memory.specs.Lengths.{blocks, lengths_of, cleared};
ghost use Rattle.packet_list.specs.Packets.{total, packets_in, answer_size};
ghost use Rattle.buffer_names.specs.Names.{Sound};
ghost use Rattle.shot_packets.specs.Play.{shot};
ghost use Rattle.shot_packets.specs.Inner.{TableLoaded};
ghost use Rattle.tile_calls.specs.Call.{map_length_of};
ghost use Rattle.tiles_packets.specs.Inner.{PlaysMaps};

use buffer_names::Names;
use headers::Session;
use settings::Settings;
use setup::LoadedSetup;
use shot_packets::Ended;

// Packets, applied in order. Map i is the map of packet i.
pub fn play_packets(
    set: Settings,
    s: Session,
    names: Names,
    lengths: &[u64],
    packets: &[u8],
    table: &[u8],
    loaded: LoadedSetup,
    records: &mut [u32],
    coded: &mut [u64],
    coefs: &mut [i16],
    dc: &mut [i16],
    lasts: &mut [u8],
    flags: &mut [u8],
    bits: &mut [u8],
    supers: &mut [u8],
    modes: &mut [u8],
    active: &mut [u64],
    first: &mut [u8],
    second: &mut [u8],
    third: &mut [u8],
    answers: &mut [u64],
    maps: &mut [u8],
) -> Ended
    requires s_value { (session_fits s ≡ true) × Sound s names × TableLoaded table.now loaded }
    requires active_value { (memory records.old coded.old coefs.old dc.old lasts.old flags.old bits.old supers.old modes.old active.old ≡ cleared (lengths_of s)) × (length first.old ≡ 64 * blocks s) × (length second.old ≡ 64 * blocks s) × (length third.old ≡ 64 * blocks s) }
    requires lengths_in_bounds { (total lengths.now ≤ length packets.now) × (length answers.old ≡ answer_size * length lengths.now) × (settings_fit set ≡ true) × (length maps.old ≡ map_length_of set s * length lengths.now) }
    ensures { PlaysMaps set table.now (shot s (first.old ∷ second.old ∷ third.old ∷ []) names (memory records.old coded.old coefs.old dc.old lasts.old flags.old bits.old supers.old modes.old active.old) [])
        (packets_in lengths.now packets.now) maps.old
        result.session (first.new ∷ second.new ∷ third.new ∷ []) result.names (memory records.new coded.new coefs.new dc.new lasts.new flags.new bits.new supers.new modes.new active.new) answers.new maps.new }
{
    let mut session = s;
    let mut both = names;
    let mut kept = kept_matrices::none();
    let mut at: usize = 0;
    let mut i: usize = 0;
    while i < lengths.len() {
        let end = packet_list::packet_end(lengths, i, at);
        let played = shot_packets::play_packet(
            session,
            both,
            &packets[at..end],
            table,
            loaded,
            kept,
            records,
            coded,
            coefs,
            dc,
            lasts,
            flags,
            bits,
            supers,
            modes,
            active,
            first,
            second,
            third,
        );
        let answer = played.answer;
        let verdict = answer.verdict;
        let header = answer.header;
        shot_maps::store_packet(
            set, session, both, verdict, header, first, second, third, i, answers, maps,
        );
        session = answer.session;
        both = played.names;
        kept = played.kept;
        at = end;
        i += 1;
    }
    Ended {
        session,
        names: both,
    }
}
