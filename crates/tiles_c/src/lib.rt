// The face of `changed_tiles` for C and other languages: include/wedgepetal.h says what each call is for.
#![tactic(auto)]

ghost use Rattle.std.specs.Prelude.{◌≡◌, length};
ghost use Rattle.work_memory.specs.Memory.{memory};
ghost use Rattle.calls.specs.Call.{call};
ghost use Rattle.session_list.specs.List.{gives, answers};
ghost use Rattle.frame_c.specs.Face.{frame_gives};
ghost use Rattle.tiles_c.specs.Face.{tiles_number, length_returned, length_call, tiles_gives, tiles_frame_call};

use tile_calls::MapLength;

// By what the lists of a call are refused before it is made, 0 if by nothing: 1 for a settings' list of another length, 20 for the settings, then as
// any call on a session.
fn lists_refusal(settings: &[u64], session: &[u64], room: usize, wanted: usize) -> u32
    ensures { result ≡ tiles_number wanted settings.now session.now room }
{
    if settings.len() != 4 {
        return bitstream::WRONG_LENGTH;
    }
    let set = settings_list::settings_of(settings);
    if settings::settings_fit(set) {
        return session_list::lists_refusal(session, room, wanted);
    }
    bitstream::BAD_SETTINGS
}

fn return_length(answer: MapLength, list: &mut [u64]) -> u32
    requires { length list.old ≡ 1 }
    ensures { gives result list.new ≡ length_returned list.old answer }
{
    match answer {
        MapLength::Is(n) => {
            list[0] = n;
            0
        }
        MapLength::Refused(k, _) => k,
    }
}

// How many bytes a map of changed tiles has.
pub fn wedgepetal_tiles_length(settings: &[u64], session: &[u64], length: &mut [u64]) -> u32
    ensures { gives result length.new ≡ length_call settings.now session.now length.old }
{
    let k = lists_refusal(settings, session, length.len(), 1);
    if k == 0 {
        let set = settings_list::settings_of(settings);
        let s = session_list::session_of(session);
        return return_length(tile_calls::map_length(set, s), length);
    }
    k
}

// Decodes a frame packet into new, and says in map which tiles changed.
pub fn wedgepetal_tiles_frame(
    settings: &[u64],
    session: &mut [u64],
    packet: &[u8],
    table: &[u8],
    records: &mut [u32],
    coded: &mut [u64],
    coefs: &mut [i16],
    dc: &mut [i16],
    lasts: &mut [u8],
    flags: &mut [u8],
    bits: &mut [u8],
    supers: &mut [u8],
    modes: &mut [u8],
    active: &mut [u64],
    golden: &[u8],
    previous: &[u8],
    new: &mut [u8],
    answer: &mut [u64],
    map: &mut [u8],
) -> u32
    ensures { tiles_gives (frame_gives (answers result session.new answer.new) new.new (memory records.new coded.new coefs.new dc.new lasts.new flags.new bits.new supers.new modes.new active.new)) map.new
        ≡ tiles_frame_call settings.now session.old answer.old golden.now previous.now
        (call packet.now table.now (memory records.old coded.old coefs.old dc.old lasts.old flags.old bits.old supers.old modes.old active.old) new.old)
        map.old }
{
    let k = lists_refusal(settings, session, answer.len(), 8);
    if k == 0 {
        let set = settings_list::settings_of(settings);
        let s = session_list::session_of(session);
        let done = changed_tiles::frame(
            set, s, packet, table, records, coded, coefs, dc, lasts, flags, bits, supers, modes,
            active, golden, previous, new, map,
        );
        return frame_lists::return_frame(done, session, answer);
    }
    k
}
