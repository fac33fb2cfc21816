// Which tiles changed: a frame call that keeps a map beside the frame. It sees of the decoder what that promises.
#![tactic(auto)]

ghost use Rattle.std.specs.Prelude.{◌≡◌};
ghost use Rattle.work_memory.specs.Memory.{memory};
ghost use Rattle.asked_frame.specs.Answer.{state, done};
ghost use Rattle.calls.specs.Call.{call};
ghost use Rattle.tile_calls.specs.Call.{tiles_done, tiles_call};

use headers::Session;
use reading::FrameAnswer;
use settings::Settings;

// A frame call, and the map of the tiles that changed: 1 or 0 for each, row by row from the bottom.
pub fn frame(
    set: Settings,
    s: Session,
    packet: &[u8],
    table: &[u8],
    records: &mut [u32],
    coded: &mut [u64],
    coefs: &mut [i16],
    dc: &mut [i16],
    lasts: &mut [u8],
    flags: &mut [u8],
    bits: &mut [u8],
    supers: &mut [u8],
    modes: &mut [u8],
    active: &mut [u64],
    golden: &[u8],
    previous: &[u8],
    new: &mut [u8],
    map: &mut [u8],
) -> FrameAnswer
    ensures { tiles_done (done result new.new (memory records.new coded.new coefs.new dc.new lasts.new flags.new bits.new supers.new modes.new active.new)) map.new
        ≡ tiles_call set (state s golden.now previous.now)
        (call packet.now table.now (memory records.old coded.old coefs.old dc.old lasts.old flags.old bits.old supers.old modes.old active.old) new.old)
        map.old }
{
    if !settings::settings_fit(set) {
        return reading::refusal(bitstream::BAD_SETTINGS, 0, s);
    }
    if !tile_calls::map_fits(set, s, map) {
        return reading::refusal(bitstream::WRONG_LENGTH, 0, s);
    }
    let answer = theora::frame(
        s, packet, table, records, coded, coefs, dc, lasts, flags, bits, supers, modes, active,
        golden, previous, new,
    );
    let verdict = answer.verdict;
    map_update::update_map(set, s, verdict, previous, new, map);
    answer
}
