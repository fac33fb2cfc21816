// Maps of changed tiles.
ghost use Rattle.std.specs.Prelude.{◌≡◌, length};
ghost use Rattle.work_memory.specs.Memory.{memory};
ghost use Rattle.calls.specs.Call.{call};
ghost use Rattle.session_list.specs.List.{gives, answers};
ghost use Rattle.frame_c.specs.Face.{frame_gives};
ghost use Rattle.tiles_c.specs.Face.{length_call, tiles_gives, tiles_frame_call};

// How many bytes a map of changed tiles has.
#[unsafe(no_mangle)]
pub extern "C" fn wedgepetal_tiles_length(
    settings: &[u64],
    session: &[u64],
    length: &mut [u64],
) -> u32
    ensures { gives result length.new ≡ length_call settings.now session.now length.old }
{
    tiles_c::wedgepetal_tiles_length(settings, session, length)
}

// Decodes a frame packet into new, and says in map which tiles changed.
#[unsafe(no_mangle)]
pub extern "C" fn wedgepetal_tiles_frame(
    settings: &[u64],
    session: &mut [u64],
    packet: &[u8],
    table: &[u8],
    records: &mut [u32],
    coded: &mut [u64],
    coefs: &mut [i16],
    dc: &mut [i16],
    lasts: &mut [u8],
    flags: &mut [u8],
    bits: &mut [u8],
    supers: &mut [u8],
    modes: &mut [u8],
    active: &mut [u64],
    golden: &[u8],
    previous: &[u8],
    new: &mut [u8],
    answer: &mut [u64],
    map: &mut [u8],
) -> u32
    ensures { tiles_gives (frame_gives (answers result session.new answer.new) new.new (memory records.new coded.new coefs.new dc.new lasts.new flags.new bits.new supers.new modes.new active.new)) map.new
        ≡ tiles_frame_call settings.now session.old answer.old golden.now previous.now
        (call packet.now table.now (memory records.old coded.old coefs.old dc.old lasts.old flags.old bits.old supers.old modes.old active.old) new.old)
        map.old }
{
    tiles_c::wedgepetal_tiles_frame(
        settings, session, packet, table, records, coded, coefs, dc, lasts, flags, bits, supers,
        modes, active, golden, previous, new, answer, map,
    )
}
