// A shot with its maps.
ghost use Rattle.std.specs.Prelude.{◌≡◌};
ghost use Rattle.work_memory.specs.Memory.{memory};
ghost use Rattle.shot_c.specs.Face.{lists, shot_gives};
ghost use Rattle.tiles_shot_c.specs.Face.{tiles_shot_gives, tiles_shot_face};

// A whole shot, and for each packet the map of the tiles that it changed, one behind the other.
#[unsafe(no_mangle)]
pub extern "C" fn wedgepetal_tiles_shot(
    settings: &[u64],
    session: &mut [u64],
    names: &mut [u64],
    lengths: &[u64],
    packets: &[u8],
    table: &[u8],
    records: &mut [u32],
    coded: &mut [u64],
    coefs: &mut [i16],
    dc: &mut [i16],
    lasts: &mut [u8],
    flags: &mut [u8],
    bits: &mut [u8],
    supers: &mut [u8],
    modes: &mut [u8],
    active: &mut [u64],
    first: &mut [u8],
    second: &mut [u8],
    third: &mut [u8],
    answers: &mut [u64],
    maps: &mut [u8],
) -> u32
    ensures { tiles_shot_gives (shot_gives (lists result session.new names.new) first.new second.new third.new
        (memory records.new coded.new coefs.new dc.new lasts.new flags.new bits.new supers.new modes.new active.new) answers.new) maps.new
        ≡ tiles_shot_face settings.now session.old names.old lengths.now packets.now table.now
        (memory records.old coded.old coefs.old dc.old lasts.old flags.old bits.old supers.old modes.old active.old) first.old second.old third.old answers.old maps.old }
{
    tiles_shot_c::wedgepetal_tiles_shot(
        settings, session, names, lengths, packets, table, records, coded, coefs, dc, lasts, flags,
        bits, supers, modes, active, first, second, third, answers, maps,
    )
}
