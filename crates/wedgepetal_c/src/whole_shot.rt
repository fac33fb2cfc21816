// A list of packets in one call.
ghost use Rattle.std.specs.Prelude.{◌≡◌};
ghost use Rattle.work_memory.specs.Memory.{memory};
ghost use Rattle.shot_c.specs.Face.{lists, shot_gives, shot_face};

// A whole shot: packets joined together, applied in order.
#[unsafe(no_mangle)]
pub extern "C" fn wedgepetal_shot(
    session: &mut [u64],
    names: &mut [u64],
    lengths: &[u64],
    packets: &[u8],
    table: &[u8],
    records: &mut [u32],
    coded: &mut [u64],
    coefs: &mut [i16],
    dc: &mut [i16],
    lasts: &mut [u8],
    flags: &mut [u8],
    bits: &mut [u8],
    supers: &mut [u8],
    modes: &mut [u8],
    active: &mut [u64],
    first: &mut [u8],
    second: &mut [u8],
    third: &mut [u8],
    answers: &mut [u64],
) -> u32
    ensures { shot_gives (lists result session.new names.new) first.new second.new third.new (memory records.new coded.new coefs.new dc.new lasts.new flags.new bits.new supers.new modes.new active.new) answers.new
        ≡ shot_face session.old names.old lengths.now packets.now table.now
        (memory records.old coded.old coefs.old dc.old lasts.old flags.old bits.old supers.old modes.old active.old) first.old second.old third.old answers.old }
{
    shot_c::wedgepetal_shot(
        session, names, lengths, packets, table, records, coded, coefs, dc, lasts, flags, bits,
        supers, modes, active, first, second, third, answers,
    )
}
