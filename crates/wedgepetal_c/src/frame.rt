// The frame call.
ghost use Rattle.std.specs.Prelude.{◌≡◌};
ghost use Rattle.session_list.specs.List.{answers};
ghost use Rattle.work_memory.specs.Memory.{memory};
ghost use Rattle.calls.specs.Call.{call};
ghost use Rattle.frame_c.specs.Face.{frame_gives, frame_call};

// Decodes a frame packet into new.
#[unsafe(no_mangle)]
pub extern "C" fn wedgepetal_frame(
    session: &mut [u64],
    packet: &[u8],
    table: &[u8],
    records: &mut [u32],
    coded: &mut [u64],
    coefs: &mut [i16],
    dc: &mut [i16],
    lasts: &mut [u8],
    flags: &mut [u8],
    bits: &mut [u8],
    supers: &mut [u8],
    modes: &mut [u8],
    active: &mut [u64],
    golden: &[u8],
    previous: &[u8],
    new: &mut [u8],
    answer: &mut [u64],
) -> u32
    ensures { frame_gives (answers result session.new answer.new) new.new (memory records.new coded.new coefs.new dc.new lasts.new flags.new bits.new supers.new modes.new active.new)
        ≡ frame_call session.old answer.old golden.now previous.now
        (call packet.now table.now (memory records.old coded.old coefs.old dc.old lasts.old flags.old bits.old supers.old modes.old active.old) new.old) }
{
    frame_c::wedgepetal_frame(
        session, packet, table, records, coded, coefs, dc, lasts, flags, bits, supers, modes,
        active, golden, previous, new, answer,
    )
}
