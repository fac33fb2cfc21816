// The face of `census` for C and other languages: include/wedgepetal.h says what the call is for.
#![tactic(auto)]

ghost use Rattle.std.specs.Prelude.{◌≡◌};
ghost use Rattle.work_memory.specs.Memory.{memory};
ghost use Rattle.census_packets.specs.Recording.{lent};
ghost use Rattle.census.specs.Call.{census_call};
ghost use Rattle.census_c.specs.Face.{census_gives, census_face};

// Adds a recording to a report of 34 numbers.
pub fn wedgepetal_census(
    lengths: &[u64],
    packets: &[u8],
    report: &mut [u64],
    table: &mut [u8],
    records: &mut [u32],
    coded: &mut [u64],
    coefs: &mut [i16],
    dc: &mut [i16],
    lasts: &mut [u8],
    flags: &mut [u8],
    bits: &mut [u8],
    supers: &mut [u8],
    modes: &mut [u8],
    active: &mut [u64],
    golden: &mut [u8],
    previous: &mut [u8],
    new: &mut [u8],
) -> u32
    ensures { census_gives result report.new (lent table.new (memory records.new coded.new coefs.new dc.new lasts.new flags.new bits.new supers.new modes.new active.new) golden.new previous.new new.new)
        ≡ census_face (census_call lengths.now packets.now report.old (lent table.old
        (memory records.old coded.old coefs.old dc.old lasts.old flags.old bits.old supers.old modes.old active.old) golden.old previous.old new.old)) }
{
    let done = census::census(
        lengths, packets, report, table, records, coded, coefs, dc, lasts, flags, bits, supers,
        modes, active, golden, previous, new,
    );
    report::number_of(done)
}
