// The face of `vendor_check` for C and other languages: include/wedgepetal.h says what the call is for.
#![tactic(auto)]

ghost use Rattle.std.specs.Prelude.{◌≡◌};
ghost use Rattle.work_memory.specs.Memory.{memory};
ghost use Rattle.vendor_check.specs.Check.{lent};
ghost use Rattle.check_c.specs.Face.{check_gives, check_face};
ghost use Rattle.check_answer.specs.Found.{returned};

// Checks a file against two headers and packets.
pub fn wedgepetal_check(
    identification: &[u8],
    setup: &[u8],
    lengths: &[u64],
    packets: &[u8],
    file: &[u8],
    table: &mut [u8],
    records: &mut [u32],
    coded: &mut [u64],
    coefs: &mut [i16],
    dc: &mut [i16],
    lasts: &mut [u8],
    flags: &mut [u8],
    bits: &mut [u8],
    supers: &mut [u8],
    modes: &mut [u8],
    active: &mut [u64],
    first: &mut [u8],
    second: &mut [u8],
    third: &mut [u8],
    answers: &mut [u64],
    found: &mut [u64],
) -> u32
    ensures { check_gives (returned result found.new) table.new first.new second.new third.new (memory records.new coded.new coefs.new dc.new lasts.new flags.new bits.new supers.new modes.new active.new) answers.new
        ≡ check_face identification.now setup.now file.now (lent lengths.now packets.now table.old
        (memory records.old coded.old coefs.old dc.old lasts.old flags.old bits.old supers.old modes.old active.old) first.old second.old third.old answers.old) found.old }
{
    if found.len() == 2 {
        let answer = vendor_check::check(
            identification,
            setup,
            lengths,
            packets,
            file,
            table,
            records,
            coded,
            coefs,
            dc,
            lasts,
            flags,
            bits,
            supers,
            modes,
            active,
            first,
            second,
            third,
            answers,
        );
        return check_answer::return_check(answer, found);
    }
    bitstream::WRONG_LENGTH
}
