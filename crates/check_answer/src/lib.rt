// What a check of the vendor's file answers: what is said after the last packet, and the same as numbers.
#![tactic(auto)]

ghost use Rattle.std.specs.Prelude.{◌≡◌, length};
ghost use Rattle.check_answer.specs.Said.{said_by};
ghost use Rattle.check_answer.specs.Found.{found_by, returned};

use watching::Watched;

// The file is what it must be; the first byte at which it differs; or the number of the first refusal and its place.
#[derive(Clone, Copy)]
pub enum CheckAnswer {
    Passes,
    Differs(u64),
    Refused(u32, usize),
}

// What is answered after the last packet: a refusal wins over any difference, and a file with more bytes differs where they begin.
pub fn conclude(w: Watched, file: &[u8]) -> CheckAnswer
    ensures { result ≡ said_by w file.now }
{
    if w.refused {
        return CheckAnswer::Refused(w.number, w.bit);
    }
    let compared = w.compared;
    if compared.differs {
        return CheckAnswer::Differs(compared.place as u64);
    }
    if compared.place < file.len() {
        return CheckAnswer::Differs(compared.place as u64);
    }
    CheckAnswer::Passes
}

// The number that the call returns, and what it found: 0 and 0 where the file passes, 1 and the byte at which it differs, or 0 and
// the place of a refusal.
pub fn return_check(answer: CheckAnswer, found: &mut [u64]) -> u32
    requires { length found.old ≡ 2 }
    ensures { returned result found.new ≡ found_by answer }
{
    match answer {
        CheckAnswer::Passes => {
            found[0] = 0;
            found[1] = 0;
            0
        }
        CheckAnswer::Differs(n) => {
            found[0] = 1;
            found[1] = n;
            0
        }
        CheckAnswer::Refused(k, e) => {
            found[0] = 0;
            found[1] = e as u64;
            k
        }
    }
}
