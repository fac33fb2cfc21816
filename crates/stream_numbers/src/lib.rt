// The numbers that the header of a stream says, and those of a session's streams.
#![tactic(auto)]

ghost use Rattle.std.specs.Prelude.{◌≡◌, true};
ghost use Rattle.headers.specs.Fits.{session_fits};
ghost use Rattle.stream_numbers.specs.Numbers.{aspect, numbers_of};

use headers::Session;

// What a stream's header says: W, H, F, A, and C as a pixel format's number.
#[derive(Clone, Copy)]
pub struct Numbers {
    pub width: u64,
    pub height: u64,
    pub frn: u64,
    pub frd: u64,
    pub parn: u64,
    pub pard: u64,
    pub pf: u64,
}

fn aspect(this: u64, other: u64) -> u64
    ensures { result ≡ aspect this other }
{
    if other == 0 {
        return 0;
    }
    this
}

// The numbers of a session's streams.
pub fn numbers_of(s: Session) -> Numbers
    requires { session_fits s ≡ true }
    ensures { result ≡ numbers_of s }
{
    let f = s.fields;
    let parn = aspect(f.parn, f.pard);
    let pard = aspect(f.pard, f.parn);
    Numbers {
        width: 16 * f.fmbw,
        height: 16 * f.fmbh,
        frn: f.frn,
        frd: f.frd,
        parn: parn,
        pard: pard,
        pf: f.pf,
    }
}
