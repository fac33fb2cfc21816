// What the session becomes after an accepted frame, and whether its numbers stay within their bounds.
#![tactic(auto)]

ghost use Rattle.std.specs.Prelude.{true, ◌≡◌};
ghost use Rattle.headers.specs.Fits.{session_fits};
ghost use Rattle.session_steps.specs.Steps.{stays_counted, session_after};

use frame_header::Kind;
use headers::Session;

// Whether the session's two numbers stay within their bounds after a packet of a kind: else it is refused by 17.
pub fn stays_counted(kind: Kind, s: Session) -> bool
    requires { session_fits s ≡ true }
    ensures { result ≡ stays_counted kind s }
{
    match kind {
        Kind::Intra => s.key_frames < 18446744073709551615,
        Kind::Inter => headers::within_shift(s.fields, s.others + 1),
        Kind::Repeat => headers::within_shift(s.fields, s.others + 1),
    }
}

// The session after an accepted frame of a kind.
pub fn session_after(kind: Kind, s: Session) -> Session
    requires { (session_fits s ≡ true) × (stays_counted kind s ≡ true) }
    ensures { result ≡ session_after kind s }
{
    let mut next = s;
    match kind {
        Kind::Intra => {
            next.references = true;
            next.key_frames = s.key_frames + 1;
            next.others = 0;
        }
        Kind::Inter => {
            next.others = s.others + 1;
        }
        Kind::Repeat => {
            next.others = s.others + 1;
        }
    }
    next
}
