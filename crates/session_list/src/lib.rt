// A session as a list of numbers, as the faces for C lend it.
#![tactic(auto)]

ghost use Rattle.std.specs.Prelude.{◌≡◌, length};
ghost use Rattle.session_list.specs.List.{session_of, lists_number};

use headers::{Fields, Session};

// The session that a list of 19 numbers says.
pub fn session_of(list: &[u64]) -> Session
    requires { length list.now ≡ 19 }
    ensures { result ≡ session_of list.now }
{
    Session {
        fields: Fields {
            vrev: list[0],
            fmbw: list[1],
            fmbh: list[2],
            picw: list[3],
            pich: list[4],
            picx: list[5],
            picy: list[6],
            frn: list[7],
            frd: list[8],
            parn: list[9],
            pard: list[10],
            cs: list[11],
            nombr: list[12],
            qual: list[13],
            kfgshift: list[14],
            pf: list[15],
        },
        references: list[16] != 0,
        key_frames: list[17],
        others: list[18],
    }
}

// By what the lists of a call on a session are refused before it is made, 0 if by nothing: 1 for a session's list of another length; where the list
// for the answer has another length than the one wanted, 8 for the session's fields, then 1. Where it has that length the call itself finds 8.
pub fn lists_refusal(session: &[u64], room: usize, wanted: usize) -> u32
    ensures { result ≡ lists_number wanted session.now room }
{
    if session.len() != 19 {
        return bitstream::WRONG_LENGTH;
    }
    if room == wanted {
        return 0;
    }
    let s = session_of(session);
    if headers::session_fits(s) {
        return bitstream::WRONG_LENGTH;
    }
    bitstream::NOT_GENUINE
}
