// Frame calls by the rules: what a call is lent, what it answers and what it leaves, and the theorems on lists of calls. Of a program only the tests of what is lent stand here.
#![tactic(auto)]

ghost use Rattle.std.specs.Prelude.{◌≡◌, ◌≤◌, ◌^◌};
ghost use Rattle.calls.specs.Room.{room_for_frames, room_for_work, lent_by};

use headers::Session;
use work_memory::WorkLengths;

// How long the slices are that a call is lent, and may write to: work memory and three buffers. Tests take the lengths alone, since a call that lends so many slices is dear to prove.
#[derive(Clone, Copy)]
pub struct Room {
    pub records: usize,
    pub coded: usize,
    pub coefs: usize,
    pub dc: usize,
    pub lasts: usize,
    pub flags: usize,
    pub bits: usize,
    pub supers: usize,
    pub modes: usize,
    pub active: usize,
    pub first: usize,
    pub second: usize,
    pub third: usize,
}

// Whether the buffers for frames of n blocks, and table memory, have their lengths.
fn buffers_fit(n: u64, table: usize, room: Room) -> bool
    requires { n ≤ 2 ^ 36 }
    ensures { result ≡ room_for_frames n table room }
{
    let buffer = 64 * n;
    (room.first as u64 == buffer)
        & (room.second as u64 == buffer)
        & (room.third as u64 == buffer)
        & (table == setup::TABLE_BYTES)
}

// Whether every slice of work memory has its length.
fn work_fits(l: WorkLengths, room: Room) -> bool
    ensures { result ≡ room_for_work l room }
{
    (room.records as u64 == l.records)
        & (room.coded as u64 == l.coded)
        & (room.coefs as u64 == l.coefs)
        & (room.dc as u64 == l.dc)
        & (room.lasts as u64 == l.lasts)
        & (room.flags as u64 == l.flags)
        & (room.bits as u64 == l.bits)
        & (room.supers as u64 == l.supers)
        & (room.modes as u64 == l.modes)
        & (room.active as u64 == l.active)
}

// The tests of what a call is lent, before table memory is looked at: the number of the refusal, or 0.
pub fn lent_number(s: Session, table: usize, room: Room) -> u32
    ensures { result ≡ lent_by s table room }
{
    if headers::session_fits(s) {
        let l = work_memory::lengths_of(s);
        let buffers = buffers_fit(l.records, table, room);
        let work = work_fits(l, room);
        if buffers & work {
            return 0;
        }
        return bitstream::WRONG_LENGTH;
    }
    bitstream::NOT_GENUINE
}
