// The beginning of a whole shot's call: the tests of what is lent, of table memory and of the packets' reach.
#![tactic(auto)]

ghost use Rattle.std.specs.Prelude.{◌≡◌, List, ℕ, ◌*◌, eqb, length};
ghost use Rattle.bitstream.specs.Reading.{choose};
ghost use Rattle.setup.specs.Table.{held_setup};
ghost use Rattle.setup.specs.Loaded.{setup_of};
ghost use Rattle.work_memory.specs.Memory.{Memory};
ghost use Rattle.packet_list.specs.Packets.{answer_size};
ghost use Rattle.opening.specs.Call.{shot_call, shot_number};
ghost use Rattle.calls.specs.Room.{room_of};
ghost use Rattle.opening.specs.Tests.{shot_lent_by, late_number};

use bitstream::End;
use buffer_names::Names;
use calls::Room;
use headers::Session;
use setup::LoadedSetup;

// What the tests come to: 0, or the number of the refusal; and the setup that table memory holds.
#[derive(Clone, Copy)]
pub struct Opened {
    pub number: u32,
    pub setup: LoadedSetup,
}

// Whether so many numbers are the answers of so many packets. Nothing is multiplied.
fn answers_fit(numbers: usize, packets: usize) -> bool
    ensures { result ≡ eqb numbers (answer_size * packets) }
{
    (numbers % 8 == 0) & (numbers / 8 == packets)
}

// The tests of what is lent, before table memory is looked at: those of a frame call, the list for the answers, the names. The number of the refusal, or 0.
fn lent_number(
    s: Session,
    names: Names,
    packets: usize,
    table: usize,
    room: Room,
    answers: usize,
) -> u32
    ensures { result ≡ shot_lent_by s names packets table room answers }
{
    let k = calls::lent_number(s, table, room);
    if k != 0 {
        return k;
    }
    if answers_fit(answers, packets) {
        if buffer_names::names_fit(s, names) {
            return 0;
        }
        return bitstream::NOT_GENUINE;
    }
    bitstream::WRONG_LENGTH
}

// The tests behind those: table memory, then the reach of the packets.
fn number_of(lent: u32, place: End, reach: bool) -> u32
    ensures { result ≡ choose (eqb lent 0) (late_number place reach) lent }
{
    if lent != 0 {
        return lent;
    }
    match place {
        End::Refused(_, _) => bitstream::NOT_GENUINE,
        End::At(_) => {
            if reach {
                return 0;
            }
            bitstream::PAST_PACKETS
        }
    }
}

// All tests of a shot call, and its table memory loaded. Of what the call may write to only the lengths are looked at.
pub fn open(
    s: Session,
    names: Names,
    lengths: &[u64],
    packets: &[u8],
    table: &[u8],
    room: Room,
    answers: usize,
) -> Opened
    ensures number_value { (m : Memory) (first second third list : List ℕ) → room ≡ room_of m first second third → answers ≡ length list
        → result.number ≡ shot_number (shot_call s names lengths.now packets.now table.now m first second third list) }
    ensures setup_value { result.setup ≡ setup_of (held_setup table.now) }
{
    let lent = lent_number(s, names, lengths.len(), table.len(), room, answers);
    let held = setup::load_table(table);
    let reach = packet_list::lengths_reach(lengths, packets.len() as u64);
    let place = held.place;
    let number = number_of(lent, place, reach);
    let setup = held.setup;
    Opened { number, setup }
}
