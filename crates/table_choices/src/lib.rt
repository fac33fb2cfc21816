// Which tables the tokens at a position are read by: the group of the position, and the table choices.
#![tactic(auto)]

ghost use Rattle.std.specs.Prelude.{◌≡◌, ◌≤◌, length};
ghost use Rattle.bitstream.specs.Bits.{longest};
ghost use Rattle.table_choices.specs.Choices.{group, choices, choices_of};
ghost use Rattle.table_choices.specs.Answer.{as_chosen, begins_group};

use bitstream::Two;

// The table choices for luma and chroma and the place behind them, or the refusal.
#[derive(Clone, Copy)]
pub enum Chosen {
    Tables(usize, usize, usize),
    Refused(u32, usize),
}

// The group of the position k.
pub fn group_of(k: usize) -> usize
    ensures { (result ≡ group k) × (result ≤ 4) }
{
    if k < 1 {
        return 0;
    }
    if k < 6 {
        return 1;
    }
    if k < 15 {
        return 2;
    }
    if k < 28 {
        return 3;
    }
    4
}

// Whether a group begins at the position k.
pub fn begins_group(k: usize) -> bool
    ensures { result ≡ begins_group k }
{
    if k == 0 {
        return true;
    }
    group_of(k) != group_of(k - 1)
}

// The table choices at the position k: new ones at 0 and 1, and else the present ones.
pub fn read_choices(packet: &[u8], at: usize, k: usize, luma: usize, chroma: usize) -> Chosen
    requires { length packet.now ≤ longest }
    ensures { result ≡ as_chosen (choices k (choices_of luma chroma) packet.now at) }
{
    if 2 <= k {
        return Chosen::Tables(luma, chroma, at);
    }
    let both = bitstream::read_two(packet, at, 4, 4);
    match both {
        Two::Refused(number, place) => Chosen::Refused(number, place),
        Two::Got(a, b, end) => {
            let lumas = a as usize;
            let chromas = b as usize;
            Chosen::Tables(lumas, chromas, end)
        }
    }
}
