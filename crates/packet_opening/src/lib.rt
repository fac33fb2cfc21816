// How a frame packet opens: with a header, or empty.
#![tactic(auto)]

ghost use Rattle.std.specs.Prelude.{◌≡◌};
ghost use Rattle.packet_opening.specs.Opening.{opening_of};

// An empty packet repeats previous, or is refused where there are no references.
#[derive(Clone, Copy)]
pub enum Opening {
    Header,
    Repeat,
    NoReferences,
}

// How a packet of this length opens.
pub fn open_packet(length: usize, references: bool) -> Opening
    ensures { result ≡ opening_of length references }
{
    if length == 0 {
        if references {
            return Opening::Repeat;
        }
        return Opening::NoReferences;
    }
    Opening::Header
}
