// Packets that are joined together in one buffer, with a list of their lengths.
#![tactic(auto)]

ghost use Rattle.std.specs.Prelude.{◌≡◌, ◌+◌, ◌<◌, ◌^◌, leb, length, get_or};
ghost use Rattle.packet_list.specs.Packets.{total};

// Whether packets of these lengths lie in `room` bytes. Nothing is added up: what is left of the room falls.
pub fn lengths_reach(lengths: &[u64], room: u64) -> bool
    ensures { result ≡ leb (total lengths.now) room }
{
    let mut left = room;
    for n in lengths {
        if left < *n {
            return false;
        }
        left -= *n;
    }
    true
}

// Where packet `i`, which begins at `at`, ends.
pub fn packet_end(lengths: &[u64], i: usize, at: usize) -> usize
    requires { (i < length lengths.now) × (at + get_or lengths.now i 0 < 2 ^ 64) }
    ensures { result ≡ at + get_or lengths.now i 0 }
{
    let n = lengths[i] as usize;
    at + n
}
