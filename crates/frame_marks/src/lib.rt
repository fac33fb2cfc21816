// Whether frames of a stream begin with their line.
#![tactic(auto)]

ghost use Rattle.std.specs.Prelude.{◌≡◌, length, drop, ◌+◌, ◌≤◌, ◌*◌};
ghost use Rattle.output.specs.Output.{part};
ghost use Rattle.text.specs.Same.{same};
ghost use Rattle.frame_marks.specs.Marks.{frame_line, marked};

// Whether a frame begins at a place.
fn line_at(stream: &[u8], at: usize) -> bool
    requires { at ≤ length stream.now }
    ensures { result ≡ same (part stream.now at 6) frame_line }
{
    text::stands_at(stream, at, b"FRAME\n")
}

// Whether each of the first `count` frames behind place `at` begins with its line.
pub fn all_marked(stream: &[u8], at: usize, size: usize, count: usize) -> bool
    requires { at + count * (6 + size) ≤ length stream.now }
    ensures { result ≡ marked (6 + size) (drop at stream.now) count }
{
    let mut place = at;
    let mut k: usize = 0;
    while k < count {
        if !line_at(stream, place) {
            return false;
        }
        place += 6 + size;
        k += 1;
    }
    true
}
