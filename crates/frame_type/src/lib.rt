// The bits of a frame header that are judged: the first bit, the frame type, the reserved bits.
#![tactic(auto)]

ghost use Rattle.std.specs.Prelude.{◌≡◌, ◌≤◌, length};
ghost use Rattle.bitstream.specs.Bits.{longest};
ghost use Rattle.bitstream.specs.Answer.{as_field};
ghost use Rattle.frame_type.specs.Judged.{frame_type, reserved};

use bitstream::Field;

// The first bit, and the frame type: 0 is intra, 1 is inter.
pub fn read_type(packet: &[u8], at: usize, references: bool) -> Field
    requires { length packet.now ≤ longest }
    ensures { result ≡ as_field (frame_type references packet.now at) }
{
    let first = bitstream::read(packet, at, 1);
    match first {
        Field::Refused(k, e) => Field::Refused(k, e),
        Field::Got(b, next) => {
            if b != 0 {
                return Field::Refused(bitstream::NO_FRAME, at);
            }
            let bit = bitstream::read(packet, next, 1);
            match bit {
                Field::Refused(k, e) => Field::Refused(k, e),
                Field::Got(t, end) => {
                    if t == 0 {
                        return Field::Got(t, end);
                    }
                    if references {
                        return Field::Got(t, end);
                    }
                    Field::Refused(bitstream::NO_REFERENCES, next)
                }
            }
        }
    }
}

// The reserved bits, which an intra frame has.
pub fn read_reserved(packet: &[u8], at: usize, kind: u32) -> Field
    requires { length packet.now ≤ longest }
    ensures { result ≡ as_field (reserved kind packet.now at) }
{
    if kind != 0 {
        return Field::Got(0, at);
    }
    let bits = bitstream::read(packet, at, 3);
    match bits {
        Field::Refused(k, e) => Field::Refused(k, e),
        Field::Got(v, end) => {
            if v == 0 {
                return Field::Got(v, end);
            }
            Field::Refused(bitstream::RESERVED_BITS, at)
        }
    }
}
