// The fields of headers, judged at once, and the first groups of the identification header: the version, and the frame's size.
#![tactic(auto)]

ghost use Rattle.bitstream.specs.Bits.{longest};
ghost use Rattle.std.specs.Prelude.{◌≡◌, ◌≤◌, ◌<◌, length};
ghost use Rattle.bitstream.specs.Answer.{as_field};
ghost use Rattle.header_fields.specs.Tests.{exactly, positive, at_most, format_code};
ghost use Rattle.header_fields.specs.Frame.{version, frame_size, as_frame_size};

use bitstream::Field;

// A value that was read, and the place behind it.
#[derive(Clone, Copy)]
pub struct Value {
    pub is: u32,
    pub next: usize,
}

// `width` bits that must be `want`, else number k.
pub fn read_exactly(packet: &[u8], at: usize, width: usize, want: u32, k: u32) -> Field
    requires { (length packet.now ≤ longest) × (width ≤ 32) }
    ensures { result ≡ as_field (exactly width want k packet.now at) }
{
    let field = bitstream::read(packet, at, width);
    let Field::Got(value, _) = field else {
        return field;
    };
    if value != want {
        return Field::Refused(k, at);
    }
    field
}

// `width` bits that must be above 0, else number 5.
pub fn read_positive(packet: &[u8], at: usize, width: usize) -> Field
    requires { (length packet.now ≤ longest) × (width ≤ 32) }
    ensures { result ≡ as_field (positive width packet.now at) }
{
    let field = bitstream::read(packet, at, width);
    let Field::Got(value, _) = field else {
        return field;
    };
    if value <= 0 {
        return Field::Refused(bitstream::OUT_OF_RANGE, at);
    }
    field
}

// `width` bits that must be at most `most`, else number 5.
pub fn read_at_most(packet: &[u8], at: usize, width: usize, most: u32) -> Field
    requires { (length packet.now ≤ longest) × (width ≤ 32) }
    ensures { result ≡ as_field (at_most width most packet.now at) }
{
    let field = bitstream::read(packet, at, width);
    let Field::Got(value, _) = field else {
        return field;
    };
    if most < value {
        return Field::Refused(bitstream::OUT_OF_RANGE, at);
    }
    field
}

// `width` bits that must not be 1, else number 6.
pub fn read_format_code(packet: &[u8], at: usize, width: usize) -> Field
    requires { (length packet.now ≤ longest) × (width ≤ 32) }
    ensures { result ≡ as_field (format_code width packet.now at) }
{
    let field = bitstream::read(packet, at, width);
    let Field::Got(value, _) = field else {
        return field;
    };
    if value == 1 {
        return Field::Refused(bitstream::BAD_FORMAT, at);
    }
    field
}

pub fn read_version(packet: &[u8], at: usize) -> Field
    requires { length packet.now ≤ longest }
    ensures { result ≡ as_field (version packet.now at) }
{
    let vmaj = match read_exactly(packet, at, 8, 3, bitstream::OTHER_VERSION) {
        Field::Got(is, next) => Value { is, next },
        Field::Refused(k, e) => return Field::Refused(k, e),
    };
    let vmin = match read_exactly(packet, vmaj.next, 8, 2, bitstream::OTHER_VERSION) {
        Field::Got(is, next) => Value { is, next },
        Field::Refused(k, e) => return Field::Refused(k, e),
    };
    bitstream::read(packet, vmin.next, 8)
}

#[derive(Clone, Copy)]
pub struct FrameSize {
    pub fmbw: u64,
    pub fmbh: u64,
    pub picw: u64,
    pub pich: u64,
    pub picx: u64,
    pub picy: u64,
}

#[derive(Clone, Copy)]
pub enum FrameSizeAnswer {
    Is(FrameSize, usize),
    Refused(u32, usize),
}

pub fn read_frame_size(packet: &[u8], at: usize) -> FrameSizeAnswer
    requires { length packet.now ≤ longest }
    ensures { result ≡ as_frame_size (frame_size packet.now at) }
{
    let fmbw = match read_positive(packet, at, 16) {
        Field::Got(is, next) => Value { is, next },
        Field::Refused(k, e) => return FrameSizeAnswer::Refused(k, e),
    };
    let fmbh = match read_positive(packet, fmbw.next, 16) {
        Field::Got(is, next) => Value { is, next },
        Field::Refused(k, e) => return FrameSizeAnswer::Refused(k, e),
    };
    let across = 16 * fmbw.is;
    let up = 16 * fmbh.is;
    let picw = match read_at_most(packet, fmbh.next, 24, across) {
        Field::Got(is, next) => Value { is, next },
        Field::Refused(k, e) => return FrameSizeAnswer::Refused(k, e),
    };
    let pich = match read_at_most(packet, picw.next, 24, up) {
        Field::Got(is, next) => Value { is, next },
        Field::Refused(k, e) => return FrameSizeAnswer::Refused(k, e),
    };
    let picx = match read_at_most(packet, pich.next, 8, across - picw.is) {
        Field::Got(is, next) => Value { is, next },
        Field::Refused(k, e) => return FrameSizeAnswer::Refused(k, e),
    };
    let picy = match read_at_most(packet, picx.next, 8, up - pich.is) {
        Field::Got(is, next) => Value { is, next },
        Field::Refused(k, e) => return FrameSizeAnswer::Refused(k, e),
    };
    FrameSizeAnswer::Is(
        FrameSize {
            fmbw: fmbw.is as u64,
            fmbh: fmbh.is as u64,
            picw: picw.is as u64,
            pich: pich.is as u64,
            picx: picx.is as u64,
            picy: picy.is as u64,
        },
        picy.next,
    )
}
