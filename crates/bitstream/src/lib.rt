// The bits of a packet, read as fields of up to 32 bits.
#![tactic(auto)]

ghost use Rattle.std.specs.Prelude.{◌≡◌, ℕ, ◌+◌, ◌*◌, ◌/◌, ◌≤◌, ◌^◌, length};
ghost use Rattle.bitstream.specs.Reading.{field, two_fields, unary};
ghost use Rattle.bitstream.specs.Bits.{number, longest};
ghost use Rattle.bitstream.specs.Answer.{as_field, said_place, as_two, two_of, readable};

// A field's value and the bit place behind it, or the number of the refusal and the place of the field at fault.
#[derive(Clone, Copy)]
pub enum Field {
    Got(u32, usize),
    Refused(u32, usize),
}

// The bit place behind what was read, or the number of the refusal and the place of the field at fault.
#[derive(Clone, Copy)]
pub enum End {
    At(usize),
    Refused(u32, usize),
}

// Two fields, one behind the other, and the place behind them; or the refusal of the first that is not there.
#[derive(Clone, Copy)]
pub enum Two {
    Got(u32, u32, usize),
    Refused(u32, usize),
}

// The reader of bits holds the lent packet and its bit place.
#[derive(Clone, Copy)]
pub struct BitReader<'a> {
    pub packet: &'a [u8],
    pub place: usize,
}

// ---- the numbers of refusals: docs/NUMBERS.md says when each is given

// A lent length differs from the published one.
pub const WRONG_LENGTH: u32 = 1;
// A header's type byte or "theora" is not the wanted one.
pub const OTHER_HEADER: u32 = 2;
// VMAJ is not 3, or VMIN is not 2.
pub const OTHER_VERSION: u32 = 3;
// A read passes the end of the packet.
pub const PACKET_ENDS: u32 = 4;
// An identification field breaks its range.
pub const OUT_OF_RANGE: u32 = 5;
// PF is 1, or the 3 last identification bits are not 0.
pub const BAD_FORMAT: u32 = 6;
// NBMS, a matrix index, a qi sum, a code's length or the number of leaves breaks its bound.
pub const BAD_SETUP: u32 = 7;
// No accepted header leaves this session, or this table memory.
pub const NOT_GENUINE: u32 = 8;
// An inter or empty packet and no references.
pub const NO_REFERENCES: u32 = 9;
// The first bit of a frame packet is 1.
pub const NO_FRAME: u32 = 10;
// An intra frame's 3 reserved bits are not 0.
pub const RESERVED_BITS: u32 = 11;
// A run exceeds the bits still wanted.
pub const LONG_RUN: u32 = 12;
// A token moves its block past position 64.
pub const PAST_BLOCK: u32 = 13;
// The lent output is too short.
pub const SHORT_OUTPUT: u32 = 14;
// A sum of a census would pass 64 bits.
pub const PAST_COUNT: u32 = 15;
// The lengths of packets reach past the joined bytes.
pub const PAST_PACKETS: u32 = 16;
// One packet more than the session can count.
pub const UNCOUNTED: u32 = 17;
// CS is neither 1 nor 2.
pub const UNKNOWN_COLOUR: u32 = 18;
// A reader for version 1 is given a text of version 2.
pub const LATER_VERSION: u32 = 19;
// Any other fault of a settings text, or of settings.
pub const BAD_SETTINGS: u32 = 20;
// The stream is none that the writer writes.
pub const OTHER_STREAM: u32 = 21;

// The longest part of a packet that is looked at, in bytes: every bit place in it fits 64 bits, and no reader gets so far.
const LONGEST: usize = 288230376151711744;

// The part of a packet that is handed on to readers.
pub fn readable(packet: &[u8]) -> &[u8]
    ensures { result.now ≡ readable packet.now }
{
    if packet.len() <= LONGEST {
        packet
    } else {
        &packet[..LONGEST]
    }
}

// The number of the `count` bytes from the byte `first` on, the first the most significant.
fn bytes_from(packet: &[u8], first: usize, count: usize) -> u64
    requires { (first + count ≤ length packet.now) × (count ≤ 8) }
    ensures { result ≡ number packet.now (first * 8) (count * 8) }
{
    let mut value: u64 = 0;
    let mut k = 0;
    while k < count {
        let byte = packet[first + k] as u64;
        value = value * 256 + byte;
        k += 1;
    }
    value
}

// The 64 bits from the byte of the bit place `at` on; past the end they are 0.
pub fn window(packet: &[u8], at: usize) -> u64
    ensures { result ≡ number packet.now (at / 8 * 8) 64 }
{
    let size = packet.len();
    let first = at / 8;
    if first + 8 <= size {
        return bytes_from(packet, first, 8);
    }
    if size <= first {
        return 0;
    }
    let count = size - first;
    bytes_from(packet, first, count) << (64 - count * 8)
}

// The field of `width` bits at the bit place `at`: out of eight bytes at once, near the end of the packet out of its own.
fn field_at(packet: &[u8], at: usize, width: usize) -> Field
    requires { (length packet.now ≤ longest) × (width ≤ 32) }
    ensures { result ≡ as_field (field width packet.now at) }
{
    let total = packet.len() * 8;
    if total < at {
        return Field::Refused(PACKET_ENDS, at);
    }
    let end = at + width;
    let first = at / 8;
    if at + 64 <= total {
        // halved first, so that the shift is below 64 even where the field has no bits
        let halved = bytes_from(packet, first, 8) / 2;
        let value = ((halved >> (63 - at % 8 - width)) % (1 << width)) as u32;
        return Field::Got(value, end);
    }
    if total < end {
        return Field::Refused(PACKET_ENDS, at);
    }
    let last = (end + 7) / 8;
    let own = bytes_from(packet, first, last - first);
    let value = ((own >> (last * 8 - end)) % (1 << width)) as u32;
    Field::Got(value, end)
}

// A reader of a packet that stands at a bit place.
pub fn reader_at<'a>(packet: &'a [u8], place: usize) -> BitReader<'a>
    ensures { (result.packet ≡ packet.entry) × (result.place ≡ place) }
{
    BitReader { packet, place }
}

// The same reader, moved to another bit place.
pub fn moved<'a>(reader: BitReader<'a>, place: usize) -> BitReader<'a>
    ensures { (result.packet ≡ reader.entry.packet) × (result.place ≡ place) }
{
    BitReader {
        packet: reader.packet,
        place,
    }
}

// The field of `width` bits at the reader's place.
pub fn next_field<'a>(reader: BitReader<'a>, width: usize) -> Field
    requires { (length reader.packet.now ≤ longest) × (width ≤ 32) }
    ensures { result ≡ as_field (field width reader.entry.packet.now reader.entry.place) }
{
    field_at(reader.packet, reader.place, width)
}

// The field of `width` bits at the bit place `at`, by a reader that stands there.
pub fn read(packet: &[u8], at: usize, width: usize) -> Field
    requires { (length packet.now ≤ longest) × (width ≤ 32) }
    ensures { result ≡ as_field (field width packet.now at) }
{
    next_field(reader_at(packet, at), width)
}

// How many 1s come before a 0, at most `ones`: a number in unary.
pub fn read_unary(packet: &[u8], at: usize, ones: u32) -> Field
    requires { length packet.now ≤ longest }
    ensures { result ≡ as_field (unary ones 0 packet.now at) }
{
    let mut r: u32 = 0;
    let mut place = at;
    while r < ones {
        let one = read(packet, place, 1);
        match one {
            Field::Refused(k, e) => {
                return Field::Refused(k, e);
            }
            Field::Got(b, next) => {
                if b == 0 {
                    return Field::Got(r, next);
                }
                place = next;
                r += 1;
            }
        }
    }
    Field::Got(r, place)
}

// The place that a field's answer says.
fn said_place(field: Field) -> usize
    ensures { result ≡ said_place field }
{
    match field {
        Field::Got(_, next) => next,
        Field::Refused(_, fault) => fault,
    }
}

// Two answers as one.
fn two_of(first: Field, second: Field) -> Two
    ensures { result ≡ two_of first second }
{
    match first {
        Field::Refused(number, fault) => Two::Refused(number, fault),
        Field::Got(a, _) => match second {
            Field::Refused(number, fault) => Two::Refused(number, fault),
            Field::Got(b, next) => Two::Got(a, b, next),
        },
    }
}

// The field of `width` bits at another place: the reader is moved there.
pub fn field_from<'a>(reader: BitReader<'a>, place: usize, width: usize) -> Field
    requires { (length reader.packet.now ≤ longest) × (width ≤ 32) }
    ensures { result ≡ as_field (field width reader.entry.packet.now place) }
{
    next_field(moved(reader, place), width)
}

// Two fields, of `first` and of `second` bits, from the reader's place on.
pub fn next_two<'a>(reader: BitReader<'a>, first: usize, second: usize) -> Two
    requires { (length reader.packet.now ≤ longest) × (first ≤ 32) × (second ≤ 32) }
    ensures { result ≡ as_two (two_fields first second reader.entry.packet.now reader.entry.place) }
{
    let one = next_field(reader, first);
    two_of(one, field_from(reader, said_place(one), second))
}

// Two fields, of `first` and of `second` bits, at the bit place `at`, by a reader that stands there.
pub fn read_two(packet: &[u8], at: usize, first: usize, second: usize) -> Two
    requires { (length packet.now ≤ longest) × (first ≤ 32) × (second ≤ 32) }
    ensures { result ≡ as_two (two_fields first second packet.now at) }
{
    next_two(reader_at(packet, at), first, second)
}
