// Groups of fields of headers: what every header begins with, the rates, the coding.
#![tactic(auto)]

ghost use Rattle.bitstream.specs.Bits.{longest};
ghost use Rattle.std.specs.Prelude.{◌≡◌, ◌≤◌, length};
ghost use Rattle.bitstream.specs.Answer.{as_end};
ghost use Rattle.header_groups.specs.Judgement.{common_header};
ghost use Rattle.header_groups.specs.Groups.{rates, coding, as_rates, as_coding};

use bitstream::{End, Field};
use header_fields::Value;

// The rates.
#[derive(Clone, Copy)]
pub struct Rates {
    pub frn: u64,
    pub frd: u64,
    pub parn: u64,
    pub pard: u64,
    pub cs: u64,
}

#[derive(Clone, Copy)]
pub enum RatesAnswer {
    Is(Rates, usize),
    Refused(u32, usize),
}

// How a recording is coded.
#[derive(Clone, Copy)]
pub struct Coding {
    pub nombr: u64,
    pub qual: u64,
    pub kfgshift: u64,
    pub pf: u64,
}

#[derive(Clone, Copy)]
pub enum CodingAnswer {
    Is(Coding, usize),
    Refused(u32, usize),
}

// What every header begins with: its type byte, and "theora".
pub fn read_common_header(packet: &[u8], at: usize, mark: u32) -> End
    requires { length packet.now ≤ longest }
    ensures { result ≡ as_end (common_header mark packet.now at) }
{
    let wanted = [mark, 0x74, 0x68, 0x65, 0x6F, 0x72, 0x61];
    let mut place = at;
    let mut i = 0;
    while i < 7 {
        match header_fields::read_exactly(packet, place, 8, wanted[i], bitstream::OTHER_HEADER) {
            Field::Got(_, next) => place = next,
            Field::Refused(k, e) => return End::Refused(k, e),
        }
        i += 1;
    }
    End::At(place)
}

pub fn read_rates(packet: &[u8], at: usize) -> RatesAnswer
    requires { length packet.now ≤ longest }
    ensures { result ≡ as_rates (rates packet.now at) }
{
    let frn = match header_fields::read_positive(packet, at, 32) {
        Field::Got(is, next) => Value { is, next },
        Field::Refused(k, e) => return RatesAnswer::Refused(k, e),
    };
    let frd = match header_fields::read_positive(packet, frn.next, 32) {
        Field::Got(is, next) => Value { is, next },
        Field::Refused(k, e) => return RatesAnswer::Refused(k, e),
    };
    let parn = match bitstream::read(packet, frd.next, 24) {
        Field::Got(is, next) => Value { is, next },
        Field::Refused(k, e) => return RatesAnswer::Refused(k, e),
    };
    let pard = match bitstream::read(packet, parn.next, 24) {
        Field::Got(is, next) => Value { is, next },
        Field::Refused(k, e) => return RatesAnswer::Refused(k, e),
    };
    let cs = match bitstream::read(packet, pard.next, 8) {
        Field::Got(is, next) => Value { is, next },
        Field::Refused(k, e) => return RatesAnswer::Refused(k, e),
    };
    RatesAnswer::Is(
        Rates {
            frn: frn.is as u64,
            frd: frd.is as u64,
            parn: parn.is as u64,
            pard: pard.is as u64,
            cs: cs.is as u64,
        },
        cs.next,
    )
}

pub fn read_coding(packet: &[u8], at: usize) -> CodingAnswer
    requires { length packet.now ≤ longest }
    ensures { result ≡ as_coding (coding packet.now at) }
{
    let nombr = match bitstream::read(packet, at, 24) {
        Field::Got(is, next) => Value { is, next },
        Field::Refused(k, e) => return CodingAnswer::Refused(k, e),
    };
    let qual = match bitstream::read(packet, nombr.next, 6) {
        Field::Got(is, next) => Value { is, next },
        Field::Refused(k, e) => return CodingAnswer::Refused(k, e),
    };
    let kfgshift = match bitstream::read(packet, qual.next, 5) {
        Field::Got(is, next) => Value { is, next },
        Field::Refused(k, e) => return CodingAnswer::Refused(k, e),
    };
    let pf = match header_fields::read_format_code(packet, kfgshift.next, 2) {
        Field::Got(is, next) => Value { is, next },
        Field::Refused(k, e) => return CodingAnswer::Refused(k, e),
    };
    let zero_bits = match header_fields::read_exactly(
        packet,
        pf.next,
        3,
        0,
        bitstream::BAD_FORMAT,
    ) {
        Field::Got(is, next) => Value { is, next },
        Field::Refused(k, e) => return CodingAnswer::Refused(k, e),
    };
    CodingAnswer::Is(
        Coding {
            nombr: nombr.is as u64,
            qual: qual.is as u64,
            kfgshift: kfgshift.is as u64,
            pf: pf.is as u64,
        },
        zero_bits.next,
    )
}
