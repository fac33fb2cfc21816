// The session record, the identification header, and the sizes of a session's frames.
#![tactic(auto)]

ghost use Rattle.bitstream.specs.Bits.{longest};
ghost use Rattle.std.specs.Prelude.{◌≡◌, ◌≤◌, ◌<◌, ◌^◌, length};
ghost use Rattle.headers.specs.Identification.{identification, as_identification};
ghost use Rattle.headers.specs.Fits.{widths_fit, picture_inside, ranges_hold, session_fits, within_shift};
ghost use Rattle.headers.specs.Sizes.{format_of, session_sizes};

use bitstream::{End, Field};
use geometry::{FrameSizes, PixelFormat};
use header_fields::{FrameSizeAnswer, Value};
pub use header_groups::read_common_header;
use header_groups::{CodingAnswer, RatesAnswer};

// The identification fields, under the specification's names.
#[derive(Clone, Copy)]
pub struct Fields {
    pub vrev: u64,
    pub fmbw: u64,
    pub fmbh: u64,
    pub picw: u64,
    pub pich: u64,
    pub picx: u64,
    pub picy: u64,
    pub frn: u64,
    pub frd: u64,
    pub parn: u64,
    pub pard: u64,
    pub cs: u64,
    pub nombr: u64,
    pub qual: u64,
    pub kfgshift: u64,
    pub pf: u64,
}

// What is known of a recording between its packets: the identification fields, whether references exist, how many key frames were accepted and how many
// other packets since the last of them.
#[derive(Clone, Copy)]
pub struct Session {
    pub fields: Fields,
    pub references: bool,
    pub key_frames: u64,
    pub others: u64,
}

// The fresh session, or the number of the refusal and its bit place.
#[derive(Clone, Copy)]
pub enum IdentificationAnswer {
    Accepted(Session),
    Refused(u32, usize),
}

// The fresh session of a packet that is short enough for its bit places.
fn read_session(packet: &[u8]) -> IdentificationAnswer
    requires { length packet.now ≤ longest }
    ensures { result ≡ as_identification (identification packet.now 0) }
{
    let start = match header_groups::read_common_header(packet, 0, 0x80) {
        End::At(next) => next,
        End::Refused(k, e) => return IdentificationAnswer::Refused(k, e),
    };
    let vrev = match header_fields::read_version(packet, start) {
        Field::Got(is, next) => Value { is, next },
        Field::Refused(k, e) => return IdentificationAnswer::Refused(k, e),
    };
    match header_fields::read_frame_size(packet, vrev.next) {
        FrameSizeAnswer::Refused(k, e) => IdentificationAnswer::Refused(k, e),
        FrameSizeAnswer::Is(f, rates_at) => match header_groups::read_rates(packet, rates_at) {
            RatesAnswer::Refused(k, e) => IdentificationAnswer::Refused(k, e),
            RatesAnswer::Is(r, coding_at) => match header_groups::read_coding(packet, coding_at) {
                CodingAnswer::Refused(k, e) => IdentificationAnswer::Refused(k, e),
                CodingAnswer::Is(c, _) => {
                    let revision = vrev.is as u64;
                    IdentificationAnswer::Accepted(Session {
                        fields: Fields {
                            vrev: revision,
                            fmbw: f.fmbw,
                            fmbh: f.fmbh,
                            picw: f.picw,
                            pich: f.pich,
                            picx: f.picx,
                            picy: f.picy,
                            frn: r.frn,
                            frd: r.frd,
                            parn: r.parn,
                            pard: r.pard,
                            cs: r.cs,
                            nombr: c.nombr,
                            qual: c.qual,
                            kfgshift: c.kfgshift,
                            pf: c.pf,
                        },
                        references: false,
                        key_frames: 0,
                        others: 0,
                    })
                }
            },
        },
    }
}

// Reads an identification header: the fresh session, or the number of the refusal and its bit place.
pub fn identification(packet: &[u8]) -> IdentificationAnswer
    ensures { result ≡ as_identification (identification packet.now 0) }
{
    read_session(bitstream::readable(packet))
}

// Every identification field is within its width.
fn widths_fit(f: Fields) -> bool
    ensures { result ≡ widths_fit f }
{
    (f.vrev < 256)
        & (f.fmbw < 65536)
        & (f.fmbh < 65536)
        & (f.picw < 16777216)
        & (f.pich < 16777216)
        & (f.picx < 256)
        & (f.picy < 256)
        & (f.frn < 4294967296)
        & (f.frd < 4294967296)
        & (f.parn < 16777216)
        & (f.pard < 16777216)
        & (f.cs < 256)
        & (f.nombr < 16777216)
        & (f.qual < 64)
        & (f.kfgshift < 32)
        & (f.pf < 4)
}

// A picture's size and offset along one axis lie in the frame.
fn picture_inside(frame: u64, size: u64, offset: u64) -> bool
    ensures { result ≡ picture_inside frame size offset }
{
    if frame < size {
        return false;
    }
    offset <= frame - size
}

// 5 and 6 hold of the identification fields.
fn ranges_hold(f: Fields) -> bool
    requires { (f.fmbw < 2 ^ 16) × (f.fmbh < 2 ^ 16) }
    ensures { result ≡ ranges_hold f }
{
    let across = picture_inside(16 * f.fmbw, f.picw, f.picx);
    let up = picture_inside(16 * f.fmbh, f.pich, f.picy);
    (0 < f.fmbw) & (0 < f.fmbh) & across & up & (0 < f.frn) & (0 < f.frd) & (f.pf != 1)
}

// Whether so many packets since a key frame stay below 2 to the power KFGSHIFT.
pub fn within_shift(f: Fields, n: u64) -> bool
    requires { f.kfgshift < 32 }
    ensures { result ≡ within_shift f n }
{
    let bound: u64 = 1 << f.kfgshift;
    n < bound
}

// The identification part of number 8: whether the fields keep 5, 6 and their widths, and the packets since the last key frame their bound.
pub fn session_fits(s: Session) -> bool
    ensures { result ≡ session_fits s }
{
    let f = s.fields;
    if widths_fit(f) {
        if ranges_hold(f) {
            return within_shift(f, s.others);
        }
    }
    false
}

// The pixel format that a session's PF says.
pub fn pixel_format(pf: u64) -> PixelFormat
    ensures { result ≡ format_of pf }
{
    if pf == 0 {
        return PixelFormat::Chroma420;
    }
    if pf == 2 {
        return PixelFormat::Chroma422;
    }
    PixelFormat::Chroma444
}

// The sizes of a session's frames, or number 8.
#[derive(Clone, Copy)]
pub enum SizesAnswer {
    Is(FrameSizes),
    Refused(u32),
}

// The size call: "identification part of 8".
pub fn sizes(s: Session) -> SizesAnswer
    ensures { result ≡ session_sizes s }
{
    if session_fits(s) {
        let format = pixel_format(s.fields.pf);
        return SizesAnswer::Is(geometry::sizes(format, s.fields.fmbw, s.fields.fmbh));
    }
    SizesAnswer::Refused(bitstream::NOT_GENUINE)
}
