// A frame packet, read to its end into work memory. Work memory is all zero before; afterwards it holds what was read, or, after a refusal, is all zero.
#![tactic(auto)]

ghost use Rattle.std.specs.Prelude.{◌≡◌, ◌≤◌, length};
ghost use Rattle.bitstream.specs.Bits.{longest};
ghost use Rattle.bitstream.specs.Reading.{got, refused};
ghost use Rattle.geometry.specs.Sizes.{largest};
ghost use Rattle.tokens.specs.Answer.{Tables, trees_of};
ghost use Rattle.work_memory.specs.Memory.{work};
ghost use Rattle.work_memory.specs.Lengths.{published, cleared};
ghost use Rattle.packet_body.specs.Frame.{repeat_frame, frame_packet};
ghost use Rattle.frame_packet.specs.Work.{as_frame, work_after, work_kept};

use bitstream::End;
use frame_header::{Header, Kind};
use geometry::PixelFormat;
pub use packet_body::Read;
use packet_opening::Opening;

// A frame's header beside it: that of a repeat after a refusal.
#[derive(Clone, Copy)]
pub struct FrameRead {
    pub read: Read,
    pub header: Header,
}

fn refusal(k: u32, e: usize) -> FrameRead
    ensures { result ≡ as_frame (refused k e) }
{
    FrameRead {
        read: Read::Refused(k, e),
        header: Header {
            kind: Kind::Repeat,
            qis: [0, 0, 0],
            count: 0,
        },
    }
}

// An empty packet where there are references.
fn repeat(format: PixelFormat, w: u64, h: u64) -> FrameRead
    ensures { result ≡ as_frame (got (repeat_frame format w h) 0) }
{
    FrameRead {
        read: Read::Whole(0, 0, 0),
        header: Header {
            kind: Kind::Repeat,
            qis: [0, 0, 0],
            count: 0,
        },
    }
}

// A frame packet, read to its end. The modes stay.
pub fn read_kept(
    packet: &[u8],
    references: bool,
    nodes: &[u8],
    format: PixelFormat,
    w: u64,
    h: u64,
    records: &mut [u32],
    coded: &mut [u64],
    coefs: &mut [i16],
    lasts: &mut [u8],
    flags: &mut [u8],
    bits: &mut [u8],
    supers: &mut [u8],
    modes: &mut [u8],
    active: &mut [u64],
) -> FrameRead
    requires { (length packet.now ≤ longest) × (w ≤ largest) × (h ≤ largest) × Tables nodes.now × (work records.old coded.old coefs.old lasts.old flags.old bits.old supers.old modes.old active.old ≡ (cleared (published format w h)).work) }
    ensures value { result ≡ as_frame (frame_packet format w h (trees_of nodes.now) references packet.now) }
    ensures active_after { work records.new coded.new coefs.new lasts.new flags.new bits.new supers.new modes.new active.new ≡ work_kept format w h (frame_packet format w h (trees_of nodes.now) references packet.now) }
{
    let opening = packet_opening::open_packet(packet.len(), references);
    match opening {
        Opening::Repeat => return repeat(format, w, h),
        Opening::NoReferences => return refusal(bitstream::NO_REFERENCES, 0),
        Opening::Header => (),
    }
    let head = frame_header::read_header(packet, references);
    let done = head.done;
    match done {
        End::Refused(k, e) => refusal(k, e),
        End::At(at) => {
            let header = head.header;
            let kind = header.kind;
            let qis = header.count;
            let read = packet_body::read_body(
                packet, at, kind, qis as u32, nodes, format, w, h, records, coded, coefs, lasts,
                flags, bits, supers, modes, active,
            );
            match read {
                Read::Refused(k, e) => {
                    work_memory::clear_read(records, coded, coefs, lasts);
                    let all = bits.len();
                    work_memory::clear_scratch(all, flags, bits, supers, active);
                    let macros = modes.len();
                    buffer::clear_bytes(modes, macros);
                    refusal(k, e)
                }
                Read::Whole(count, _, _) => {
                    work_memory::clear_scratch(count, flags, bits, supers, active);
                    FrameRead {
                        read: read,
                        header: header,
                    }
                }
            }
        }
    }
}

// The same, and the modes are cleared, too.
pub fn read_frame(
    packet: &[u8],
    references: bool,
    nodes: &[u8],
    format: PixelFormat,
    w: u64,
    h: u64,
    records: &mut [u32],
    coded: &mut [u64],
    coefs: &mut [i16],
    lasts: &mut [u8],
    flags: &mut [u8],
    bits: &mut [u8],
    supers: &mut [u8],
    modes: &mut [u8],
    active: &mut [u64],
) -> FrameRead
    requires { (length packet.now ≤ longest) × (w ≤ largest) × (h ≤ largest) × Tables nodes.now × (work records.old coded.old coefs.old lasts.old flags.old bits.old supers.old modes.old active.old ≡ (cleared (published format w h)).work) }
    ensures value { result ≡ as_frame (frame_packet format w h (trees_of nodes.now) references packet.now) }
    ensures active_after { work records.new coded.new coefs.new lasts.new flags.new bits.new supers.new modes.new active.new ≡ work_after format w h (frame_packet format w h (trees_of nodes.now) references packet.now) }
{
    let got = read_kept(
        packet, references, nodes, format, w, h, records, coded, coefs, lasts, flags, bits, supers,
        modes, active,
    );
    let macros = modes.len();
    buffer::clear_bytes(modes, macros);
    got
}
