// What stands behind the header of a frame packet, read into work memory.
#![tactic(auto)]

ghost use Rattle.std.specs.Prelude.{◌≡◌, map, ◌*◌, ◌≤◌, ◌^◌, pos, length, replicate};
ghost use Rattle.bitstream.specs.Bits.{longest};
ghost use Rattle.bitstream.specs.Reading.{bind};
ghost use Rattle.geometry.specs.Sizes.{blocks_of, super_blocks_of, macro_blocks_of, largest};
ghost use Rattle.bitstream.specs.Lists.{Once, AllBelow};
ghost use Rattle.bitstream.specs.Answer.{Stored, StoredAs, as_end};
ghost use Rattle.block_record.specs.Packed.{packed};
ghost use Rattle.block_record.specs.Memory.{AllPacked, records_of};
ghost use Rattle.block_qi.specs.BlockQi.{block_qi};
ghost use Rattle.tokens.specs.Tokens.{read_tokens};
ghost use Rattle.tokens.specs.Answer.{Tables, trees_of, as_counted};
ghost use Rattle.work_memory.specs.Memory.{work};
ghost use Rattle.work_memory.specs.Lengths.{published, cleared};
ghost use Rattle.packet_body.specs.Frame.{flags_of, modes_of, body};
ghost use Rattle.packet_body.specs.Work.{as_coded, StoredCoded, predictions, StoredModes, StoredTokens, Left, as_read};

use bitstream::End;
use frame_header::Kind;
use geometry::PixelFormat;
use tokens::Counted;

// The numbers of coded blocks and of tokens, and the place behind the packet; or the refusal.
#[derive(Clone, Copy)]
pub enum Read {
    Whole(usize, usize, usize),
    Refused(u32, usize),
}

// The numbers of coded blocks and of coded luma blocks, and the place behind the flags; or the refusal.
#[derive(Clone, Copy)]
enum CodedRead {
    Listed(usize, usize, usize),
    Refused(u32, usize),
}

// The coded flags of a frame, in coded order. `supers` and `bits` are scratch.
fn read_flags(
    packet: &[u8],
    at: usize,
    kind: Kind,
    format: PixelFormat,
    w: u64,
    h: u64,
    supers: &mut [u8],
    bits: &mut [u8],
    flags: &mut [u8],
) -> End
    requires { (length packet.now ≤ longest) × (w ≤ largest) × (h ≤ largest) × (length supers.old ≡ 2 * super_blocks_of format w h) × (length bits.old ≡ blocks_of format w h) × (length flags.old ≡ blocks_of format w h) }
    ensures value { result ≡ as_end (flags_of format w h kind packet.now at) }
    ensures stored { Stored flags.new (flags_of format w h kind packet.now at) }
{
    match kind {
        Kind::Intra => {
            coded_flags::flag_all(flags);
            End::At(at)
        }
        _ => coded_flags::read_flags(packet, at, format, w, h, supers, bits, flags),
    }
}

// The flags, and from them the list of the coded blocks and the records of all.
fn read_coded(
    packet: &[u8],
    at: usize,
    kind: Kind,
    format: PixelFormat,
    w: u64,
    h: u64,
    supers: &mut [u8],
    bits: &mut [u8],
    flags: &mut [u8],
    records: &mut [u32],
    coded: &mut [u64],
) -> CodedRead
    requires packet_len_bound { (length packet.now ≤ longest) × (w ≤ largest) × (h ≤ largest) × (length supers.old ≡ 2 * super_blocks_of format w h) × (length bits.old ≡ blocks_of format w h) × (length flags.old ≡ blocks_of format w h) }
    requires records_value { (records.old ≡ replicate (blocks_of format w h) 0) × (coded.old ≡ replicate (blocks_of format w h) 0) }
    ensures value { result ≡ as_coded format w h (flags_of format w h kind packet.now at) }
    ensures stored_coded { StoredCoded format w h flags.new records.new coded.new (flags_of format w h kind packet.now at) }
{
    let done = read_flags(packet, at, kind, format, w, h, supers, bits, flags);
    match done {
        End::Refused(k, e) => CodedRead::Refused(k, e),
        End::At(place) => {
            let listed = coded_list::list_coded(format, w, h, flags, records, coded);
            CodedRead::Listed(listed.count, listed.luma, place)
        }
    }
}

// The modes of a frame's macro blocks, and by them the predictions of its coded blocks, into their records.
fn read_predictions(
    packet: &[u8],
    at: usize,
    kind: Kind,
    format: PixelFormat,
    w: u64,
    h: u64,
    flags: &[u8],
    modes: &mut [u8],
    records: &mut [u32],
) -> End
    requires { (length packet.now ≤ longest) × (w ≤ largest) × (h ≤ largest) × (length flags.now ≡ blocks_of format w h) × (modes.old ≡ replicate (macro_blocks_of w h) 0) × (length records.old ≡ blocks_of format w h) × AllPacked records.old }
    ensures value { result ≡ as_end (predictions format w h kind flags.now (records_of records.old) packet.now at) }
    ensures stored_as { StoredAs (map packed) records.new (predictions format w h kind flags.now (records_of records.old) packet.now at) }
    ensures stored_modes { StoredModes format w h modes.new (modes_of format w h kind flags.now packet.now at) }
{
    match kind {
        Kind::Intra => End::At(at),
        _ => {
            let read = modes::read_modes(packet, at, flags, modes);
            match read {
                End::Refused(k, e) => End::Refused(k, e),
                End::At(next) => vectors::read_vectors(packet, next, format, w, h, modes, records),
            }
        }
    }
}

// The modes, the predictions, and then the qi indices, of the coded blocks. `bits` is scratch.
fn read_records(
    packet: &[u8],
    at: usize,
    kind: Kind,
    qis: u32,
    format: PixelFormat,
    w: u64,
    h: u64,
    flags: &[u8],
    coded: &[u64],
    bits: &mut [u8],
    modes: &mut [u8],
    records: &mut [u32],
) -> End
    requires packet_len_bound { (length packet.now ≤ longest) × (w ≤ largest) × (h ≤ largest) × (length flags.now ≡ blocks_of format w h) × (modes.old ≡ replicate (macro_blocks_of w h) 0) × (length records.old ≡ blocks_of format w h) × AllPacked records.old }
    requires qis_bound { (qis ≤ 3) × Once coded.now × AllBelow (blocks_of format w h) coded.now × (length coded.now ≤ length bits.old) }
    ensures value { result ≡ as_end (bind (predictions format w h kind flags.now (records_of records.old)) (block_qi qis coded.now) packet.now at) }
    ensures stored_as { StoredAs (map packed) records.new (bind (predictions format w h kind flags.now (records_of records.old)) (block_qi qis coded.now) packet.now at) }
    ensures stored_modes { StoredModes format w h modes.new (modes_of format w h kind flags.now packet.now at) }
{
    let done = read_predictions(packet, at, kind, format, w, h, flags, modes, records);
    match done {
        End::Refused(k, e) => End::Refused(k, e),
        End::At(next) => block_qi::read_block_qi(packet, next, qis, coded, bits, records),
    }
}

// The coefficients and the last visits of the coded blocks. `bits`, which may hold anything, serves for the blocks' positions.
fn read_coefs(
    packet: &[u8],
    at: usize,
    nodes: &[u8],
    luma: usize,
    count: usize,
    coefs: &mut [i16],
    lasts: &mut [u8],
    bits: &mut [u8],
    active: &mut [u64],
) -> Counted
    requires packet_len_bound { (length packet.now ≤ longest) × Tables nodes.now × (luma ≤ count) × (count ≤ length bits.old) × (length bits.old ≤ 2 ^ 36) }
    requires coefs_value { (coefs.old ≡ replicate (64 * length bits.old) (pos 0)) × (lasts.old ≡ replicate (length bits.old) 0) × (active.old ≡ replicate (length bits.old) 0) }
    ensures value { result ≡ as_counted (read_tokens (trees_of nodes.now) luma count packet.now at) }
    ensures stored_tokens { StoredTokens (length bits.old) count coefs.new lasts.new bits.new active.new (read_tokens (trees_of nodes.now) luma count packet.now at) }
{
    let all = bits.len();
    buffer::clear_bytes(bits, all);
    tokens::read_tokens(packet, at, nodes, luma, count, bits, lasts, coefs, active)
}

// What stands behind the header. After a refusal the slices may hold anything; else what was read, and the scratch may hold anything but for zeros
// behind the elements of the coded blocks in `bits` and `active`.
pub fn read_body(
    packet: &[u8],
    at: usize,
    kind: Kind,
    qis: u32,
    nodes: &[u8],
    format: PixelFormat,
    w: u64,
    h: u64,
    records: &mut [u32],
    coded: &mut [u64],
    coefs: &mut [i16],
    lasts: &mut [u8],
    flags: &mut [u8],
    bits: &mut [u8],
    supers: &mut [u8],
    modes: &mut [u8],
    active: &mut [u64],
) -> Read
    requires { (length packet.now ≤ longest) × (w ≤ largest) × (h ≤ largest) × (qis ≤ 3) × Tables nodes.now × (work records.old coded.old coefs.old lasts.old flags.old bits.old supers.old modes.old active.old ≡ (cleared (published format w h)).work) }
    ensures value { result ≡ as_read (body format w h (trees_of nodes.now) kind qis packet.now at) }
    ensures left { Left format w h (work records.new coded.new coefs.new lasts.new flags.new bits.new supers.new modes.new active.new) (body format w h (trees_of nodes.now) kind qis packet.now at) }
{
    let first = read_coded(
        packet, at, kind, format, w, h, supers, bits, flags, records, coded,
    );
    match first {
        CodedRead::Refused(k, e) => Read::Refused(k, e),
        CodedRead::Listed(count, luma, place) => {
            let done = read_records(
                packet,
                place,
                kind,
                qis,
                format,
                w,
                h,
                flags,
                &coded[..count],
                bits,
                modes,
                records,
            );
            match done {
                End::Refused(k, e) => Read::Refused(k, e),
                End::At(next) => {
                    let given = read_coefs(
                        packet, next, nodes, luma, count, coefs, lasts, bits, active,
                    );
                    match given {
                        Counted::Refused(k, e) => Read::Refused(k, e),
                        Counted::Done(end, number) => Read::Whole(count, number, end),
                    }
                }
            }
        }
    }
}
