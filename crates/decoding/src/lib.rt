// A frame packet, decoded by a session and a table memory: what is answered, the frame, and work memory, which is all zero before and after.
#![tactic(auto)]

ghost use Rattle.bitstream.specs.Bits.{longest};
ghost use Rattle.std.specs.Prelude.{◌≡◌, true, false, ◌*◌, ◌≤◌, ◌<◌, length, get_or};
ghost use Rattle.quantization.specs.Sound.{Held as HeldParameters};
ghost use Rattle.matrices.specs.All.{AllQi};
ghost use Rattle.kept_matrices.specs.Kept.{Keeps, Serves};
ghost use Rattle.setup.specs.Header.{Setup};
ghost use Rattle.setup.specs.Loaded.{Holds, Held};
ghost use Rattle.setup.specs.Table.{table_bytes};
ghost use Rattle.ways.specs.Ways.{first_way};
ghost use Rattle.headers.specs.Fits.{session_fits};
ghost use Rattle.work_memory.specs.Memory.{work, memory};
ghost use Rattle.work_memory.specs.Lengths.{blocks, lengths_of, cleared};
ghost use Rattle.reading.specs.Answer.{read};
ghost use Rattle.asked_frame.specs.Answer.{state, done, decoded};
ghost use Rattle.decoding.specs.Ready.{Ready};

use asked_frame::Next;
use bitstream::End;
use frame_header::Header;
use geometry::PixelFormat;
use headers::Session;
use kept_matrices::KeptMatrices;
use quantization::LoadedParameters;
use reading::FrameAnswer;
use setup::LoadedSetup;

// The loop limit of the first qi.
fn limit_of(limits: [u16; 64], qis: [u8; 3]) -> u32
    requires { (get_or qis 0 0 < 64) × (get_or limits (get_or qis 0 0) 0 ≤ 127) }
    ensures { result ≡ get_or limits (get_or qis 0 0) 0 }
{
    let first = qis[0] as usize;
    limits[first] as u32
}

// A packet that was read: what it answers and, if it is accepted, what its frame is made from beside the lists in work memory.
#[derive(Clone, Copy)]
pub struct Prepared {
    pub answer: FrameAnswer,
    pub accepted: bool,
    pub count: usize,
    pub limit: u32,
    pub format: PixelFormat,
    pub kept: KeptMatrices,
}

// A packet that is refused: no frame is to be made, and the matrices that are kept stay.
fn refuse(answer: FrameAnswer, format: PixelFormat, kept: KeptMatrices) -> Prepared
    ensures { (result.accepted ≡ false) × (result.answer ≡ answer) × (result.kept ≡ kept) }
{
    Prepared {
        answer,
        accepted: false,
        count: 0,
        limit: 0,
        format,
        kept,
    }
}

// A packet that is accepted, by its header and the number of its coded blocks. Inlined, so that the matrices are copied between places that do not overlap: by memcpy, not by memmove.
#[inline(always)]
fn accept(
    table: &[u8],
    parameters: LoadedParameters,
    limits: [u16; 64],
    kept: KeptMatrices,
    answer: FrameAnswer,
    header: Header,
    count: usize,
    format: PixelFormat,
) -> Prepared
    requires { (length table.now ≤ longest) × HeldParameters table.now parameters × Keeps table.now parameters kept × (header.count ≤ 3) × AllQi header.qis 3 × (get_or limits (get_or header.qis 0 0) 0 ≤ 127) }
    ensures { (result.accepted ≡ true) × (result.answer ≡ answer) × (result.count ≡ count) × (result.limit ≡ get_or limits (get_or header.qis 0 0) 0) × (result.format ≡ format)
        × Serves table.now parameters header.qis header.count result.kept }
{
    let qis = header.qis;
    let matrices = kept_matrices::kept_for(table, parameters, qis, header.count, kept);
    let limit = limit_of(limits, qis);
    Prepared {
        answer,
        accepted: true,
        count,
        limit,
        format,
        kept: matrices,
    }
}

// A packet, read by a setup that was loaded and matrices that are kept. Work memory is all zero before; after an accepted packet it holds the frame's blocks, and else it is all zero.
// Inlined, so that the setup, which goes by value, is on the stack once less.
#[inline(always)]
pub fn read_packet(
    s: Session,
    packet: &[u8],
    table: &[u8],
    loaded: LoadedSetup,
    kept: KeptMatrices,
    records: &mut [u32],
    coded: &mut [u64],
    coefs: &mut [i16],
    lasts: &mut [u8],
    flags: &mut [u8],
    bits: &mut [u8],
    supers: &mut [u8],
    modes: &mut [u8],
    active: &mut [u64],
) -> Prepared
    requires s_value { (session_fits s ≡ true) × (length packet.now ≤ longest) × (length table.now ≤ longest) × Held table.now loaded × Keeps table.now loaded.parameters kept }
    requires active_value { work records.old coded.old coefs.old lasts.old flags.old bits.old supers.old modes.old active.old ≡ (cleared (lengths_of s)).work }
    ensures ready { (setup : Setup) → Holds table.now loaded setup
        → Ready s setup packet.now result (work records.new coded.new coefs.new lasts.new flags.new bits.new supers.new modes.new active.new) }
    ensures keeps { Keeps table.now loaded.parameters result.kept }
{
    let format = headers::pixel_format(s.fields.pf);
    let w = s.fields.fmbw;
    let h = s.fields.fmbh;
    let got = frame_packet::read_frame(
        packet,
        s.references,
        &loaded.nodes,
        format,
        w,
        h,
        records,
        coded,
        coefs,
        lasts,
        flags,
        bits,
        supers,
        modes,
        active,
    );
    let judged = asked_frame::judge(got, s);
    let answer = judged.answer;
    let next = judged.next;
    match next {
        Next::Nothing => refuse(answer, format, kept),
        Next::Clear => {
            work_memory::clear_read(records, coded, coefs, lasts);
            refuse(answer, format, kept)
        }
        Next::Make(count) => {
            let header = got.header;
            let limits = loaded.limits;
            accept(
                table,
                loaded.parameters,
                limits,
                kept,
                answer,
                header,
                count,
                format,
            )
        }
    }
}

// A packet, by table memory. Work memory is all zero before and after.
pub fn decode(
    s: Session,
    packet: &[u8],
    table: &[u8],
    records: &mut [u32],
    coded: &mut [u64],
    coefs: &mut [i16],
    dc: &mut [i16],
    lasts: &mut [u8],
    flags: &mut [u8],
    bits: &mut [u8],
    supers: &mut [u8],
    modes: &mut [u8],
    active: &mut [u64],
    golden: &[u8],
    previous: &[u8],
    new: &mut [u8],
) -> FrameAnswer
    requires { (session_fits s ≡ true) × (length packet.now ≤ longest) × (length table.now ≡ table_bytes)
        × (memory records.old coded.old coefs.old dc.old lasts.old flags.old bits.old supers.old modes.old active.old ≡ cleared (lengths_of s))
        × (length new.old ≡ 64 * blocks s) × (length golden.now ≡ 64 * blocks s) × (length previous.now ≡ 64 * blocks s) }
    ensures { done result new.new (memory records.new coded.new coefs.new dc.new lasts.new flags.new bits.new supers.new modes.new active.new)
        ≡ decoded first_way (state s golden.now previous.now) new.old (read s table.now packet.now) }
{
    let held = setup::load_table(table);
    let place = held.place;
    match place {
        End::Refused(_, _) => reading::refusal(bitstream::NOT_GENUINE, 0, s),
        End::At(_) => {
            let nothing = kept_matrices::none();
            let ready = read_packet(
                s, packet, table, held.setup, nothing, records, coded, coefs, lasts, flags, bits,
                supers, modes, active,
            );
            let answer = ready.answer;
            if ready.accepted {
                let matrices = ready.kept;
                let format = ready.format;
                let w = s.fields.fmbw;
                let h = s.fields.fmbh;
                making::make_frame(
                    new,
                    golden,
                    previous,
                    records,
                    coded,
                    ready.count,
                    coefs,
                    dc,
                    lasts,
                    &matrices.values,
                    ready.limit,
                    format,
                    w,
                    h,
                );
                return answer;
            }
            answer
        }
    }
}
