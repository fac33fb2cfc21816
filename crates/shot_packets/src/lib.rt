// The packets of a shot, applied in order: one packet by a setup that was loaded, and all of a list.
#![tactic(auto)]

ghost use Rattle.std.specs.Prelude.{◌≡◌, true, List, [], ◌∷◌, ◌++◌, ◌*◌, ◌≤◌, length};
ghost use Rattle.headers.specs.Fits.{session_fits};
ghost use Rattle.kept_matrices.specs.Kept.{Keeps};
ghost use Rattle.ways.specs.Ways.{first_way};
ghost use Rattle.work_memory.specs.Memory.{memory};
ghost use Rattle.work_memory.specs.Lengths.{blocks, lengths_of, cleared};
ghost use Rattle.reading.specs.declared.FrameAnswer.{FrameAnswer};
ghost use Rattle.calls.specs.Call.{by_rules};
ghost use Rattle.packet_list.specs.Packets.{total, packets_in, answer_size};
ghost use Rattle.buffer_names.specs.Names.{names_after, Sound};
ghost use Rattle.shot_packets.specs.Play.{shot, one_more};
ghost use Rattle.shot_packets.specs.Inner.{TableLoaded, PlaysAll};

use buffer_names::Names;
use headers::Session;
use kept_matrices::KeptMatrices;
use reading::FrameAnswer;
use setup::LoadedSetup;

// What one packet answers, the names after it, and the matrices that are kept.
#[derive(Clone, Copy)]
pub struct Played {
    pub answer: FrameAnswer,
    pub names: Names,
    pub kept: KeptMatrices,
}

// One packet of a shot: a frame call whose new frame goes into the free buffer.
pub fn play_packet(
    s: Session,
    names: Names,
    packet: &[u8],
    table: &[u8],
    loaded: LoadedSetup,
    kept: KeptMatrices,
    records: &mut [u32],
    coded: &mut [u64],
    coefs: &mut [i16],
    dc: &mut [i16],
    lasts: &mut [u8],
    flags: &mut [u8],
    bits: &mut [u8],
    supers: &mut [u8],
    modes: &mut [u8],
    active: &mut [u64],
    first: &mut [u8],
    second: &mut [u8],
    third: &mut [u8],
) -> Played
    requires s_value { (session_fits s ≡ true) × Sound s names × TableLoaded table.now loaded × Keeps table.now loaded.parameters kept }
    requires active_value { (memory records.old coded.old coefs.old dc.old lasts.old flags.old bits.old supers.old modes.old active.old ≡ cleared (lengths_of s)) × (length first.old ≡ 64 * blocks s) × (length second.old ≡ 64 * blocks s) × (length third.old ≡ 64 * blocks s) }
    ensures answer_after { (answers : List FrameAnswer) → shot result.answer.session (first.new ∷ second.new ∷ third.new ∷ []) result.names (memory records.new coded.new coefs.new dc.new lasts.new flags.new bits.new supers.new modes.new active.new) (answers ++ (result.answer ∷ []))
        ≡ one_more (by_rules first_way) table.now (shot s (first.old ∷ second.old ∷ third.old ∷ []) names
        (memory records.old coded.old coefs.old dc.old lasts.old flags.old bits.old supers.old modes.old active.old) answers) packet.now }
    ensures keeps { Keeps table.now loaded.parameters result.kept }
{
    let part = bitstream::readable(packet);
    let free = buffer_names::free_buffer(names);
    let ready = decoding::read_packet(
        s, part, table, loaded, kept, records, coded, coefs, lasts, flags, bits, supers, modes,
        active,
    );
    let matrices = ready.kept;
    let format = ready.format;
    frame_into::make_into(
        ready.accepted,
        free,
        names.golden,
        names.previous,
        first,
        second,
        third,
        records,
        coded,
        ready.count,
        coefs,
        dc,
        lasts,
        &matrices.values,
        ready.limit,
        format,
        s.fields.fmbw,
        s.fields.fmbh,
    );
    let answer = ready.answer;
    let after = buffer_names::after_packet(names, answer);
    Played {
        answer,
        names: after,
        kept: matrices,
    }
}

// The session and the names after some packets.
#[derive(Clone, Copy)]
pub struct Ended {
    pub session: Session,
    pub names: Names,
}

// Packets, applied in order.
pub fn play_packets(
    s: Session,
    names: Names,
    lengths: &[u64],
    packets: &[u8],
    table: &[u8],
    loaded: LoadedSetup,
    records: &mut [u32],
    coded: &mut [u64],
    coefs: &mut [i16],
    dc: &mut [i16],
    lasts: &mut [u8],
    flags: &mut [u8],
    bits: &mut [u8],
    supers: &mut [u8],
    modes: &mut [u8],
    active: &mut [u64],
    first: &mut [u8],
    second: &mut [u8],
    third: &mut [u8],
    answers: &mut [u64],
) -> Ended
    requires s_value { (session_fits s ≡ true) × Sound s names × TableLoaded table.now loaded }
    requires active_value { (memory records.old coded.old coefs.old dc.old lasts.old flags.old bits.old supers.old modes.old active.old ≡ cleared (lengths_of s)) × (length first.old ≡ 64 * blocks s) × (length second.old ≡ 64 * blocks s) × (length third.old ≡ 64 * blocks s) }
    requires lengths_in_bounds { (total lengths.now ≤ length packets.now) × (length answers.old ≡ answer_size * length lengths.now) }
    ensures { PlaysAll table.now (shot s (first.old ∷ second.old ∷ third.old ∷ []) names
        (memory records.old coded.old coefs.old dc.old lasts.old flags.old bits.old supers.old modes.old active.old) []) (packets_in lengths.now packets.now)
        result.session (first.new ∷ second.new ∷ third.new ∷ []) result.names (memory records.new coded.new coefs.new dc.new lasts.new flags.new bits.new supers.new modes.new active.new) answers.new }
{
    let mut session = s;
    let mut both = names;
    let mut kept = kept_matrices::none();
    let mut at: usize = 0;
    let mut i: usize = 0;
    while i < lengths.len() {
        let end = packet_list::packet_end(lengths, i, at);
        let played = play_packet(
            session,
            both,
            &packets[at..end],
            table,
            loaded,
            kept,
            records,
            coded,
            coefs,
            dc,
            lasts,
            flags,
            bits,
            supers,
            modes,
            active,
            first,
            second,
            third,
        );
        let answer = played.answer;
        let from = 8 * i;
        let to = from + 8;
        let verdict = answer.verdict;
        let header = answer.header;
        reading::store_answer(verdict, header, &mut answers[from..to]);
        session = answer.session;
        both = played.names;
        kept = played.kept;
        at = end;
        i += 1;
    }
    Ended {
        session,
        names: both,
    }
}
