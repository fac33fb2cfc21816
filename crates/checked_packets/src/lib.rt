// The packets of a shot, applied in order, and each frame compared with a file.
#![tactic(auto)]

ghost use Rattle.std.specs.Prelude.{◌≡◌, true, List, [], ◌∷◌, ◌*◌, ◌≤◌, length};
ghost use Rattle.headers.specs.Fits.{session_fits};
ghost use Rattle.work_memory.specs.Memory.{memory};
ghost use Rattle.work_memory.specs.Lengths.{blocks, lengths_of, cleared};
ghost use Rattle.packet_list.specs.Packets.{total, packets_in, answer_size};
ghost use Rattle.buffer_names.specs.Names.{Sound};
ghost use Rattle.stream_numbers.specs.Numbers.{numbers_of};
ghost use Rattle.y4m.specs.Stream.{frame_bytes};
ghost use Rattle.frame_into.specs.Buffers.{buffer_of};
ghost use Rattle.shot_packets.specs.Play.{shot};
ghost use Rattle.shot_packets.specs.Inner.{TableLoaded};
ghost use Rattle.watching.specs.Watch.{watched};
ghost use Rattle.checked_packets.specs.Watch.{ChecksAll};

use buffer_names::Names;
use headers::Session;
use reading::Verdict;
use setup::LoadedSetup;
use watching::Watched;

// One packet more (`watching::watch`), with three buffers, of which one is named.
fn watch_named(
    w: Watched,
    s: Session,
    verdict: Verdict,
    name: u64,
    first: &[u8],
    second: &[u8],
    third: &[u8],
    file: &[u8],
) -> Watched
    requires { (session_fits s ≡ true) × (length first.now ≡ frame_bytes (numbers_of s)) × (length second.now ≡ frame_bytes (numbers_of s)) × (length third.now ≡ frame_bytes (numbers_of s)) × (w.compared.place ≤ length file.now) }
    ensures { (result ≡ watched (numbers_of s) file.now w verdict (buffer_of (first.now ∷ second.now ∷ third.now ∷ []) name)) × (result.compared.place ≤ length file.now) }
{
    if name == 0 {
        return watching::watch(w, s, verdict, first, file);
    }
    if name == 2 {
        return watching::watch(w, s, verdict, third, file);
    }
    watching::watch(w, s, verdict, second, file)
}

// Packets, applied in order: `shot_packets::play_packets`, and the frame of each that is accepted compared with the file.
pub fn check_packets(
    s: Session,
    names: Names,
    lengths: &[u64],
    packets: &[u8],
    file: &[u8],
    begun: Watched,
    table: &[u8],
    loaded: LoadedSetup,
    records: &mut [u32],
    coded: &mut [u64],
    coefs: &mut [i16],
    dc: &mut [i16],
    lasts: &mut [u8],
    flags: &mut [u8],
    bits: &mut [u8],
    supers: &mut [u8],
    modes: &mut [u8],
    active: &mut [u64],
    first: &mut [u8],
    second: &mut [u8],
    third: &mut [u8],
    answers: &mut [u64],
) -> Watched
    requires s_value { (session_fits s ≡ true) × Sound s names × TableLoaded table.now loaded }
    requires active_value { ((memory records.old coded.old coefs.old dc.old lasts.old flags.old bits.old supers.old modes.old active.old) ≡ cleared (lengths_of s)) × (length first.old ≡ 64 * blocks s) × (length second.old ≡ 64 * blocks s) × (length third.old ≡ 64 * blocks s) }
    requires lengths_in_bounds { (total lengths.now ≤ length packets.now) × (length answers.old ≡ answer_size * length lengths.now) × (begun.compared.place ≤ length file.now) }
    ensures { ChecksAll table.now file.now begun (shot s (first.old ∷ second.old ∷ third.old ∷ []) names
        (memory records.old coded.old coefs.old dc.old lasts.old flags.old bits.old supers.old modes.old active.old) []) (packets_in lengths.now packets.now)
        result (first.new ∷ second.new ∷ third.new ∷ []) (memory records.new coded.new coefs.new dc.new lasts.new flags.new bits.new supers.new modes.new active.new) answers.new }
{
    let mut session = s;
    let mut both = names;
    let mut kept = kept_matrices::none();
    let mut seen = begun;
    let mut at: usize = 0;
    let mut i: usize = 0;
    while i < lengths.len() {
        let end = packet_list::packet_end(lengths, i, at);
        let played = shot_packets::play_packet(
            session,
            both,
            &packets[at..end],
            table,
            loaded,
            kept,
            records,
            coded,
            coefs,
            dc,
            lasts,
            flags,
            bits,
            supers,
            modes,
            active,
            first,
            second,
            third,
        );
        let answer = played.answer;
        let from = 8 * i;
        let to = from + 8;
        let verdict = answer.verdict;
        let header = answer.header;
        reading::store_answer(verdict, header, &mut answers[from..to]);
        session = answer.session;
        both = played.names;
        kept = played.kept;
        seen = watch_named(seen, s, verdict, both.previous, first, second, third, file);
        at = end;
        i += 1;
    }
    seen
}
