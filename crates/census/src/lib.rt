// A census: one recording is added to a report. Planes, table and work memory are scratch, all zero afterwards.
#![tactic(auto)]

ghost use Rattle.std.specs.Prelude.{◌≡◌, true, List, ℕ, ◌+◌, ◌≤◌, length, drop, replicate};
ghost use Rattle.headers.specs.Fits.{session_fits};
ghost use Rattle.work_memory.specs.Memory.{memory, work};
ghost use Rattle.work_memory.specs.Lengths.{lengths_of, cleared};
ghost use Rattle.reading.specs.Answer.{read};
ghost use Rattle.packet_list.specs.Packets.{total, packets_in};
ghost use Rattle.report.specs.Report.{plus};
ghost use Rattle.report.specs.Running.{Runs};
ghost use Rattle.census_packets.specs.Recording.{lent, outcome_lent, packets_add};
ghost use Rattle.census.specs.Call.{zeroed, Loads, Loaded, count_number, count_report, census_call, census_done, answer_by, CensusPromise};

use calls::Room;
use census_packets::HeadersAnswer;
use headers::Session;
use report::{CensusAnswer, Running};
use setup::LoadedSetup;

// All frame packets of a recording, by the setup that its headers left in table memory.
fn count_packets(
    running: Running,
    s: Session,
    lengths: &[u64],
    packets: &[u8],
    start: usize,
    table: &[u8],
    loaded: LoadedSetup,
    records: &mut [u32],
    coded: &mut [u64],
    coefs: &mut [i16],
    lasts: &mut [u8],
    flags: &mut [u8],
    bits: &mut [u8],
    supers: &mut [u8],
    modes: &mut [u8],
    active: &mut [u64],
) -> Running
    requires { (session_fits s ≡ true) × Loaded table.now loaded × (work records.old coded.old coefs.old lasts.old flags.old bits.old supers.old modes.old active.old ≡ (cleared (lengths_of s)).work) × (3 ≤ length lengths.now) × (start + total (drop 3 lengths.now) ≤ length packets.now) }
    ensures { (l : List ℕ) → Runs running l → Runs result (plus l (packets_add (λ s packet. read s table.now packet) s (packets_in (drop 3 lengths.now) (drop start packets.now)))) }
{
    let mut session = s;
    let mut sums = running;
    let mut at = start;
    let mut i: usize = 3;
    while i < lengths.len() {
        let end = packet_list::packet_end(lengths, i, at);
        let packet = bitstream::readable(&packets[at..end]);
        let counted = tally::count_packet(
            session,
            packet,
            &loaded.nodes,
            records,
            coded,
            coefs,
            lasts,
            flags,
            bits,
            supers,
            modes,
            active,
        );
        let answer = counted.answer;
        let counts = counted.counts;
        sums = census_packets::add_packet(sums, answer, counts);
        session = answer.session;
        at = end;
        i += 1;
    }
    sums
}

// The frame packets of a recording whose headers are sound. Where a lent length is not the one that its session publishes, each is refused by 1.
fn count_frames(
    running: Running,
    s: Session,
    lengths: &[u64],
    packets: &[u8],
    start: usize,
    table: &[u8],
    records: &mut [u32],
    coded: &mut [u64],
    coefs: &mut [i16],
    dc: &mut [i16],
    lasts: &mut [u8],
    flags: &mut [u8],
    bits: &mut [u8],
    supers: &mut [u8],
    modes: &mut [u8],
    active: &mut [u64],
    golden: &[u8],
    previous: &[u8],
    new: &[u8],
) -> Running
    requires { (session_fits s ≡ true) × Loads table.now × (3 ≤ length lengths.now) × (start + total (drop 3 lengths.now) ≤ length packets.now) }
    ensures { (l : List ℕ) → Runs running l → Runs result (plus l (packets_add (outcome_lent (lent table.now
        (memory records.old coded.old coefs.old dc.old lasts.old flags.old bits.old supers.old modes.old active.old) golden.now previous.now new.now) table.now) s
        (packets_in (drop 3 lengths.now) (drop start packets.now)))) }
{
    let room = Room {
        records: records.len(),
        coded: coded.len(),
        coefs: coefs.len(),
        dc: dc.len(),
        lasts: lasts.len(),
        flags: flags.len(),
        bits: bits.len(),
        supers: supers.len(),
        modes: modes.len(),
        active: active.len(),
        first: golden.len(),
        second: previous.len(),
        third: new.len(),
    };
    let k = calls::lent_number(s, table.len(), room);
    if k == 0 {
        work_memory::clear_memory(
            records, coded, coefs, dc, lasts, flags, bits, supers, modes, active,
        );
        let held = setup::load_table(table);
        return count_packets(
            running, s, lengths, packets, start, table, held.setup, records, coded, coefs, lasts,
            flags, bits, supers, modes, active,
        );
    }
    report::refuse_frames(running, lengths.len() as u64)
}

// Adds a recording whose packets lie in the buffer: 0, or the number of the refusal, which leaves the report as it was.
fn count(
    lengths: &[u64],
    packets: &[u8],
    report: &mut [u64],
    table: &mut [u8],
    records: &mut [u32],
    coded: &mut [u64],
    coefs: &mut [i16],
    dc: &mut [i16],
    lasts: &mut [u8],
    flags: &mut [u8],
    bits: &mut [u8],
    supers: &mut [u8],
    modes: &mut [u8],
    active: &mut [u64],
    golden: &[u8],
    previous: &[u8],
    new: &[u8],
) -> u32
    requires { total lengths.now ≤ length packets.now }
    ensures value { result ≡ count_number (lent table.old (memory records.old coded.old coefs.old dc.old lasts.old flags.old bits.old supers.old modes.old active.old) golden.now previous.now new.now)
        (packets_in lengths.now packets.now) report.old }
    ensures report_after { report.new ≡ count_report (lent table.old (memory records.old coded.old coefs.old dc.old lasts.old flags.old bits.old supers.old modes.old active.old) golden.now previous.now new.now)
        (packets_in lengths.now packets.now) report.old }
{
    if report.len() != 34 {
        return bitstream::WRONG_LENGTH;
    }
    let running = report::begin(report);
    match census_packets::read_headers(lengths, packets, table) {
        HeadersAnswer::Refused(k) => {
            let sums = report::add_refusals(running, k, 1);
            report::store(sums, report)
        }
        HeadersAnswer::Sound(s, start) => {
            let sums = count_frames(
                running, s, lengths, packets, start, table, records, coded, coefs, dc, lasts,
                flags, bits, supers, modes, active, golden, previous, new,
            );
            report::store(sums, report)
        }
    }
}

// Work memory becomes 0, whatever its lengths.
fn zero_memory(
    records: &mut [u32],
    coded: &mut [u64],
    coefs: &mut [i16],
    dc: &mut [i16],
    lasts: &mut [u8],
    flags: &mut [u8],
    bits: &mut [u8],
    supers: &mut [u8],
    modes: &mut [u8],
    active: &mut [u64],
)
    ensures { memory records.new coded.new coefs.new dc.new lasts.new flags.new bits.new supers.new modes.new active.new ≡ zeroed
        (memory records.old coded.old coefs.old dc.old lasts.old flags.old bits.old supers.old modes.old active.old) }
{
    work_memory::clear_read(records, coded, coefs, lasts);
    let values = dc.len();
    buffer::clear_shorts(dc, values);
    let blocks = flags.len();
    buffer::clear_bytes(flags, blocks);
    let string = bits.len();
    buffer::clear_bytes(bits, string);
    let strings = supers.len();
    buffer::clear_bytes(supers, strings);
    let macros = modes.len();
    buffer::clear_bytes(modes, macros);
    let ranks = active.len();
    buffer::clear_longs(active, ranks);
}

// Table memory and planes become 0.
fn zero_buffers(table: &mut [u8], golden: &mut [u8], previous: &mut [u8], new: &mut [u8])
    ensures { (table.new ≡ replicate (length table.old) 0) × (golden.new ≡ replicate (length golden.old) 0) × (previous.new ≡ replicate (length previous.old) 0) × (new.new ≡ replicate (length new.old) 0) }
{
    let bytes = table.len();
    buffer::clear_bytes(table, bytes);
    let first = golden.len();
    buffer::clear_bytes(golden, first);
    let second = previous.len();
    buffer::clear_bytes(previous, second);
    let third = new.len();
    buffer::clear_bytes(new, third);
}

// The answer of a call by its number.
fn answer(k: u32) -> CensusAnswer
    ensures { result ≡ answer_by k }
{
    if k == 0 {
        return CensusAnswer::Counted;
    }
    CensusAnswer::Refused(k, 0)
}

// Adds a recording to a report of 34 numbers: packets joined together, of which the first three are its headers.
pub fn census(
    lengths: &[u64],
    packets: &[u8],
    report: &mut [u64],
    table: &mut [u8],
    records: &mut [u32],
    coded: &mut [u64],
    coefs: &mut [i16],
    dc: &mut [i16],
    lasts: &mut [u8],
    flags: &mut [u8],
    bits: &mut [u8],
    supers: &mut [u8],
    modes: &mut [u8],
    active: &mut [u64],
    golden: &mut [u8],
    previous: &mut [u8],
    new: &mut [u8],
) -> CensusAnswer
    ensures { CensusPromise (census_call lengths.now packets.now report.old (lent table.old
        (memory records.old coded.old coefs.old dc.old lasts.old flags.old bits.old supers.old modes.old active.old) golden.old previous.old new.old))
        (census_done result report.new (lent table.new (memory records.new coded.new coefs.new dc.new lasts.new flags.new bits.new supers.new modes.new active.new) golden.new previous.new new.new)) }
{
    let reach = packet_list::lengths_reach(lengths, packets.len() as u64);
    if !reach {
        return CensusAnswer::Refused(bitstream::PAST_PACKETS, 0);
    }
    let k = count(
        lengths, packets, report, table, records, coded, coefs, dc, lasts, flags, bits, supers,
        modes, active, golden, previous, new,
    );
    zero_memory(
        records, coded, coefs, dc, lasts, flags, bits, supers, modes, active,
    );
    zero_buffers(table, golden, previous, new);
    answer(k)
}
