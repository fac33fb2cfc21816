// The maps of a shot: whether they have their length, and the map of one packet. Of the shot this sees the three buffers and the names.
#![tactic(auto)]

ghost use Rattle.std.specs.Prelude.{◌≡◌, true, List, [], ◌∷◌, ℕ, ◌+◌, ◌*◌, ◌≤◌, eqb, length};
ghost use Rattle.headers.specs.Fits.{session_fits};
ghost use Rattle.settings.specs.Settings.{settings_fit};
ghost use Rattle.work_memory.specs.Lengths.{blocks};
ghost use Rattle.reading.specs.Answer.{answer_numbers};
ghost use Rattle.buffer_names.specs.Names.{free};
ghost use Rattle.frame_into.specs.Buffers.{buffer_of};
ghost use Rattle.packet_list.specs.Packets.{answer_size};
ghost use Rattle.tile_calls.specs.Call.{map_length_of, map_after};
ghost use Rattle.shot_maps.specs.Maps.{maps_fit, maps_number, with_part};

use buffer_names::Names;
use frame_header::Header;
use headers::Session;
use reading::Verdict;
use settings::Settings;

// Whether so many bytes are so many maps of n bytes. Nothing is multiplied.
fn bytes_fit(n: u64, packets: u64, bytes: u64) -> bool
    ensures { result ≡ eqb bytes (n * packets) }
{
    if packets == 0 {
        return bytes == 0;
    }
    (bytes % packets == 0) & (bytes / packets == n)
}

// Whether the maps of a shot have their length. Of a session that does not fit nothing is said here: the shot call refuses it.
fn maps_fit(set: Settings, s: Session, packets: usize, bytes: usize) -> bool
    requires { settings_fit set ≡ true }
    ensures { result ≡ maps_fit set s packets bytes }
{
    if headers::session_fits(s) {
        let n = map_update::length_of(set, s);
        return bytes_fit(n, packets as u64, bytes as u64);
    }
    true
}

// By what settings and the length of the maps are refused, 0 if by nothing.
pub fn maps_number(set: Settings, s: Session, packets: usize, bytes: usize) -> u32
    ensures { result ≡ maps_number set s packets bytes }
{
    if settings::settings_fit(set) {
        if maps_fit(set, s, packets, bytes) {
            return 0;
        }
        return bitstream::WRONG_LENGTH;
    }
    bitstream::BAD_SETTINGS
}

// The buffer of a name; without references, where there is no name, the second.
fn buffer_of<'a>(k: u64, first: &'a [u8], second: &'a [u8], third: &'a [u8]) -> &'a [u8]
    ensures { result.now ≡ buffer_of (first.now ∷ second.now ∷ third.now ∷ []) k }
{
    if k == 0 {
        return first;
    }
    if k == 2 {
        return third;
    }
    second
}

// The map of packet i, after it: the buffer that was free has the new frame, and the one that was previous is as it was.
fn update_map<'a>(
    set: Settings,
    s: Session,
    names: Names,
    verdict: Verdict,
    first: &'a [u8],
    second: &'a [u8],
    third: &'a [u8],
    i: usize,
    maps: &mut [u8],
)
    requires { (settings_fit set ≡ true) × (session_fits s ≡ true) × (length first.now ≡ 64 * blocks s) × (length second.now ≡ 64 * blocks s) × (length third.now ≡ 64 * blocks s) × (map_length_of set s * i + map_length_of set s ≤ length maps.old) }
    ensures { maps.new ≡ with_part (map_length_of set s) i (map_after set s verdict (buffer_of (first.now ∷ second.now ∷ third.now ∷ []) names.previous) (buffer_of (first.now ∷ second.now ∷ third.now ∷ []) (free names))) maps.old }
{
    let previous = buffer_of(names.previous, first, second, third);
    let new = buffer_of(buffer_names::free_buffer(names), first, second, third);
    let n = map_update::length_of(set, s) as usize;
    let from = n * i;
    let to = from + n;
    map_update::update_map(set, s, verdict, previous, new, &mut maps[from..to]);
}

// Stores the answer of packet i.
fn store_answer(verdict: Verdict, header: Header, i: usize, answers: &mut [u64])
    requires { answer_size * i + answer_size ≤ length answers.old }
    ensures { answers.new ≡ with_part answer_size i (λ (old : List ℕ). answer_numbers verdict header) answers.old }
{
    let from = 8 * i;
    let to = from + 8;
    reading::store_answer(verdict, header, &mut answers[from..to]);
}

// What packet i leaves beside its frame: its answer, and its map by session and names as they were before it.
pub fn store_packet<'a>(
    set: Settings,
    s: Session,
    names: Names,
    verdict: Verdict,
    header: Header,
    first: &'a [u8],
    second: &'a [u8],
    third: &'a [u8],
    i: usize,
    answers: &mut [u64],
    maps: &mut [u8],
)
    requires { (settings_fit set ≡ true) × (session_fits s ≡ true) × (length first.now ≡ 64 * blocks s) × (length second.now ≡ 64 * blocks s) × (length third.now ≡ 64 * blocks s) × (map_length_of set s * i + map_length_of set s ≤ length maps.old) × (answer_size * i + answer_size ≤ length answers.old) }
    ensures { (answers.new ≡ with_part answer_size i (λ (old : List ℕ). answer_numbers verdict header) answers.old)
        × (maps.new ≡ with_part (map_length_of set s) i (map_after set s verdict (buffer_of (first.now ∷ second.now ∷ third.now ∷ []) names.previous) (buffer_of (first.now ∷ second.now ∷ third.now ∷ []) (free names))) maps.old) }
{
    store_answer(verdict, header, i, answers);
    update_map(set, s, names, verdict, first, second, third, i, maps);
}
