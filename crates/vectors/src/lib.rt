// The motion vectors of an inter frame, and the prediction of each of its blocks.
#![tactic(auto)]

ghost use Rattle.std.specs.Prelude.{◌≡◌, map, ◌<◌, ◌≤◌, length};
ghost use Rattle.bitstream.specs.Bits.{longest};
ghost use Rattle.geometry.specs.Sizes.{macro_blocks_of, blocks_of, blocks_each, largest};
ghost use Rattle.geometry.specs.Order.{at};
ghost use Rattle.block_record.specs.Record.{VectorInRange, PredictionInRange};
ghost use Rattle.block_record.specs.Packed.{packed};
ghost use Rattle.block_record.specs.Memory.{AllPacked, records_of};
ghost use Rattle.bitstream.specs.Answer.{StoredAs, as_end};
ghost use Rattle.vectors.specs.Vectors.{number_in, coded_in, predicted_at, predicted_from, macro_block, macro_blocks, vectors};
ghost use Rattle.vectors.specs.Start.{macro_no, Waiting};
ghost use Rattle.motion.specs.Kept.{started, MotionInRange, zero_vector};
ghost use Rattle.vectors.specs.Memory.{state_of, StoredState, as_step};
ghost use Rattle.motion_reader.specs.Motion.{motion};

use bitstream::{End, Field};
use block_record::{Prediction, Vector};
use geometry::{PixelFormat, Place};
use motion::Motion;
use motion_reader::MovedRead;

// The vectors that are kept behind a macro block, and the place.
#[derive(Clone, Copy)]
enum Step {
    Next(Vector, Vector, usize),
    Refused(u32, usize),
}

// The raster number of block k of macro block q.
fn number_in(format: PixelFormat, w: u64, h: u64, q: Place, k: u64) -> usize
    requires { (w ≤ largest) × (h ≤ largest) × (q.x < w) × (q.y < h) × (k < blocks_each format) }
    ensures { (result ≡ number_in format w h q k) × (result < blocks_of format w h) }
{
    let b = geometry::block_of_macro(format, q.x, q.y, k);
    geometry::raster_number(format, w, h, b) as usize
}

// Whether it is coded.
fn is_coded_in(format: PixelFormat, w: u64, h: u64, q: Place, records: &[u32], k: u64) -> bool
    requires { (w ≤ largest) × (h ≤ largest) × (q.x < w) × (q.y < h) × (k < blocks_each format) × (length records.now ≡ blocks_of format w h) }
    ensures { result ≡ coded_in format w h q (records_of records.now) k }
{
    let i = number_in(format, w, h, q, k);
    block_record::is_coded(records[i])
}

// The block with raster number i gets the prediction p, if it is coded.
fn predict_block(records: &mut [u32], i: usize, p: Prediction)
    requires { (i < length records.old) × PredictionInRange p × AllPacked records.old }
    ensures { (records_of records.new ≡ predicted_at i p (records_of records.old)) × AllPacked records.new }
{
    let n = records[i];
    if block_record::is_coded(n) {
        records[i] = block_record::with_prediction(n, p);
        return;
    }
}

// Each coded block of macro block q gets its prediction.
fn predict_blocks(format: PixelFormat, w: u64, h: u64, q: Place, m: Motion, records: &mut [u32])
    requires { (w ≤ largest) × (h ≤ largest) × (q.x < w) × (q.y < h) × (length records.old ≡ blocks_of format w h) × MotionInRange m × AllPacked records.old }
    ensures { (records_of records.new ≡ predicted_from format w h q m (blocks_each format) 0 (records_of records.old)) × AllPacked records.new }
{
    let n = geometry::blocks_each(format);
    let mut k: u64 = 0;
    while k < n {
        let i = number_in(format, w, h, q, k);
        let p = motion_reader::prediction_of(format, m, k);
        predict_block(records, i, p);
        k += 1;
    }
}

// One macro block: its vectors, and the predictions of its blocks.
fn read_macro_block(
    packet: &[u8],
    at: usize,
    code: u32,
    format: PixelFormat,
    w: u64,
    h: u64,
    q: Place,
    mode: u8,
    last: Vector,
    last2: Vector,
    records: &mut [u32],
) -> Step
    requires { (length packet.now ≤ longest) × (w ≤ largest) × (h ≤ largest) × (q.x < w) × (q.y < h) × (length records.old ≡ blocks_of format w h) × VectorInRange last × VectorInRange last2 × AllPacked records.old }
    ensures value { result ≡ as_step (macro_block format w h code mode q (state_of records.old last last2) packet.now at) }
    ensures stored_state { StoredState records.new (macro_block format w h code mode q (state_of records.old last last2) packet.now at) }
{
    let a = is_coded_in(format, w, h, q, records, 0);
    let b = is_coded_in(format, w, h, q, records, 1);
    let c = is_coded_in(format, w, h, q, records, 2);
    let d = is_coded_in(format, w, h, q, records, 3);
    let moved = motion_reader::read_motion(packet, at, code, mode, a, b, c, d, last, last2);
    match moved {
        MovedRead::Refused(k, e) => Step::Refused(k, e),
        MovedRead::Got(m, next) => {
            let motion = m.motion;
            let newest = m.last;
            let second = m.last2;
            predict_blocks(format, w, h, q, motion, records);
            Step::Next(newest, second, next)
        }
    }
}

// Macro block m of the coded order. One of mode 0 sends nothing, and its blocks are as they started: it is passed over.
// Where little moves that saves up to a seventh of a frame's instructions (592,000 of 4,092,000 on the hints of gnome-mahjongg).
fn read_number(
    packet: &[u8],
    at: usize,
    code: u32,
    format: PixelFormat,
    w: u64,
    h: u64,
    m: usize,
    mode: u8,
    last: Vector,
    last2: Vector,
    records: &mut [u32],
) -> Step
    requires { (length packet.now ≤ longest) × (w ≤ largest) × (h ≤ largest) × (m < macro_blocks_of w h) × (length records.old ≡ blocks_of format w h) × VectorInRange last × VectorInRange last2 × AllPacked records.old × Waiting format w h m (records_of records.old) }
    ensures value { result ≡ as_step (macro_block format w h code mode (macro_no w h m) (state_of records.old last last2) packet.now at) }
    ensures stored_state { StoredState records.new (macro_block format w h code mode (macro_no w h m) (state_of records.old last last2) packet.now at) }
{
    if mode == 0 {
        return Step::Next(last, last2, at);
    }
    let q = geometry::macro_block_at(w, h, m as u64);
    read_macro_block(
        packet, at, code, format, w, h, q, mode, last, last2, records,
    )
}

// All macro blocks in coded order, behind the vector bit.
fn read_each(
    packet: &[u8],
    at: usize,
    code: u32,
    format: PixelFormat,
    w: u64,
    h: u64,
    modes: &[u8],
    records: &mut [u32],
) -> End
    requires { (length packet.now ≤ longest) × (w ≤ largest) × (h ≤ largest) × (length modes.now ≡ macro_blocks_of w h) × (length records.old ≡ blocks_of format w h) × AllPacked records.old × Waiting format w h 0 (records_of records.old) }
    ensures value { result ≡ as_end (macro_blocks format w h code modes.now (length modes.now) 0 (state_of records.old zero_vector zero_vector) packet.now at) }
    ensures stored_state { StoredState records.new (macro_blocks format w h code modes.now (length modes.now) 0 (state_of records.old zero_vector zero_vector) packet.now at) }
{
    let n = modes.len();
    let mut last = motion::zero_vector();
    let mut last2 = motion::zero_vector();
    let mut place = at;
    let mut m: usize = 0;
    while m < n {
        let mode = modes[m];
        let step = read_number(
            packet, place, code, format, w, h, m, mode, last, last2, records,
        );
        match step {
            Step::Refused(k, e) => {
                return End::Refused(k, e);
            }
            Step::Next(v, v2, next) => {
                last = v;
                last2 = v2;
                place = next;
                m += 1;
            }
        }
    }
    End::At(place)
}

// All of them: a loop without a jump, two instructions for a block.
fn start_records(records: &mut [u32])
    requires { AllPacked records.old }
    ensures { records.new ≡ map started records.old }
{
    let mut i = 0;
    while i < records.len() {
        records[i] = motion::start_record(records[i]);
        i += 1;
    }
}

// The vectors of an inter frame of w by h macro blocks, whose modes are given in coded order. records holds the packed
// record of each block, by raster number; the coded ones get their predictions.
pub fn read_vectors(
    packet: &[u8],
    at: usize,
    format: PixelFormat,
    w: u64,
    h: u64,
    modes: &[u8],
    records: &mut [u32],
) -> End
    requires { (length packet.now ≤ longest) × (w ≤ largest) × (h ≤ largest) × (length modes.now ≡ macro_blocks_of w h) × (length records.old ≡ blocks_of format w h) × AllPacked records.old }
    ensures value { result ≡ as_end (vectors format w h modes.now (records_of records.old) packet.now at) }
    ensures stored_as { StoredAs (map packed) records.new (vectors format w h modes.now (records_of records.old) packet.now at) }
{
    let bit = bitstream::read(packet, at, 1);
    match bit {
        Field::Refused(k, e) => End::Refused(k, e),
        Field::Got(code, next) => {
            start_records(records);
            read_each(packet, next, code, format, w, h, modes, records)
        }
    }
}
