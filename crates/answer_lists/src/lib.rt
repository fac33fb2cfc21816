// What the calls for C return and leave in lists of numbers, by their answers.
#![tactic(auto)]

ghost use Rattle.std.specs.Prelude.{◌≡◌, length};
ghost use Rattle.session_list.specs.List.{gives, answers};
ghost use Rattle.answer_lists.specs.Lists.{flag, session_returned, sizes_returned, block_returned, place_returned, number_returned, table_call, matrix_returned};

use headers::{IdentificationAnswer, SizesAnswer};
use queries::{BlockAnswer, NumberAnswer, PlaceAnswer};
use table_queries::MatrixAnswer;

pub fn flag_number(b: bool) -> u64
    ensures { result ≡ flag b }
{
    if b { 1 } else { 0 }
}

// Stores the numbers of an accepted call, which returns 0.
pub fn store(list: &mut [u64], numbers: &[u64]) -> u32
    requires { length list.old ≡ length numbers.now }
    ensures { gives result list.new ≡ gives 0 numbers.now }
{
    buffer::copy_longs(list, numbers);
    0
}

// The same of the numbers of a quantization matrix.
pub fn widen(list: &mut [u64], numbers: &[u16]) -> u32
    requires { length list.old ≡ length numbers.now }
    ensures { gives result list.new ≡ gives 0 numbers.now }
{
    let mut i = 0;
    while i < numbers.len() {
        list[i] = numbers[i] as u64;
        i += 1;
    }
    0
}

pub fn return_session(answer: IdentificationAnswer, list: &mut [u64], place: &mut [u64]) -> u32
    requires { (length list.old ≡ 19) × (length place.old ≡ 1) }
    ensures { answers result list.new place.new ≡ session_returned list.old answer }
{
    match answer {
        IdentificationAnswer::Accepted(s) => {
            let references = flag_number(s.references);
            let numbers = [
                s.fields.vrev,
                s.fields.fmbw,
                s.fields.fmbh,
                s.fields.picw,
                s.fields.pich,
                s.fields.picx,
                s.fields.picy,
                s.fields.frn,
                s.fields.frd,
                s.fields.parn,
                s.fields.pard,
                s.fields.cs,
                s.fields.nombr,
                s.fields.qual,
                s.fields.kfgshift,
                s.fields.pf,
                references,
                s.key_frames,
                s.others,
            ];
            place[0] = 0;
            store(list, &numbers)
        }
        IdentificationAnswer::Refused(k, e) => {
            place[0] = e as u64;
            k
        }
    }
}

pub fn return_sizes(answer: SizesAnswer, list: &mut [u64]) -> u32
    requires { length list.old ≡ 16 }
    ensures { gives result list.new ≡ sizes_returned list.old answer }
{
    match answer {
        SizesAnswer::Is(n) => {
            let y = n.luma;
            let cb = n.cb;
            let cr = n.cr;
            let numbers = [
                n.macro_blocks,
                n.blocks,
                n.super_blocks,
                n.buffer,
                y.across,
                y.up,
                y.offset,
                y.length,
                cb.across,
                cb.up,
                cb.offset,
                cb.length,
                cr.across,
                cr.up,
                cr.offset,
                cr.length,
            ];
            store(list, &numbers)
        }
        SizesAnswer::Refused(k) => k,
    }
}

pub fn return_block(answer: BlockAnswer, list: &mut [u64]) -> u32
    requires { length list.old ≡ 3 }
    ensures { gives result list.new ≡ block_returned list.old answer }
{
    match answer {
        BlockAnswer::Is(b) => {
            let numbers = [b.plane, b.x, b.y];
            store(list, &numbers)
        }
        BlockAnswer::Absent => 255,
        BlockAnswer::Refused(k) => k,
    }
}

pub fn return_place(answer: PlaceAnswer, list: &mut [u64]) -> u32
    requires { length list.old ≡ 2 }
    ensures { gives result list.new ≡ place_returned list.old answer }
{
    match answer {
        PlaceAnswer::Is(p) => {
            let numbers = [p.x, p.y];
            store(list, &numbers)
        }
        PlaceAnswer::Absent => 255,
        PlaceAnswer::Refused(k) => k,
    }
}

pub fn return_number(answer: NumberAnswer, list: &mut [u64]) -> u32
    requires { length list.old ≡ 1 }
    ensures { gives result list.new ≡ number_returned list.old answer }
{
    match answer {
        NumberAnswer::Is(n) => {
            let numbers = [n];
            store(list, &numbers)
        }
        NumberAnswer::Absent => 255,
        NumberAnswer::Refused(k) => k,
    }
}

pub fn return_matrix(answer: MatrixAnswer, numbers: &[u16], list: &mut [u64]) -> u32
    requires { length list.old ≡ length numbers.now }
    ensures { gives result list.new ≡ matrix_returned list.old numbers.now answer }
{
    match answer {
        MatrixAnswer::Is => widen(list, numbers),
        MatrixAnswer::Absent => 255,
        MatrixAnswer::Refused(k) => k,
    }
}

// Whether some accepted setup packet leaves a table memory: 0 if so, else 8; 1 for another length.
pub fn table_number(table: &[u8]) -> u32
    ensures { result ≡ table_call table.now }
{
    if table.len() == setup::TABLE_BYTES {
        if setup::table_is_genuine(table) {
            return 0;
        }
        return bitstream::NOT_GENUINE;
    }
    bitstream::WRONG_LENGTH
}
