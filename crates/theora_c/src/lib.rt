// The face for C and other languages, but for the frame call: include/wedgepetal.h says what each call is for.
#![tactic(auto)]

ghost use Rattle.std.specs.Prelude.{◌≡◌, length};
ghost use Rattle.session_list.specs.List.{gives, answers};
ghost use Rattle.theora_c.specs.Face.{identification_call, sizes_call, block_at_call, block_number_call, macro_block_at_call, macro_block_number_call, macro_block_of_call, sample_offset_call, setup_call, limit_call, matrix_call, lengths_returned, work_lengths_call};
ghost use Rattle.answer_lists.specs.Lists.{table_call};

use setup::SetupAnswer;
use theora::WorkAnswer;

fn return_lengths(answer: WorkAnswer, list: &mut [u64]) -> u32
    requires { length list.old ≡ 11 }
    ensures { gives result list.new ≡ lengths_returned list.old answer }
{
    match answer {
        WorkAnswer::Is(l) => {
            let numbers = [
                l.records, l.coded, l.coefs, l.dc, l.lasts, l.flags, l.bits, l.supers, l.modes,
                l.active, l.bytes,
            ];
            answer_lists::store(list, &numbers)
        }
        WorkAnswer::Refused(k) => k,
    }
}

// Reads an identification header; session receives the fresh session, place the bit place of a refusal.
pub fn wedgepetal_identification(packet: &[u8], session: &mut [u64], place: &mut [u64]) -> u32
    ensures { answers result session.new place.new ≡ identification_call packet.now session.old place.old }
{
    if (session.len() == 19) & (place.len() == 1) {
        return answer_lists::return_session(theora::identification(packet), session, place);
    }
    bitstream::WRONG_LENGTH
}

// The sizes of a session's frames.
pub fn wedgepetal_sizes(session: &[u64], sizes: &mut [u64]) -> u32
    ensures { gives result sizes.new ≡ sizes_call session.now sizes.old }
{
    let k = session_list::lists_refusal(session, sizes.len(), 16);
    if k == 0 {
        return answer_lists::return_sizes(theora::sizes(session_list::session_of(session)), sizes);
    }
    k
}

// The block that is this number in coded order.
pub fn wedgepetal_block_at(session: &[u64], number: u64, block: &mut [u64]) -> u32
    ensures { gives result block.new ≡ block_at_call session.now number block.old }
{
    let k = session_list::lists_refusal(session, block.len(), 3);
    if k == 0 {
        return answer_lists::return_block(
            queries::block_at(session_list::session_of(session), number),
            block,
        );
    }
    k
}

// The number in coded order of block (x, y) of a plane.
pub fn wedgepetal_block_number(
    session: &[u64],
    plane: u64,
    x: u64,
    y: u64,
    number: &mut [u64],
) -> u32
    ensures { gives result number.new ≡ block_number_call session.now plane x y number.old }
{
    let k = session_list::lists_refusal(session, number.len(), 1);
    if k == 0 {
        return answer_lists::return_number(
            queries::block_number(session_list::session_of(session), plane, x, y),
            number,
        );
    }
    k
}

// The macro block that is this number in coded order.
pub fn wedgepetal_macro_block_at(session: &[u64], number: u64, place: &mut [u64]) -> u32
    ensures { gives result place.new ≡ macro_block_at_call session.now number place.old }
{
    let k = session_list::lists_refusal(session, place.len(), 2);
    if k == 0 {
        return answer_lists::return_place(
            queries::macro_block_at(session_list::session_of(session), number),
            place,
        );
    }
    k
}

// The number in coded order of macro block (x, y).
pub fn wedgepetal_macro_block_number(session: &[u64], x: u64, y: u64, number: &mut [u64]) -> u32
    ensures { gives result number.new ≡ macro_block_number_call session.now x y number.old }
{
    let k = session_list::lists_refusal(session, number.len(), 1);
    if k == 0 {
        return answer_lists::return_number(
            queries::macro_block_number(session_list::session_of(session), x, y),
            number,
        );
    }
    k
}

// The macro block that block (x, y) of a plane belongs to.
pub fn wedgepetal_macro_block_of(
    session: &[u64],
    plane: u64,
    x: u64,
    y: u64,
    place: &mut [u64],
) -> u32
    ensures { gives result place.new ≡ macro_block_of_call session.now plane x y place.old }
{
    let k = session_list::lists_refusal(session, place.len(), 2);
    if k == 0 {
        return answer_lists::return_place(
            queries::macro_block_of(session_list::session_of(session), plane, x, y),
            place,
        );
    }
    k
}

// Where in a plane buffer a sample of block (x, y) of a plane lies.
pub fn wedgepetal_sample_offset(
    session: &[u64],
    plane: u64,
    x: u64,
    y: u64,
    column: u64,
    row: u64,
    offset: &mut [u64],
) -> u32
    ensures { gives result offset.new ≡ sample_offset_call session.now plane x y column row offset.old }
{
    let k = session_list::lists_refusal(session, offset.len(), 1);
    if k == 0 {
        return answer_lists::return_number(
            queries::sample_offset(session_list::session_of(session), plane, x, y, column, row),
            offset,
        );
    }
    k
}

// Reads a setup header into table memory; place receives the bit place of a refusal.
pub fn wedgepetal_setup(packet: &[u8], table: &mut [u8], place: &mut [u64]) -> u32
    ensures { answers result table.new place.new ≡ setup_call packet.now table.old place.old }
{
    if place.len() != 1 {
        return bitstream::WRONG_LENGTH;
    }
    match theora::setup(packet, table) {
        SetupAnswer::Accepted => {
            place[0] = 0;
            0
        }
        SetupAnswer::Refused(k, e) => {
            place[0] = e as u64;
            k
        }
    }
}

// Whether some accepted setup packet leaves this table memory: 0 if so, else 8.
pub fn wedgepetal_table(table: &[u8]) -> u32
    ensures { result ≡ table_call table.now }
{
    answer_lists::table_number(table)
}

// The loop limit of a qi.
pub fn wedgepetal_loop_limit(table: &[u8], qi: u64, limit: &mut [u64]) -> u32
    ensures { gives result limit.new ≡ limit_call table.now qi limit.old }
{
    if limit.len() == 1 {
        return answer_lists::return_number(table_queries::loop_limit(table, qi), limit);
    }
    bitstream::WRONG_LENGTH
}

// The quantization matrix of a type, a plane and a qi.
pub fn wedgepetal_matrix(table: &[u8], qti: u64, plane: u64, qi: u64, matrix: &mut [u64]) -> u32
    ensures { gives result matrix.new ≡ matrix_call table.now qti plane qi matrix.old }
{
    if matrix.len() == 64 {
        let mut numbers = [0u16; 64];
        let answer = table_queries::matrix(table, qti, plane, qi, &mut numbers);
        return answer_lists::return_matrix(answer, &numbers, matrix);
    }
    bitstream::WRONG_LENGTH
}

// The lengths of work memory for a session's frames.
pub fn wedgepetal_work_lengths(session: &[u64], lengths: &mut [u64]) -> u32
    ensures { gives result lengths.new ≡ work_lengths_call session.now lengths.old }
{
    let k = session_list::lists_refusal(session, lengths.len(), 11);
    if k == 0 {
        return return_lengths(
            theora::work_lengths(session_list::session_of(session)),
            lengths,
        );
    }
    k
}
