// Headers, sizes and queries.
ghost use Rattle.std.specs.Prelude.{◌≡◌};
ghost use Rattle.session_list.specs.List.{gives, answers};
ghost use Rattle.theora_c.specs.Face.{identification_call, sizes_call, block_at_call, block_number_call, macro_block_at_call, macro_block_number_call, macro_block_of_call, sample_offset_call, setup_call, limit_call, matrix_call, work_lengths_call};
ghost use Rattle.answer_lists.specs.Lists.{table_call};

// Reads an identification header; session receives the fresh session, place the bit place of a refusal.
#[unsafe(no_mangle)]
pub extern "C" fn wedgepetal_identification(
    packet: &[u8],
    session: &mut [u64],
    place: &mut [u64],
) -> u32
    ensures { answers result session.new place.new ≡ identification_call packet.now session.old place.old }
{
    theora_c::wedgepetal_identification(packet, session, place)
}

// The sizes of a session's frames.
#[unsafe(no_mangle)]
pub extern "C" fn wedgepetal_sizes(session: &[u64], sizes: &mut [u64]) -> u32
    ensures { gives result sizes.new ≡ sizes_call session.now sizes.old }
{
    theora_c::wedgepetal_sizes(session, sizes)
}

// The block that is this number in coded order.
#[unsafe(no_mangle)]
pub extern "C" fn wedgepetal_block_at(session: &[u64], number: u64, block: &mut [u64]) -> u32
    ensures { gives result block.new ≡ block_at_call session.now number block.old }
{
    theora_c::wedgepetal_block_at(session, number, block)
}

// The number in coded order of block (x, y) of a plane.
#[unsafe(no_mangle)]
pub extern "C" fn wedgepetal_block_number(
    session: &[u64],
    plane: u64,
    x: u64,
    y: u64,
    number: &mut [u64],
) -> u32
    ensures { gives result number.new ≡ block_number_call session.now plane x y number.old }
{
    theora_c::wedgepetal_block_number(session, plane, x, y, number)
}

// The macro block that is this number in coded order.
#[unsafe(no_mangle)]
pub extern "C" fn wedgepetal_macro_block_at(session: &[u64], number: u64, place: &mut [u64]) -> u32
    ensures { gives result place.new ≡ macro_block_at_call session.now number place.old }
{
    theora_c::wedgepetal_macro_block_at(session, number, place)
}

// The number in coded order of macro block (x, y).
#[unsafe(no_mangle)]
pub extern "C" fn wedgepetal_macro_block_number(
    session: &[u64],
    x: u64,
    y: u64,
    number: &mut [u64],
) -> u32
    ensures { gives result number.new ≡ macro_block_number_call session.now x y number.old }
{
    theora_c::wedgepetal_macro_block_number(session, x, y, number)
}

// The macro block that block (x, y) of a plane belongs to.
#[unsafe(no_mangle)]
pub extern "C" fn wedgepetal_macro_block_of(
    session: &[u64],
    plane: u64,
    x: u64,
    y: u64,
    place: &mut [u64],
) -> u32
    ensures { gives result place.new ≡ macro_block_of_call session.now plane x y place.old }
{
    theora_c::wedgepetal_macro_block_of(session, plane, x, y, place)
}

// Where in a plane buffer a sample of block (x, y) of a plane lies.
#[unsafe(no_mangle)]
pub extern "C" fn wedgepetal_sample_offset(
    session: &[u64],
    plane: u64,
    x: u64,
    y: u64,
    column: u64,
    row: u64,
    offset: &mut [u64],
) -> u32
    ensures { gives result offset.new ≡ sample_offset_call session.now plane x y column row offset.old }
{
    theora_c::wedgepetal_sample_offset(session, plane, x, y, column, row, offset)
}

// Reads a setup header into table memory; place receives the bit place of a refusal.
#[unsafe(no_mangle)]
pub extern "C" fn wedgepetal_setup(packet: &[u8], table: &mut [u8], place: &mut [u64]) -> u32
    ensures { answers result table.new place.new ≡ setup_call packet.now table.old place.old }
{
    theora_c::wedgepetal_setup(packet, table, place)
}

// Whether some accepted setup packet leaves this table memory: 0 if so, else 8.
#[unsafe(no_mangle)]
pub extern "C" fn wedgepetal_table(table: &[u8]) -> u32
    ensures { result ≡ table_call table.now }
{
    theora_c::wedgepetal_table(table)
}

// The loop limit of a qi.
#[unsafe(no_mangle)]
pub extern "C" fn wedgepetal_loop_limit(table: &[u8], qi: u64, limit: &mut [u64]) -> u32
    ensures { gives result limit.new ≡ limit_call table.now qi limit.old }
{
    theora_c::wedgepetal_loop_limit(table, qi, limit)
}

// The quantization matrix of a type, a plane and a qi.
#[unsafe(no_mangle)]
pub extern "C" fn wedgepetal_matrix(
    table: &[u8],
    qti: u64,
    plane: u64,
    qi: u64,
    matrix: &mut [u64],
) -> u32
    ensures { gives result matrix.new ≡ matrix_call table.now qti plane qi matrix.old }
{
    theora_c::wedgepetal_matrix(table, qti, plane, qi, matrix)
}

// The lengths of work memory for a session's frames.
#[unsafe(no_mangle)]
pub extern "C" fn wedgepetal_work_lengths(session: &[u64], lengths: &mut [u64]) -> u32
    ensures { gives result lengths.new ≡ work_lengths_call session.now lengths.old }
{
    theora_c::wedgepetal_work_lengths(session, lengths)
}
