// The setup header: read into a struct, kept in table memory, and read from there.
#![tactic(auto)]

ghost use Rattle.bitstream.specs.Bits.{longest};
ghost use Rattle.std.specs.Prelude.{◌≡◌, ◌≤◌, length};
ghost use Rattle.bitstream.specs.Reading.{refused};
ghost use Rattle.quantization.specs.Answer.{Filled};
ghost use Rattle.bitstream.specs.Answer.{as_end};
ghost use Rattle.setup.specs.Header.{Setup, loop_limits, setup_header};
ghost use Rattle.setup_trees.specs.Answer.{told};
ghost use Rattle.setup.specs.Loaded.{empty_setup, as_setup_read, Loaded};
ghost use Rattle.setup.specs.Table.{setup_outcome, as_setup_answer, table_after, is_table, LeftBySome, held_setup};

use bitstream::{End, Field};
use quantization::{LoadedParameters, Parameters};

// A setup that was read: the loop limits, the quantization parameters, and the nodes of the trees, 64 for each.
#[derive(Clone, Copy)]
pub struct LoadedSetup {
    pub limits: [u16; 64],
    pub parameters: LoadedParameters,
    pub nodes: [u8; 5120],
}

// The place behind a header, and the setup that it says: all zero beside a refusal. (An enum may hold no array.)
#[derive(Clone, Copy)]
pub struct SetupRead {
    pub place: End,
    pub setup: LoadedSetup,
}

// The answer of the setup call: a refusal has its number and its bit place.
#[derive(Clone, Copy)]
pub enum SetupAnswer {
    Accepted,
    Refused(u32, usize),
}

// The length of table memory, in bytes.
pub const TABLE_BYTES: usize = 28184;

// The loop limits.
fn read_limits(packet: &[u8], at: usize, limits: &mut [u16]) -> End
    requires { (length packet.now ≤ longest) × (length limits.old ≡ 64) }
    ensures value { result ≡ as_end (loop_limits packet.now at) }
    ensures filled { Filled (loop_limits packet.now at) limits.new }
{
    let first = bitstream::read(packet, at, 3);
    match first {
        Field::Refused(number, fault) => End::Refused(number, fault),
        Field::Got(value, next) => {
            let width = value as usize;
            quantization::read_fields(packet, next, width, limits)
        }
    }
}

// No setup.
fn empty() -> LoadedSetup
    ensures { result ≡ empty_setup }
{
    let scales = [0u16; 64];
    let ranges = [0u16; 384];
    let nodes = [0u8; 5120];
    let parameters = LoadedParameters {
        place: 0,
        ac_scale: scales,
        dc_scale: scales,
        sizes: ranges,
        indices: ranges,
    };
    LoadedSetup {
        limits: scales,
        parameters,
        nodes,
    }
}

// A setup that is refused.
fn not_read(number: u32, fault: usize) -> SetupRead
    ensures { result ≡ as_setup_read (refused number fault) }
{
    let setup = empty();
    SetupRead {
        place: End::Refused(number, fault),
        setup,
    }
}

// A header that is refused, with the number and the place or without.
fn refuse(placed: bool, number: u32, fault: usize) -> End
    ensures { result ≡ as_end (told {A = Setup} placed (refused number fault)) }
{
    if placed {
        return End::Refused(number, fault);
    }
    End::Refused(bitstream::NOT_GENUINE, 0)
}

// The whole header of a packet, or of table memory, where a refusal's number and place are not wanted. The base matrices stay in the packet.
// The setup is filled in place, since it is large; what a refused header leaves in it is open.
fn load(packet: &[u8], placed: bool, setup: &mut LoadedSetup) -> End
    requires { (length packet.now ≤ longest) × (setup.old ≡ empty_setup) }
    ensures place { result ≡ as_end (told placed (setup_header packet.now 0)) }
    ensures loaded { Loaded (setup_header packet.now 0) setup.new }
{
    let head = headers::read_common_header(packet, 0, 0x82);
    let a = match head {
        End::Refused(number, fault) => {
            return refuse(placed, number, fault);
        }
        End::At(place) => place,
    };
    let first = read_limits(packet, a, &mut setup.limits);
    let b = match first {
        End::Refused(number, fault) => {
            return refuse(placed, number, fault);
        }
        End::At(place) => place,
    };
    let second = quantization::read_parameters(
        packet,
        b,
        &mut setup.parameters.ac_scale,
        &mut setup.parameters.dc_scale,
        &mut setup.parameters.sizes,
        &mut setup.parameters.indices,
    );
    match second {
        Parameters::Refused(number, fault) => refuse(placed, number, fault),
        Parameters::Read(place, c) => {
            setup.parameters.place = place;
            setup_trees::trees(packet, c, placed, &mut setup.nodes)
        }
    }
}

// The setup call.
pub fn setup(packet: &[u8], table: &mut [u8]) -> SetupAnswer
    ensures value { result ≡ as_setup_answer (setup_outcome (length table.old) packet.now) }
    ensures table_after { table.new ≡ table_after table.old packet.now }
{
    if table.len() != TABLE_BYTES {
        return SetupAnswer::Refused(bitstream::WRONG_LENGTH, 0);
    }
    let answer = scan(bitstream::readable(packet), true);
    match answer {
        End::Refused(number, fault) => {
            table_memory::clear(table);
            SetupAnswer::Refused(number, fault)
        }
        End::At(end) => {
            table_memory::keep(packet, end, table);
            SetupAnswer::Accepted
        }
    }
}

// The header of a packet: what the packet says is not wanted any further.
fn scan(packet: &[u8], placed: bool) -> End
    requires { length packet.now ≤ longest }
    ensures { result ≡ as_end (told placed (setup_header packet.now 0)) }
{
    let mut setup = empty();
    load(packet, placed, &mut setup)
}

// The setup that a table memory holds, if it is what an accepted setup packet leaves.
pub fn load_table(table: &[u8]) -> SetupRead
    ensures { result ≡ as_setup_read (held_setup table.now) }
{
    if table.len() != TABLE_BYTES {
        return not_read(bitstream::NOT_GENUINE, 0);
    }
    let mut read = not_read(bitstream::NOT_GENUINE, 0);
    read.place = load(table, false, &mut read.setup);
    let place = read.place;
    match place {
        End::Refused(_, _) => not_read(bitstream::NOT_GENUINE, 0),
        End::At(end) => {
            if table_memory::rest_is_zero(table, end) {
                return read;
            }
            not_read(bitstream::NOT_GENUINE, 0)
        }
    }
}

// Whether a table memory is what an accepted setup packet leaves.
pub fn table_is_genuine(table: &[u8]) -> bool
    ensures value { result ≡ is_table table.now }
    ensures left_by_some { LeftBySome result table.now }
{
    if table.len() != TABLE_BYTES {
        return false;
    }
    match scan(table, false) {
        End::Refused(_, _) => false,
        End::At(end) => table_memory::rest_is_zero(table, end),
    }
}
