// The quantization parameters of the setup header, read into lent slices; the base matrices stay in the packet.
#![tactic(auto)]

ghost use Rattle.std.specs.Prelude.{◌≡◌, [], ◌+◌, ◌-◌, ◌*◌, ◌≤◌, ◌<◌, length, drop, replicate};
ghost use Rattle.std.proofs.Math.Seq.{paste};
ghost use Rattle.bitstream.specs.Bits.{bits, longest};
ghost use Rattle.bitstream.specs.Reading.{field, many};
ghost use Rattle.bitstream.specs.Answer.{as_field, as_end};
ghost use Rattle.quantization.specs.Parameters.{scales, matrix_count, base_matrix, new_set, more_sets, quantization};
ghost use Rattle.set_fields.specs.Fields.{index};
ghost use Rattle.quantization.specs.Answer.{end_of, Filled, SetFilled, SetAnswer, SetsHeld, as_parameters, Loaded};

use bitstream::{End, Field};

// The place of the first base matrix and the place behind the parameters, or the refusal.
#[derive(Clone, Copy)]
pub enum Parameters {
    Read(usize, usize),
    Refused(u32, usize),
}

// Parameters that were read: the AC and the DC scales, and the sizes and the indices of the quant ranges, 64 elements for each of six sets.
// The base matrices stay in the packet: `place` is that of the first.
#[derive(Clone, Copy)]
pub struct LoadedParameters {
    pub place: usize,
    pub ac_scale: [u16; 64],
    pub dc_scale: [u16; 64],
    pub sizes: [u16; 384],
    pub indices: [u16; 384],
}

// The place that a field's answer says.
fn end_of(field: Field) -> End
    ensures { result ≡ end_of field }
{
    match field {
        Field::Got(_, next) => End::At(next),
        Field::Refused(number, fault) => End::Refused(number, fault),
    }
}

// As many fields of one width as `out` has elements.
pub fn read_fields(packet: &[u8], at: usize, width: usize, out: &mut [u16]) -> End
    requires { (length packet.now ≤ longest) × (width ≤ 16) }
    ensures value { result ≡ as_end (many (length out.old) (field width) packet.now at) }
    ensures filled { Filled (many (length out.old) (field width) packet.now at) out.new }
{
    let mut place = at;
    let mut k = 0;
    while k < out.len() {
        let one = bitstream::read(packet, place, width);
        match one {
            Field::Refused(number, fault) => {
                return End::Refused(number, fault);
            }
            Field::Got(value, next) => {
                out[k] = value as u16;
                place = next;
            }
        }
        k += 1;
    }
    End::At(place)
}

// 64 scale values.
fn read_scales(packet: &[u8], at: usize, out: &mut [u16]) -> End
    requires { (length packet.now ≤ longest) × (length out.old ≡ 64) }
    ensures value { result ≡ as_end (scales packet.now at) }
    ensures filled { Filled (scales packet.now at) out.new }
{
    let first = bitstream::read(packet, at, 4);
    match first {
        Field::Refused(number, fault) => End::Refused(number, fault),
        Field::Got(value, next) => {
            let width = value as usize + 1;
            read_fields(packet, next, width, out)
        }
    }
}

// The number of base matrices.
fn read_count(packet: &[u8], at: usize) -> Field
    requires { length packet.now ≤ longest }
    ensures { result ≡ as_field (matrix_count packet.now at) }
{
    let one = bitstream::read(packet, at, 9);
    match one {
        Field::Refused(number, fault) => Field::Refused(number, fault),
        Field::Got(value, next) => {
            if 384 < value + 1 {
                return Field::Refused(bitstream::BAD_SETUP, at);
            }
            Field::Got(value + 1, next)
        }
    }
}

// The place behind the base matrices, which stay where they are: the refusal is at the first number that is not there whole.
fn matrices_end(packet: &[u8], at: usize, count: usize) -> End
    requires { (length packet.now ≤ longest) × (at ≤ bits packet.now) × (count ≤ 384) }
    ensures { result ≡ as_end (many count base_matrix packet.now at) }
{
    let left = packet.len() * 8 - at;
    if left < count * 512 {
        return End::Refused(bitstream::PACKET_ENDS, at + left / 8 * 8);
    }
    End::At(at + count * 512)
}

// A new set of ranges, at the front of two slices.
fn read_new(packet: &[u8], at: usize, count: usize, sizes: &mut [u16], indices: &mut [u16]) -> End
    requires { (length packet.now ≤ longest) × (1 ≤ count) × (count ≤ 384) × (length sizes.old ≡ 64) × (length indices.old ≡ 64) }
    ensures value { result ≡ as_end (new_set count packet.now at) }
    ensures set_filled { SetFilled (new_set count packet.now at) sizes.old sizes.new indices.old indices.new }
{
    let first = set_fields::read_index(packet, at, count);
    let Field::Got(begin, behind) = first else {
        return end_of(first);
    };
    indices[0] = begin as u16;
    let mut place = behind;
    let mut reached: usize = 0;
    let mut k: usize = 0;
    while reached < 63 {
        let size = set_fields::read_size(packet, place, reached);
        let Field::Got(less, next) = size else {
            return end_of(size);
        };
        let end = set_fields::read_index(packet, next, count);
        let Field::Got(index, after) = end else {
            return end_of(end);
        };
        let one = less as usize + 1;
        sizes[k] = one as u16;
        k += 1;
        indices[k] = index as u16;
        reached += one;
        place = after;
    }
    End::At(place)
}

// Copies the 64 elements from the index `from` on to those from `to` on, which lie behind them.
fn copy_part(s: &mut [u16], from: usize, to: usize)
    requires { (from + 64 ≤ to) × (to + 64 ≤ length s.old) }
    ensures { s.new ≡ paste s.old to (drop from s.old) 64 }
{
    let mut k = 0;
    while k < 64 {
        s[to + k] = s[from + k];
        k += 1;
    }
}

// Set k, new or the copy of the one that stands `back` sets before it, in its 64 elements of two slices.
fn read_set(
    packet: &[u8],
    at: usize,
    count: usize,
    k: usize,
    back: usize,
    sizes: &mut [u16],
    indices: &mut [u16],
) -> End
    requires { (length packet.now ≤ longest) × (1 ≤ count) × (count ≤ 384) × (k < 6) × (back ≤ k) × (length sizes.old ≡ 384) × (length indices.old ≡ 384) }
    ensures { SetAnswer count packet.now at k back sizes.old sizes.new indices.old indices.new result }
{
    let start = k * 64;
    let end = start + 64;
    if back == 0 {
        return read_new(
            packet,
            at,
            count,
            &mut sizes[start..end],
            &mut indices[start..end],
        );
    }
    let from = start - back * 64;
    copy_part(sizes, from, start);
    copy_part(indices, from, start);
    End::At(at)
}

// The six sets.
fn read_sets(packet: &[u8], at: usize, count: usize, sizes: &mut [u16], indices: &mut [u16]) -> End
    requires { (length packet.now ≤ longest) × (1 ≤ count) × (count ≤ 384) × (sizes.old ≡ replicate 384 0) × (indices.old ≡ replicate 384 0) }
    ensures value { result ≡ as_end (more_sets 6 count [] packet.now at) }
    ensures sets_held { SetsHeld (more_sets 6 count [] packet.now at) sizes.new indices.new }
{
    let mut place = at;
    let mut k: usize = 0;
    while k < 6 {
        let from = set_fields::read_origin(packet, place, k);
        let Field::Got(back, next) = from else {
            return end_of(from);
        };
        let set = read_set(packet, next, count, k, back as usize, sizes, indices);
        let End::At(behind) = set else {
            return set;
        };
        place = behind;
        k += 1;
    }
    End::At(place)
}

// All the parameters. The base matrices stay in the packet.
pub fn read_parameters(
    packet: &[u8],
    at: usize,
    ac: &mut [u16],
    dc: &mut [u16],
    sizes: &mut [u16],
    indices: &mut [u16],
) -> Parameters
    requires { (length packet.now ≤ longest) × (length ac.old ≡ 64) × (length dc.old ≡ 64) × (sizes.old ≡ replicate 384 0) × (indices.old ≡ replicate 384 0) }
    ensures value { result ≡ as_parameters (quantization packet.now at) }
    ensures loaded { Loaded (quantization packet.now at) ac.new dc.new sizes.new indices.new }
{
    let first = read_scales(packet, at, ac);
    let a = match first {
        End::Refused(number, fault) => {
            return Parameters::Refused(number, fault);
        }
        End::At(place) => place,
    };
    let second = read_scales(packet, a, dc);
    let b = match second {
        End::Refused(number, fault) => {
            return Parameters::Refused(number, fault);
        }
        End::At(place) => place,
    };
    let number = read_count(packet, b);
    match number {
        Field::Refused(number, fault) => Parameters::Refused(number, fault),
        Field::Got(count, c) => {
            let matrices = matrices_end(packet, c, count as usize);
            let d = match matrices {
                End::Refused(number, fault) => {
                    return Parameters::Refused(number, fault);
                }
                End::At(place) => place,
            };
            let sets = read_sets(packet, d, count as usize, sizes, indices);
            match sets {
                End::Refused(number, fault) => Parameters::Refused(number, fault),
                End::At(e) => Parameters::Read(c, e),
            }
        }
    }
}
