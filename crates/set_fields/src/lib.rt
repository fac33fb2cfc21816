// The fields of a set of quant ranges, read and judged: where the set comes from, and the index and the size of a range.
#![tactic(auto)]

ghost use Rattle.std.specs.Prelude.{◌≡◌, ◌+◌, ◌-◌, ◌≤◌, ◌<◌, length};
ghost use Rattle.bitstream.specs.Bits.{longest};
ghost use Rattle.bitstream.specs.Answer.{as_field};
ghost use Rattle.set_fields.specs.Fields.{ilog, index, range_size, origin};

use bitstream::Field;

// How many binary digits n has.
pub fn ilog(n: usize) -> usize
    ensures { result ≡ ilog n }
{
    let mut left = n;
    let mut k = 0;
    while 0 < left {
        left = left / 2;
        k += 1;
    }
    k
}

// The index of one of `count` base matrices.
pub fn read_index(packet: &[u8], at: usize, count: usize) -> Field
    requires { (length packet.now ≤ longest) × (1 ≤ count) × (count ≤ 384) }
    ensures { result ≡ as_field (index count packet.now at) }
{
    let width = ilog(count - 1);
    let one = bitstream::read(packet, at, width);
    match one {
        Field::Refused(number, fault) => Field::Refused(number, fault),
        Field::Got(value, next) => {
            if count <= value as usize {
                return Field::Refused(bitstream::BAD_SETUP, at);
            }
            Field::Got(value, next)
        }
    }
}

// The size less one of the range that begins at qi.
pub fn read_size(packet: &[u8], at: usize, qi: usize) -> Field
    requires { (length packet.now ≤ longest) × (qi < 63) }
    ensures { result ≡ as_field (range_size qi packet.now at) }
{
    let width = ilog(62 - qi);
    let one = bitstream::read(packet, at, width);
    match one {
        Field::Refused(number, fault) => Field::Refused(number, fault),
        Field::Got(value, next) => {
            if 63 < qi + (value as usize + 1) {
                return Field::Refused(bitstream::BAD_SETUP, at);
            }
            Field::Got(value, next)
        }
    }
}

// Where set k comes from: 0 if it is new, else how many sets before it the one stands that it copies.
pub fn read_origin(packet: &[u8], at: usize, k: usize) -> Field
    requires { length packet.now ≤ longest }
    ensures { result ≡ as_field (origin k packet.now at) }
{
    if k == 0 {
        return Field::Got(0, at);
    }
    let fresh = bitstream::read(packet, at, 1);
    let Field::Got(newqr, next) = fresh else {
        return fresh;
    };
    if newqr == 1 {
        return Field::Got(0, next);
    }
    if k < 3 {
        return Field::Got(1, next);
    }
    let same = bitstream::read(packet, next, 1);
    let Field::Got(rpqr, behind) = same else {
        return same;
    };
    if rpqr == 1 {
        return Field::Got(3, behind);
    }
    Field::Got(1, behind)
}
