// Huffman trees: one is read from a setup packet into a table of 64 nodes.
#![tactic(auto)]

ghost use Rattle.std.specs.Prelude.{◌≡◌, ◌+◌, ◌-◌, ◌*◌, ◌<◌, ◌≤◌, length, get_or, take};
ghost use Rattle.bitstream.specs.Bits.{bits, number, longest};
ghost use Rattle.bitstream.specs.Answer.{as_end};
ghost use Rattle.huffman.specs.Tree.{tree, huffman_tree};
ghost use Rattle.huffman.specs.Answer.{nodes_after, Told, Stored};

use bitstream::End;

// The byte at an index, 0 past the end.
fn byte_or_zero(packet: &[u8], i: usize) -> u8
    ensures { result ≡ get_or packet.now i 0 }
{
    if i < packet.len() {
        return packet[i];
    }
    0
}

// The seven bits from the bit place `at` on, out of two bytes; past the end they are 0.
fn seven_bits(packet: &[u8], at: usize) -> usize
    requires { at < bits packet.now }
    ensures { (result ≡ number packet.now at 7) × (result < 128) }
{
    let first = packet[at / 8] as usize;
    let second = byte_or_zero(packet, at / 8 + 1) as usize;
    ((first * 256 + second) >> (9 - at % 8)) % 128
}

// The part of a tree at the bit place `at`, below which codes may grow by `depth` bits, with `seen` leaves before it.
// Its nodes go to `out` at `base`: before it stand at most a leaf and a closed fork for each leaf seen, and the open forks above.
// Seven bits at once are a leaf and its token, or a fork and a leaf that is its 0 branch.
// The answer is one number, since an enum would go through memory at each return: 4 times the place behind the part,
// whose n leaves took 7 n - 1 bits; or for a refusal 4 times the place at fault, and 1 for number 4 or 2 for number 7.
fn grow(packet: &[u8], at: usize, depth: usize, seen: usize, out: &mut [u8], base: usize) -> usize
    requires { (length packet.now ≤ longest) × (at ≤ bits packet.now) × (97 ≤ length out.old) × (depth ≤ 32) × (seen ≤ 32) × (base ≤ 2 * seen + (32 - depth)) }
    ensures told { Told result (tree depth seen packet.now at) }
    ensures stored { Stored base out.old out.new (tree depth seen packet.now at) }
{
    let total = packet.len() * 8;
    if total <= at {
        return 4 * at + 1;
    }
    let seven = seven_bits(packet, at);
    if 64 <= seven {
        if 32 <= seen {
            return 4 * at + 2;
        }
        if total < at + 6 {
            return 4 * (at + 1) + 1;
        }
        out[base] = (seven / 2 % 32) as u8;
        return 4 * (at + 6);
    }
    if depth == 0 {
        return 4 * at + 2;
    }
    if (32 <= seven) & (seen < 32) & (at + 7 <= total) {
        let mid = base + 2;
        out[base + 1] = (seven % 32) as u8;
        out[base] = 128 + mid as u8;
        return grow(packet, at + 7, depth - 1, seen + 1, out, mid);
    }
    let left = grow(packet, at + 1, depth - 1, seen, out, base + 1);
    if left % 4 != 0 {
        return left;
    }
    let place = left / 4;
    let leaves = (place - at) / 7;
    let mid = base + 2 * leaves;
    out[base] = 128 + mid as u8;
    grow(packet, place, depth - 1, seen + leaves, out, mid)
}

// Fills `nodes` from the front of `from`.
fn fill_from(nodes: &mut [u8], from: &[u8])
    requires { length nodes.old ≤ length from.now }
    ensures { nodes.new ≡ take (length nodes.old) from.now }
{
    let mut i = 0;
    while i < nodes.len() {
        nodes[i] = from[i];
        i += 1;
    }
}

// The tree at the bit place `at`, into a table of nodes, which a refusal leaves as it was.
pub fn read_tree(packet: &[u8], at: usize, nodes: &mut [u8]) -> End
    requires { (length packet.now ≤ longest) × (length nodes.old ≡ 64) }
    ensures value { result ≡ as_end (huffman_tree packet.now at) }
    ensures nodes_after { nodes.new ≡ nodes_after nodes.old (huffman_tree packet.now at) }
{
    if packet.len() * 8 < at {
        return End::Refused(bitstream::PACKET_ENDS, at);
    }
    // A tree that is refused in the end may come to 97 nodes; an accepted one has at most 63.
    let mut scratch = [0u8; 97];
    let grown = grow(packet, at, 32, 0, &mut scratch, 0);
    let place = grown / 4;
    if grown % 4 == 1 {
        return End::Refused(bitstream::PACKET_ENDS, place);
    }
    if grown % 4 == 2 {
        return End::Refused(bitstream::BAD_SETUP, place);
    }
    fill_from(nodes, &scratch);
    End::At(place)
}
