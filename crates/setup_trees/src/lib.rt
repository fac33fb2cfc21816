// The Huffman trees of a setup header, read from its packet or out of table memory.
#![tactic(auto)]

ghost use Rattle.std.specs.Prelude.{false, ◌≡◌, ◌*◌, ◌≤◌, length, replicate};
ghost use Rattle.bitstream.specs.Bits.{bits, longest};
ghost use Rattle.bitstream.specs.Reading.{many};
ghost use Rattle.bitstream.specs.Answer.{as_end};
ghost use Rattle.huffman.specs.Tree.{huffman_tree};
ghost use Rattle.setup_trees.specs.Answer.{TreesFilled, told};

use bitstream::End;

// The 80 Huffman trees, 64 nodes each.
fn read_trees(packet: &[u8], at: usize, nodes: &mut [u8]) -> End
    requires { (length packet.now ≤ longest) × (nodes.old ≡ replicate 5120 0) }
    ensures value { result ≡ as_end (many 80 huffman_tree packet.now at) }
    ensures trees_filled { TreesFilled (many 80 huffman_tree packet.now at) nodes.new }
{
    let mut place = at;
    let mut k: usize = 0;
    while k < 80 {
        let start = k * 64;
        let end = start + 64;
        let one = huffman::read_tree(packet, place, &mut nodes[start..end]);
        match one {
            End::Refused(number, fault) => {
                return End::Refused(number, fault);
            }
            End::At(next) => {
                place = next;
            }
        }
        k += 1;
    }
    End::At(place)
}

// Trees out of table memory, one by one. A refusal says no number and no place of its own.
fn load_each(packet: &[u8], at: usize, count: usize, nodes: &mut [u8]) -> End
    requires { (length packet.now ≤ longest) × (at ≤ bits packet.now) × (count ≤ 80) × (nodes.old ≡ replicate (64 * count) 0) }
    ensures value { result ≡ as_end (told false (many count huffman_tree packet.now at)) }
    ensures trees_filled { TreesFilled (many count huffman_tree packet.now at) nodes.new }
{
    let mut place = at;
    let mut k: usize = 0;
    while k < count {
        let start = k * 64;
        let end = start + 64;
        let leaves = stored_trees::load_tree(packet, place, &mut nodes[start..end]);
        if leaves == 0 {
            return End::Refused(bitstream::NOT_GENUINE, 0);
        }
        // a tree has 7 bits for each leaf, less 1: so the next one's place waits for no bit of this one
        place = place + 7 * leaves - 1;
        k += 1;
    }
    End::At(place)
}

// Two trees out of table memory, at once if they are as nearly all are.
fn load_two(packet: &[u8], at: usize, nodes: &mut [u8]) -> End
    requires { (length packet.now ≤ longest) × (at ≤ bits packet.now) × (nodes.old ≡ replicate 128 0) }
    ensures value { result ≡ as_end (told false (many 2 huffman_tree packet.now at)) }
    ensures trees_filled { TreesFilled (many 2 huffman_tree packet.now at) nodes.new }
{
    if tree_pairs::load_pair(packet, at, nodes) {
        let behind = at + 446;
        return End::At(behind);
    }
    buffer::clear_bytes(nodes, 128);
    load_each(packet, at, 2, nodes)
}

// The same trees out of table memory, which every frame call reads back.
fn load_trees(packet: &[u8], at: usize, nodes: &mut [u8]) -> End
    requires { (length packet.now ≤ longest) × (at ≤ bits packet.now) × (nodes.old ≡ replicate 5120 0) }
    ensures value { result ≡ as_end (told false (many 80 huffman_tree packet.now at)) }
    ensures trees_filled { TreesFilled (many 80 huffman_tree packet.now at) nodes.new }
{
    let mut place = at;
    let mut k: usize = 0;
    while k < 80 {
        let start = k * 64;
        let end = start + 128;
        let both = load_two(packet, place, &mut nodes[start..end]);
        match both {
            End::Refused(number, fault) => {
                return End::Refused(number, fault);
            }
            End::At(next) => {
                place = next;
            }
        }
        k += 2;
    }
    End::At(place)
}

// The trees by the reader that tells a refusal's number and place, or by the faster one that does not.
pub fn trees(packet: &[u8], at: usize, placed: bool, nodes: &mut [u8]) -> End
    requires { (length packet.now ≤ longest) × (at ≤ bits packet.now) × (nodes.old ≡ replicate 5120 0) }
    ensures value { result ≡ as_end (told placed (many 80 huffman_tree packet.now at)) }
    ensures trees_filled { TreesFilled (many 80 huffman_tree packet.now at) nodes.new }
{
    if placed {
        return read_trees(packet, at, nodes);
    }
    load_trees(packet, at, nodes)
}
