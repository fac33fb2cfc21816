// Huffman trees out of table memory, where each stands as in the setup packet.
#![tactic(auto)]

ghost use Rattle.std.specs.Prelude.{◌≡◌, ◌≤◌, length, replicate};
ghost use Rattle.bitstream.specs.Bits.{bits, longest};
ghost use Rattle.bitstream.specs.Answer.{IfGot};
ghost use Rattle.huffman.specs.Tree.{huffman_tree, nodes_of};
ghost use Rattle.stored_trees.specs.Answer.{leaves_of};

// The tree at the bit place `at` of table memory, which every frame call reads back: how many leaves it has, 0 where there is none. The nodes are zeros before; after a refusal they are open.
// Node by node, with no call of itself, 80 trees take 84,000 instructions, by `huffman::read_tree` 265,000. With the forks before a leaf in a function of their own a frame call of 1 by 1 macro blocks takes 3 % more.
// The bits stand in a window, the first the most significant. With at most 31 forks 4 leaves have at most 55 bits, so that it is filled at every fourth leaf: filled at each one, they took 3 us more.
// A fork whose 1 branch is still to come has as its entry the fork that is open above it, or 64. A 32nd fork makes 33 leaves, and so would a code of 32 bits.
pub fn load_tree(packet: &[u8], at: usize, nodes: &mut [u8]) -> usize
    requires { (length packet.now ≤ longest) × (at ≤ bits packet.now) × (nodes.old ≡ replicate 64 0) }
    ensures value { result ≡ leaves_of (huffman_tree packet.now at) }
    ensures if_got { IfGot (λ t. nodes.new ≡ nodes_of t) (huffman_tree packet.now at) }
{
    let mut window: u64 = 0;
    let mut from = at;
    let mut index: usize = 0;
    let mut leaves: usize = 0;
    let mut open: usize = 64;
    loop {
        if leaves % 4 == 0 {
            let place = from + index;
            window = bitstream::window(packet, place) << (place % 8);
            // the tokens of 4 leaves: a place of 5 bits for each leaf would be kept up at every leaf, which takes 1.4 us for 80 trees
            from += 20;
        }
        while window < 0x8000000000000000 {
            if index == 31 + leaves {
                return 0;
            }
            nodes[index] = open as u8;
            open = index;
            index += 1;
            window *= 2;
        }
        nodes[index] = (window / 0x400000000000000 % 32) as u8;
        index += 1;
        leaves += 1;
        if open == 64 {
            if packet.len() * 8 < at + 7 * leaves - 1 {
                return 0;
            }
            return leaves;
        }
        let fork = open;
        open = nodes[fork] as usize;
        nodes[fork] = 128 + index as u8;
        window = window << 6;
    }
}
