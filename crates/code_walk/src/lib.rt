// Finds a token by its code: a walk over the nodes of a tree, bit by bit.
#![tactic(auto)]

ghost use Rattle.std.specs.Prelude.{◌≡◌, ◌-◌, ◌/◌, ◌%◌, ◌<◌, ◌≤◌, ◌^◌};
ghost use Rattle.huffman.specs.Code.{tree_of, Formed};
ghost use Rattle.code_walk.specs.Walk.{Values, branch, entry_in};

// The bit k of a window, the first the most significant.
fn bit_of(window: u64, k: usize) -> u8
    requires { k < 64 }
    ensures { result ≡ window / 2 ^ (63 - k) % 2 }
{
    ((window >> (63 - k)) % 2) as u8
}

// The node after the bit `b` at the fork `node` with the entry `value`.
fn next_node(node: usize, value: u8, b: u8) -> usize
    requires { (node < 64) × (128 ≤ value) }
    ensures { result ≡ branch node value b }
{
    if b == 0 {
        return node + 1;
    }
    value as usize - 128
}

// The entry of the code that stands in a window from its bit `from` on, by a walk over the nodes: the value of its token, and how many bits it has.
// The window holds the whole code, which has at most 31 bits.
pub fn walk(window: u64, from: usize, nodes: &[u8], values: &[u64]) -> u64
    requires { Formed nodes.now × Values 32 values.now × (from < 8) }
    ensures { result ≡ entry_in (tree_of nodes.now) values.now window from 0 }
{
    let mut node = 0;
    let mut taken = 0;
    let mut value = nodes[node];
    while 128 <= value {
        node = next_node(node, value, bit_of(window, from + taken));
        taken += 1;
        value = nodes[node];
    }
    let of_token = values[value as usize];
    of_token + taken as u64 * 0x1000000000
}
