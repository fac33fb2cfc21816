// Huffman trees out of table memory, two at a time. Nearly every tree has all 32 tokens, and so 223 bits: where the second one begins is known before the first one is read, and both are read leaf by leaf in one loop.
// The forks before a leaf are counted and not gone over: a processor foretells few of the branches where other work came in between. 80 trees take 5 us then, and took 18 (Zen 4). Two at once, since each leaf waits for the one before: one at a time took 7 to 9.
#![tactic(auto)]

ghost use Rattle.std.specs.Prelude.{◌≡◌, true, ℕ, ◌+◌, ◌*◌, ◌/◌, ◌%◌, ◌^◌, ◌≤◌, ◌<◌, length, get_or, set, replicate};
ghost use Rattle.bitstream.specs.Bits.{bits, number, longest};
ghost use Rattle.tree_pairs.specs.Pair.{Pushed, Pair};

// The bits from a place on, the first the most significant: 57 at least.
fn bits_at(packet: &[u8], place: usize) -> u64
    ensures { result ≡ number packet.now (place / 8 * 8) 64 * 2 ^ (place % 8) % 2 ^ 64 }
{
    bitstream::window(packet, place) << (place % 8)
}

// Eight entries from `depth` on, of which as many count as forks were read: so none is a branch.
fn push(stack: &mut [u8], depth: usize, twice: u8)
    requires { depth + 8 ≤ length stack.old }
    ensures { Pushed stack.old stack.new depth 8 twice }
{
    let mut k: usize = 0;
    while k < 8 {
        let entry = depth + k;
        stack[entry] = twice;
        k += 1;
    }
}

// The token of the leaf that a window begins with.
fn token_in(window: u64) -> u8
    ensures { result ≡ window / 2 ^ 58 % 32 }
{
    (window / 0x400000000000000 % 32) as u8
}

// A leaf below `depth` + 1 open forks, behind half of `twice` leaves: its token, and at the innermost fork where its 1 branch is. The fork at `depth` stands so many nodes behind `depth` as its entry says.
fn put_leaf(token: u8, twice: usize, depth: usize, stack: &[u8], nodes: &mut [u8], from: usize)
    requires { (depth < length stack.now) × (depth + get_or stack.now depth 0 < 64) × (twice + depth + 1 < 64) × (from + 64 ≤ length nodes.old) × (from ≤ 64) }
    ensures { nodes.new ≡ set (set nodes.old (from + (twice + depth + 1)) token) (from + (depth + get_or stack.now depth 0)) (129 + (twice + depth + 1)) }
{
    let index = twice + depth + 1;
    let leaf = from + index;
    nodes[leaf] = token;
    let fork = depth + stack[depth] as usize;
    let innermost = from + fork;
    nodes[innermost] = 129 + index as u8;
}

// The trees at the bit place `at` of table memory and behind it, if each has 32 leaves and no more than 8 forks before any: false says nothing, and such trees are read one by one. The nodes are zeros before.
pub fn load_pair(packet: &[u8], at: usize, nodes: &mut [u8]) -> bool
    requires { (length packet.now ≤ longest) × (at ≤ bits packet.now) × (nodes.old ≡ replicate 128 0) }
    ensures { result ≡ true → Pair packet.now at nodes.new }
{
    // of each tree: the forks that are open, the bits that follow, and how many forks are open
    let mut first = [0u8; 72];
    let mut second = [0u8; 72];
    let mut a: u64 = 0;
    let mut b: u64 = 0;
    let mut i: usize = 0;
    let mut j: usize = 0;
    let mut leaves: usize = 0;
    while leaves < 31 {
        // 4 leaves of at most 14 bits: filled at each leaf, the windows would be waited for
        if leaves % 4 == 0 {
            let before = at + 7 * leaves;
            let one = before + i;
            let two = before + 223 + j;
            a = bits_at(packet, one);
            b = bits_at(packet, two);
        }
        // the forks before the next leaf of each
        let twice = 2 * leaves;
        let y = u64::leading_zeros(a) as usize;
        let z = u64::leading_zeros(b) as usize;
        if (8 < y) | (8 < z) {
            return false;
        }
        push(&mut first, i, twice as u8);
        push(&mut second, j, twice as u8);
        i += y;
        j += z;
        if (i == 0) | (64 <= i + twice) {
            return false;
        }
        if (j == 0) | (64 <= j + twice) {
            return false;
        }
        a = a << y;
        b = b << z;
        i -= 1;
        j -= 1;
        put_leaf(token_in(a), twice, i, &first, nodes, 0);
        put_leaf(token_in(b), twice, j, &second, nodes, 64);
        a = a << 6;
        b = b << 6;
        leaves += 1;
    }
    let ends = at + 446;
    if (i + j != 0)
        | (packet.len() * 8 < ends)
        | (a < 0x8000000000000000)
        | (b < 0x8000000000000000)
    {
        return false;
    }
    nodes[62] = token_in(a);
    nodes[126] = token_in(b);
    true
}
