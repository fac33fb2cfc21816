// Fills the lookup of a tree, which has an entry for each string of eight bits.
#![tactic(auto)]

ghost use Rattle.std.specs.Prelude.{◌≡◌, ℕ, ◌+◌, ◌/◌, ◌<◌, ◌≤◌, ◌^◌, length, get_or, replicate};
ghost use Rattle.bitstream.specs.Lists.{tabulated};
ghost use Rattle.code_walk.specs.Walk.{Values};
ghost use Rattle.code_lookup.specs.Lookup.{leaf_part, spread, lookup_of};

// Fills a part of a lookup.
pub fn fill_with(lookup: &mut [u64], entry: u64)
    ensures { lookup.new ≡ replicate (length lookup.old) entry }
{
    let mut i = 0;
    while i < lookup.len() {
        lookup[i] = entry;
        i += 1;
    }
}

// Fills a part of a lookup by the complete values from an index on, each for 2 ^ `shift` entries; to each so many bits are added.
fn fill_extra(lookup: &mut [u64], complete: &[u64], from: usize, shift: usize, bits: u64)
    requires { Values 256 complete.now × (shift ≤ 8) × (bits ≤ 2 ^ 40) × (from < 256) × ((i : ℕ) → i < length lookup.old → from + i / 2 ^ shift < 256) }
    ensures { lookup.new ≡ tabulated (λ i. get_or complete.now (from + i / 2 ^ shift) 0 + bits) 0 (length lookup.old) }
{
    let mut i = 0;
    while i < lookup.len() {
        let of_token = complete[from + (i >> shift)];
        lookup[i] = of_token + bits;
        i += 1;
    }
}

// The part of a lookup for the code of a token, below which `left` bits more are looked up. Where those hold its extra bits too, of which there are at most three,
// its entries are complete. The values are ready in a table: to make each by itself took 6,000 instructions a lookup more.
fn fill_leaf(values: &[u64], complete: &[u64], token: usize, left: usize, lookup: &mut [u64])
    requires { Values 32 values.now × Values 256 complete.now × (token < 32) × (left ≤ 8) × (length lookup.old ≡ 2 ^ left) }
    ensures { lookup.new ≡ leaf_part values.now complete.now left token }
{
    let of_token = values[token];
    let extra = (of_token / 0x1000000000) as usize;
    let taken = 8 - left;
    let bits = taken as u64 * 0x1000000000;
    if extra == 0 {
        let of_complete = complete[8 * token];
        fill_with(lookup, of_complete + bits);
        return;
    }
    if (extra <= 3) & (extra <= left) {
        fill_extra(lookup, complete, 8 * token, left - extra, bits);
        return;
    }
    fill_with(lookup, of_token + bits);
}

// The part of a lookup for the codes that lead to a node, below which `left` bits more are looked up.
fn spread(
    nodes: &[u8],
    values: &[u64],
    complete: &[u64],
    node: usize,
    left: usize,
    lookup: &mut [u64],
)
    requires { (length nodes.now ≡ 64) × Values 32 values.now × Values 256 complete.now × (node < 200) × (left ≤ 8) × (length lookup.old ≡ 2 ^ left) }
    ensures { lookup.new ≡ spread nodes.now values.now complete.now left node }
{
    let at = node % 64;
    let value = nodes[at];
    if value < 128 {
        let token = (value % 32) as usize;
        fill_leaf(values, complete, token, left, lookup);
        return;
    }
    if left == 0 {
        lookup[0] = 0;
        return;
    }
    let end = lookup.len();
    let half = end / 2;
    spread(
        nodes,
        values,
        complete,
        at + 1,
        left - 1,
        &mut lookup[..half],
    );
    spread(
        nodes,
        values,
        complete,
        value as usize - 128,
        left - 1,
        &mut lookup[half..end],
    );
}

// The lookup of a tree by eight bits. Each node is gone to once: a tree has at most 63, and a step for each of 256 strings of bits would take more.
pub fn fill_by(nodes: &[u8], values: &[u64], complete: &[u64], lookup: &mut [u64])
    requires { (length nodes.now ≡ 64) × Values 32 values.now × Values 256 complete.now × (length lookup.old ≡ 256) }
    ensures { lookup.new ≡ lookup_of nodes.now values.now complete.now }
{
    spread(nodes, values, complete, 0, 8, lookup);
}
