// Reads the tokens of a frame into the coefficients of its coded blocks, which are named by their rank in coded order.
#![tactic(auto)]

ghost use Rattle.std.specs.Prelude.{◌≡◌, ◌+◌, ◌-◌, ◌*◌, ◌<◌, ◌≤◌, ◌^◌, length, get_or, take, drop};
ghost use Rattle.bitstream.specs.Bits.{longest};
ghost use Rattle.token_reader.specs.Answer.{Lookup};
ghost use Rattle.block_visits.specs.Visits.{state_of};
ghost use Rattle.token_visits.specs.Visits.{pass};
ghost use Rattle.block_positions.specs.Answer.{Below};
ghost use Rattle.block_visits.specs.Answer.{Visited, Shape};
ghost use Rattle.token_visits.specs.Answer.{room};
ghost use Rattle.table_choices.specs.Choices.{choices_of};
ghost use Rattle.tokens.specs.Tokens.{ranks, at_position, positions_from, read_tokens};
ghost use Rattle.tokens.specs.Answer.{unfinished_of, KeptOne, KeptActive, Tables, nodes_at, Ready, Current, tree_at, trees_of, AllOpen, as_counted, Cleared, Stored, Untouched};

use block_visits::Visit;
use table_choices::Chosen;

// The place behind all tokens and how many there are, or the refusal.
#[derive(Clone, Copy)]
pub enum Counted {
    Done(usize, usize),
    Refused(u32, usize),
}

// Moves the block at the index j to the index `kept` of the list; the index behind what is kept, which it is if it is unfinished.
fn keep_one(positions: &[u8], blocks: &mut [u64], j: usize, kept: usize) -> usize
    requires { (j < length blocks.old) × (kept ≤ j) × (get_or blocks.old j 0 < length positions.now) }
    ensures { KeptOne positions.now blocks.old j kept blocks.new result }
{
    let b = blocks[j];
    let p = positions[b as usize];
    blocks[kept] = b;
    kept + block_positions::one_if_unfinished(p)
}

// Moves the unfinished blocks of a list to its front, and answers how many they are.
fn keep_unfinished(positions: &[u8], blocks: &mut [u64]) -> usize
    requires { Below (length positions.now) blocks.old }
    ensures { (take result blocks.new ≡ unfinished_of positions.now blocks.old) × (result ≤ length blocks.old) }
{
    let mut kept = 0;
    let mut j = 0;
    while j < blocks.len() {
        kept = keep_one(positions, blocks, j, kept);
        j += 1;
    }
    kept
}

// The blocks of both lists stay as they are, but for the finished ones: how many luma blocks are left, and where the chroma blocks now end.
#[derive(Clone, Copy)]
struct Active(usize, usize);

// Leaves the finished blocks out of two lists in one slice: luma's, the first `lumas`, and chroma's, from `luma` to `end`.
fn keep_active(
    positions: &[u8],
    active: &mut [u64],
    luma: usize,
    lumas: usize,
    end: usize,
) -> Active
    requires lumas_le_luma { (lumas ≤ luma) × (luma ≤ end) × (end ≤ length active.old) }
    requires below { Below (length positions.now) (take lumas active.old) × Below (length positions.now) (take (end - luma) (drop luma active.old)) }
    ensures { KeptActive positions.now active.old luma lumas end active.new result.0 result.1 }
{
    let left = keep_unfinished(positions, &mut active[..lumas]);
    let right = keep_unfinished(positions, &mut active[luma..end]);
    Active(left, luma + right)
}

// Writes the ranks of all blocks.
fn write_ranks(blocks: &mut [u64])
    ensures { blocks.new ≡ ranks 0 (length blocks.old) }
{
    let mut b = 0;
    while b < blocks.len() {
        blocks[b] = b as u64;
        b += 1;
    }
}

// The blocks of a list in turn, at the position k, by the table j. For no block nothing is made ready, which is so of most positions where little moves:
// 2 % of the instructions of the recording five-or-more, 4 % for 1 by 1 macro blocks.
fn pass_table(
    packet: &[u8],
    at: usize,
    nodes: &[u8],
    lookup: &[u64],
    j: usize,
    k: usize,
    blocks: &[u64],
    run: usize,
    tokens: usize,
    positions: &mut [u8],
    lasts: &mut [u8],
    coefs: &mut [i16],
) -> Visit
    requires packet_len_bound { (length packet.now ≤ longest) × Tables nodes.now × (j < 80) × (0 < length blocks.now → Lookup (nodes_at nodes.now j) lookup.now) }
    requires shape { Shape positions.old lasts.old coefs.old × (k < 64) × Below (length positions.old) blocks.now × (tokens + room positions.old < 2 ^ 60) }
    ensures { Visited result positions.new lasts.new coefs.new (pass (tree_at nodes.now j) k blocks.now (state_of positions.old lasts.old coefs.old run tokens) packet.now at) }
{
    if blocks.len() == 0 {
        return Visit::Done(at, run, tokens);
    }
    let from = 64 * j;
    let to = from + 64;
    let mut due = [0u64; 64];
    token_visits::pass_blocks(
        packet,
        at,
        &nodes[from..to],
        lookup,
        k,
        blocks,
        &mut due,
        run,
        tokens,
        positions,
        lasts,
        coefs,
    )
}

// The position k: the luma blocks, which are the first `lumas` of the slice, and then the chroma blocks, from `luma` to `end`, each by the table that was chosen.
fn read_position(
    packet: &[u8],
    at: usize,
    nodes: &[u8],
    luma_lookup: &[u64],
    chroma_lookup: &[u64],
    k: usize,
    y: usize,
    c: usize,
    active: &[u64],
    luma: usize,
    lumas: usize,
    end: usize,
    run: usize,
    tokens: usize,
    positions: &mut [u8],
    lasts: &mut [u8],
    coefs: &mut [i16],
) -> Visit
    requires packet_len_bound { (length packet.now ≤ longest) × Tables nodes.now × (y < 16) × (c < 16) × (k < 64) × Ready nodes.now k y lumas luma_lookup.now × Ready nodes.now k c (end - luma) chroma_lookup.now }
    requires lumas_le_luma { (lumas ≤ luma) × (luma ≤ end) × (end ≤ length active.now) × Below (length positions.old) (take lumas active.now) × Below (length positions.old) (take (end - luma) (drop luma active.now)) }
    requires shape { Shape positions.old lasts.old coefs.old × (tokens + room positions.old < 2 ^ 60) }
    ensures { Visited result positions.new lasts.new coefs.new (at_position (trees_of nodes.now) (take lumas active.now) (take (end - luma) (drop luma active.now)) k (choices_of y c) (state_of positions.old lasts.old coefs.old run tokens) packet.now at) }
{
    let g = 16 * table_choices::group_of(k);
    let one = pass_table(
        packet,
        at,
        nodes,
        luma_lookup,
        g + y,
        k,
        &active[..lumas],
        run,
        tokens,
        positions,
        lasts,
        coefs,
    );
    let Visit::Done(next, r, t) = one else {
        return one;
    };
    pass_table(
        packet,
        next,
        nodes,
        chroma_lookup,
        g + c,
        k,
        &active[luma..end],
        r,
        t,
        positions,
        lasts,
        coefs,
    )
}

// From how many blocks on a lookup is filled at the position k. Filling one takes some 2,900 instructions, and a token 90 more where its code is walked;
// at the position 0, a group by itself, a block has at most one token.
fn lookup_pays(k: usize) -> usize {
    if k == 0 {
        return 24;
    }
    7
}

// Fills the lookup of a tree for the codes of so many blocks from the position k on. For few all its entries are 0, so that their codes are walked:
// a frame has up to ten lookups, a tenth of the instructions for 1 by 1 macro blocks.
fn fill_lookup(nodes: &[u8], k: usize, count: usize, lookup: &mut [u64])
    requires { (length nodes.now ≡ 64) × (length lookup.old ≡ 256) }
    ensures { Lookup nodes.now lookup.new }
{
    if count < lookup_pays(k) {
        code_lookup::fill_with(lookup, 0);
        return;
    }
    let values = token::all_values();
    let complete = token::all_complete();
    code_lookup::fill_by(nodes, &values, &complete, lookup);
}

// Fills the lookup of the table that is used at the position k by a choice, where a group begins; else it is there. For no block none is filled.
fn renew_lookup(nodes: &[u8], k: usize, choice: usize, count: usize, lookup: &mut [u64])
    requires { Tables nodes.now × (choice < 16) × Current nodes.now k choice count lookup.old }
    ensures { Ready nodes.now k choice count lookup.new }
{
    if count == 0 {
        return;
    }
    if !table_choices::begins_group(k) {
        return;
    }
    let from = 64 * (16 * table_choices::group_of(k) + choice);
    let to = from + 64;
    fill_lookup(&nodes[from..to], k, count, lookup);
}

// All positions in turn. `active` holds the ranks of all blocks, luma's first; at each position only the unfinished ones are looked at.
fn read_positions(
    packet: &[u8],
    at: usize,
    nodes: &[u8],
    luma: usize,
    positions: &mut [u8],
    lasts: &mut [u8],
    coefs: &mut [i16],
    active: &mut [u64],
) -> Visit
    requires packet_len_bound { (length packet.now ≤ longest) × Tables nodes.now × (luma ≤ length positions.old) }
    requires shape { Shape positions.old lasts.old coefs.old × AllOpen positions.old × (active.old ≡ ranks 0 (length positions.old)) }
    ensures { Visited result positions.new lasts.new coefs.new (positions_from (trees_of nodes.now) (ranks 0 luma) (ranks luma (length positions.old - luma)) 64 0 (choices_of 0 0) (state_of positions.old lasts.old coefs.old 0 0) packet.now at) }
{
    let mut luma_lookup = [0u64; 256];
    let mut chroma_lookup = [0u64; 256];
    let mut k = 0;
    let mut place = at;
    let mut y = 0;
    let mut c = 0;
    let mut left = 0;
    let mut count = 0;
    let mut lumas = luma;
    let mut end = active.len();
    while k < 64 {
        let choice = table_choices::read_choices(packet, place, k, y, c);
        match choice {
            Chosen::Refused(number, e) => {
                return Visit::Refused(number, e);
            }
            Chosen::Tables(a, b, next) => {
                renew_lookup(nodes, k, a, lumas, &mut luma_lookup);
                renew_lookup(nodes, k, b, end - luma, &mut chroma_lookup);
                let one = read_position(
                    packet,
                    next,
                    nodes,
                    &luma_lookup,
                    &chroma_lookup,
                    k,
                    a,
                    b,
                    active,
                    luma,
                    lumas,
                    end,
                    left,
                    count,
                    positions,
                    lasts,
                    coefs,
                );
                let Visit::Done(after, r, t) = one else {
                    return one;
                };
                let unfinished = keep_active(positions, active, luma, lumas, end);
                lumas = unfinished.0;
                end = unfinished.1;
                y = a;
                c = b;
                place = after;
                left = r;
                count = t;
                k += 1;
            }
        }
    }
    Visit::Done(place, left, count)
}

// All tokens of a frame with `count` coded blocks, of which the first `luma` are luma's. What they give goes to the front of the slices, one element
// of `lasts` and 64 of `coefs` for each block; `positions` and `active` are scratch. Nothing behind the elements of the coded blocks is touched.
pub fn read_tokens(
    packet: &[u8],
    at: usize,
    nodes: &[u8],
    luma: usize,
    count: usize,
    positions: &mut [u8],
    lasts: &mut [u8],
    coefs: &mut [i16],
    active: &mut [u64],
) -> Counted
    requires packet_len_bound { (length packet.now ≤ longest) × Tables nodes.now × (luma ≤ count) }
    requires cleared { Cleared count positions.old lasts.old coefs.old active.old }
    ensures value { result ≡ as_counted (read_tokens (trees_of nodes.now) luma count packet.now at) }
    ensures stored { Stored count lasts.new coefs.new (read_tokens (trees_of nodes.now) luma count packet.now at) }
    ensures untouched { Untouched count positions.old lasts.old coefs.old active.old positions.new lasts.new coefs.new active.new }
{
    let size = 64 * count;
    write_ranks(&mut active[..count]);
    let visit = read_positions(
        packet,
        at,
        nodes,
        luma,
        &mut positions[..count],
        &mut lasts[..count],
        &mut coefs[..size],
        &mut active[..count],
    );
    match visit {
        Visit::Refused(number, place) => Counted::Refused(number, place),
        Visit::Done(next, _, tokens) => Counted::Done(next, tokens),
    }
}
