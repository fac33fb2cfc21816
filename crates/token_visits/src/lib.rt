// A pass over blocks at a position: each is visited in turn.
#![tactic(auto)]

ghost use Rattle.std.specs.Prelude.{◌≡◌, ◌+◌, ◌<◌, ◌≤◌, ◌^◌, length};
ghost use Rattle.bitstream.specs.Bits.{longest};
ghost use Rattle.huffman.specs.Code.{tree_of, Formed};
ghost use Rattle.token_reader.specs.Answer.{Lookup};
ghost use Rattle.block_positions.specs.Answer.{Below};
ghost use Rattle.block_visits.specs.Visits.{state_of};
ghost use Rattle.block_visits.specs.Answer.{Visited, Shape};
ghost use Rattle.token_visits.specs.Visits.{pass};
ghost use Rattle.token_visits.specs.Answer.{room};

use block_visits::Visit;

// The blocks of a list in turn, at the position k.
fn visit_blocks(
    packet: &[u8],
    at: usize,
    nodes: &[u8],
    lookup: &[u64],
    k: usize,
    blocks: &[u64],
    run: usize,
    tokens: usize,
    positions: &mut [u8],
    lasts: &mut [u8],
    coefs: &mut [i16],
) -> Visit
    requires packet_len_bound { (length packet.now ≤ longest) × Formed nodes.now × Lookup nodes.now lookup.now }
    requires shape { Shape positions.old lasts.old coefs.old × (k < 64) × Below (length positions.old) blocks.now × (tokens + room positions.old < 2 ^ 60) }
    ensures { Visited result positions.new lasts.new coefs.new (pass (tree_of nodes.now) k blocks.now (state_of positions.old lasts.old coefs.old run tokens) packet.now at) }
{
    let values = token::all_values();
    let mut j = 0;
    let mut place = at;
    let mut left = run;
    let mut count = tokens;
    while j < blocks.len() {
        let b = blocks[j] as usize;
        let one = block_visits::visit_block(
            packet, place, nodes, lookup, &values, k, b, left, count, positions, lasts, coefs,
        );
        let Visit::Done(next, r, t) = one else {
            return one;
        };
        place = next;
        left = r;
        count = t;
        j += 1;
    }
    Visit::Done(place, left, count)
}

// Where the part of a list ends that begins at the index j: it has at most 64 blocks.
fn part_end(j: usize, count: usize) -> usize
    requires { j < count }
    ensures { (j < result) × (result ≤ count) × (result ≤ j + 64) }
{
    if count - j < 64 {
        return count;
    }
    j + 64
}

// The blocks of a list in turn, at the position k: of 64 at a time those that stand there are gathered in `due`, and visited.
pub fn pass_blocks(
    packet: &[u8],
    at: usize,
    nodes: &[u8],
    lookup: &[u64],
    k: usize,
    blocks: &[u64],
    due: &mut [u64],
    run: usize,
    tokens: usize,
    positions: &mut [u8],
    lasts: &mut [u8],
    coefs: &mut [i16],
) -> Visit
    requires packet_len_bound { (length packet.now ≤ longest) × Formed nodes.now × (0 < length blocks.now → Lookup nodes.now lookup.now) × (length due.old ≡ 64) }
    requires shape { Shape positions.old lasts.old coefs.old × (k < 64) × Below (length positions.old) blocks.now × (tokens + room positions.old < 2 ^ 60) }
    ensures { Visited result positions.new lasts.new coefs.new (pass (tree_of nodes.now) k blocks.now (state_of positions.old lasts.old coefs.old run tokens) packet.now at) }
{
    let mut j = 0;
    let mut place = at;
    let mut left = run;
    let mut count = tokens;
    while j < blocks.len() {
        let end = part_end(j, blocks.len());
        let n = block_positions::gather(positions, &blocks[j..end], k, due);
        let one = visit_blocks(
            packet,
            place,
            nodes,
            lookup,
            k,
            &due[..n],
            left,
            count,
            positions,
            lasts,
            coefs,
        );
        let Visit::Done(next, r, t) = one else {
            return one;
        };
        place = next;
        left = r;
        count = t;
        j = end;
    }
    Visit::Done(place, left, count)
}
