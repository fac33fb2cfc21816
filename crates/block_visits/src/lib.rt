// What a token does for the block that it is read for, and the visit of one block, which is named by its rank in coded order.
#![tactic(auto)]

ghost use Rattle.std.specs.Prelude.{◌≡◌, ◌<◌, ◌≤◌, ◌^◌, length, get_or};
ghost use Rattle.bitstream.specs.Bits.{longest};
ghost use Rattle.huffman.specs.Code.{tree_of, Formed};
ghost use Rattle.token.specs.Answer.{token_values};
ghost use Rattle.token_reader.specs.Answer.{Lookup};
ghost use Rattle.block_visits.specs.Visits.{state_of, visit};
ghost use Rattle.block_visits.specs.Answer.{Visited, outcome_of, acted, Shape};

use token::Token;

// The place behind what was read, what is left of the end-of-block run, and how many tokens were read so far. Or the number of the refusal and its place.
#[derive(Clone, Copy)]
pub enum Visit {
    Done(usize, usize, usize),
    Refused(u32, usize),
}

// What a token whose code stands at the place `at` does for the block b, which stands at the position k.
fn act_on(
    token: Token,
    at: usize,
    k: usize,
    b: usize,
    run: usize,
    tokens: usize,
    positions: &mut [u8],
    lasts: &mut [u8],
    coefs: &mut [i16],
) -> Visit
    requires { Shape positions.old lasts.old coefs.old × (k < 64) × (b < length positions.old) × (get_or positions.old b 0 ≡ k) × (tokens < 2 ^ 60) }
    ensures { Visited result positions.new lasts.new coefs.new (acted k b at (state_of positions.old lasts.old coefs.old run tokens) (outcome_of token)) }
{
    match token {
        Token::Refused(number, place) => Visit::Refused(number, place),
        Token::EndOfBlock(n, next) => {
            let left = block_positions::run_of(positions, n) - 1;
            positions[b] = 64;
            lasts[b] = k as u8;
            Visit::Done(next, left, tokens + 1)
        }
        Token::ZeroRun(n, next) => {
            let to = k + n as usize;
            if 64 < to {
                return Visit::Refused(bitstream::PAST_BLOCK, at);
            }
            positions[b] = to as u8;
            lasts[b] = k as u8;
            Visit::Done(next, run, tokens + 1)
        }
        Token::Coefficient(n, v, next) => {
            let to = k + n as usize;
            if 64 < to + 1 {
                return Visit::Refused(bitstream::PAST_BLOCK, at);
            }
            coefs[64 * b + to] = v;
            positions[b] = (to + 1) as u8;
            lasts[b] = k as u8;
            Visit::Done(next, run, tokens + 1)
        }
    }
}

// The block b at the position k.
pub fn visit_block(
    packet: &[u8],
    at: usize,
    nodes: &[u8],
    lookup: &[u64],
    values: &[u64],
    k: usize,
    b: usize,
    run: usize,
    tokens: usize,
    positions: &mut [u8],
    lasts: &mut [u8],
    coefs: &mut [i16],
) -> Visit
    requires packet_len_bound { (length packet.now ≤ longest) × Formed nodes.now × Lookup nodes.now lookup.now × (values.now ≡ token_values) }
    requires shape { Shape positions.old lasts.old coefs.old × (k < 64) × (b < length positions.old) × (tokens < 2 ^ 60) }
    ensures { Visited result positions.new lasts.new coefs.new (visit (tree_of nodes.now) k b (state_of positions.old lasts.old coefs.old run tokens) packet.now at) }
{
    let p = positions[b];
    if p != k as u8 {
        return Visit::Done(at, run, tokens);
    }
    if 0 < run {
        let left = run - 1;
        positions[b] = 64;
        lasts[b] = p;
        return Visit::Done(at, left, tokens);
    }
    let token = token_reader::read_token(packet, at, nodes, lookup, values);
    act_on(token, at, k, b, run, tokens, positions, lasts, coefs)
}
