// Reads one token: its Huffman code and its extra bits, all out of one window of 64 bits.
#![tactic(auto)]

ghost use Rattle.std.specs.Prelude.{◌≡◌, ◌+◌, ◌-◌, ◌*◌, ◌/◌, ◌%◌, ◌<◌, ◌≤◌, ◌^◌, ltb, length};
ghost use Rattle.bitstream.specs.Bits.{longest};
ghost use Rattle.huffman.specs.Code.{tree_of, Formed};
ghost use Rattle.token.specs.Token.{row_of};
ghost use Rattle.token.specs.Answer.{as_token, packed, token_values, kind_of};
ghost use Rattle.token_reader.specs.Reader.{token};
ghost use Rattle.token_reader.specs.Answer.{Lookup, entry_at, token_by, token_of};

use token::Token;

// The entry of the code that stands in a window from its bit `from` on: that of its first eight bits, or by the tree where they are no whole code.
fn entry_in(window: u64, from: usize, nodes: &[u8], lookup: &[u64], values: &[u64]) -> u64
    requires { (from < 8) × Formed nodes.now × (length lookup.now ≡ 256) × (values.now ≡ token_values) }
    ensures { result ≡ entry_at nodes.now lookup.now window from }
{
    let first = ((window >> (56 - from)) % 256) as usize;
    let entry = lookup[first];
    if entry == 0 {
        return code_walk::walk(window, from, nodes, values);
    }
    entry
}

// The token of an entry that is not complete: one load behind the window tells its row and all its bits, where the tree, the token and its row were three, one after the other.
// Its extra bits come out of the same window.
fn token_by(entry: u64, window: u64, at: usize) -> Token
    requires { (entry % 0x10000000 ≡ packed (row_of (entry / 0x10000000 % 32))) × (entry / 0x1000000000 ≤ 43) × (at < 2 ^ 62) }
    ensures { result ≡ as_token (token_by entry window at) }
{
    let row = (entry % 0x10000000) as u32;
    let t = (entry / 0x10000000 % 32) as usize;
    let bits = (entry / 0x1000000000) as usize;
    let width = token::extra_bits(row);
    // halved first, so that the shift is below 64 even where a token has no bits
    let halved = window / 2;
    let x = ((halved >> (63 - at % 8 - bits)) % (1 << width)) as u32;
    token::meaning_by(t, row, x, at + bits)
}

// The token of an entry, which may be complete: then it says what comes out, and neither a row nor the window is looked at. In the recording cif 9 of 10 tokens are values
// by such entries, each some 40 instructions less.
fn token_of(entry: u64, window: u64, at: usize) -> Token
    requires { (kind_of entry ≡ 0 → entry % 0x10000000 ≡ packed (row_of (entry / 0x10000000 % 32))) × (entry / 0x1000000000 ≤ 43) × (at < 2 ^ 62) }
    ensures { result ≡ as_token (token_of entry window at) }
{
    let kind = entry / 0x200000000 % 8;
    if kind == 0 {
        return token_by(entry, window, at);
    }
    let bits = (entry / 0x1000000000) as usize;
    let next = at + bits;
    if kind == 3 {
        let zeros = (entry / 0x10000 % 64) as u16;
        let value = (entry % 1024) as i16 - 512;
        return Token::Coefficient(zeros, value, next);
    }
    let run = (entry % 0x10000) as u16;
    if kind == 1 {
        return Token::EndOfBlock(run, next);
    }
    Token::ZeroRun(run, next)
}

// Whether a packet of `size` bytes ends before so many bits from the place `at` on. Where it has the window whole nothing is cut, which saves eight instructions a token.
fn is_cut(size: usize, at: usize, bits: usize) -> bool
    requires { bits ≤ 43 }
    ensures { result ≡ ltb size (at / 8 + (at % 8 + bits + 7) / 8) }
{
    if at / 8 + 8 <= size {
        return false;
    }
    size < at / 8 + (at % 8 + bits + 7) / 8
}

// The token at the place `at`. Its bytes are looked at once, for the window: code and extra bits have at most 43 bits, and begin in the first byte.
// Behind the packet's end the window has zeros, so a token that reaches past it is one that the packet cuts.
pub fn read_token(packet: &[u8], at: usize, nodes: &[u8], lookup: &[u64], values: &[u64]) -> Token
    requires { (length packet.now ≤ longest) × Formed nodes.now × Lookup nodes.now lookup.now × (values.now ≡ token_values) }
    ensures { result ≡ as_token (token (tree_of nodes.now) packet.now at) }
{
    let window = bitstream::window(packet, at);
    let from = at % 8;
    let entry = entry_in(window, from, nodes, lookup, values);
    let bits = (entry / 0x1000000000) as usize;
    if is_cut(packet.len(), at, bits) {
        return Token::Refused(bitstream::PACKET_ENDS, at);
    }
    token_of(entry, window, at)
}
