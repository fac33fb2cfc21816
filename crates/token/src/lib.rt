// What a token means by its extra bits.
#![tactic(auto)]

ghost use Rattle.std.specs.Prelude.{◌≡◌, ◌+◌, ◌<◌, ◌≤◌, ◌/◌, ◌%◌, ◌^◌};
ghost use Rattle.bitstream.specs.Reading.{got};
ghost use Rattle.token.specs.Token.{meaning, row_of};
ghost use Rattle.numeric.specs.Sign.{with_sign};
ghost use Rattle.token.specs.Answer.{as_token, as_extra, packed, unpacked, token_values, token_complete, Small, sign_of, size_of, zeros_of};

// What a token means, and the bit place behind it: an end-of-block run of so many blocks, a run of zeros, or zeros and then a value.
// Or the number of the refusal and its place.
#[derive(Clone, Copy)]
pub enum Token {
    EndOfBlock(u16, usize),
    ZeroRun(u16, usize),
    Coefficient(u16, i16, usize),
    Refused(u32, usize),
}

// The base and the number of extra bits of a token's sign, of its size and of its zeros.
#[derive(Clone, Copy)]
pub struct Extra(pub u8, pub u8, pub u8, pub u8, pub u8, pub u8);

// A value for each token. Its row by the last seven hexadecimal digits: base and extra bits of the sign, of the size (two digits and one) and of the zeros;
// its number times 2 ^ 28; and how many extra bits it has, times 2 ^ 36.
const VALUES: [u64; 32] = [
    0x1000,
    0x10002000,
    0x20003000,
    0x2030004200,
    0x3040008300,
    0x4050010400,
    0xc060000c00,
    0x3070001300,
    0x6080001600,
    0x90001000,
    0xa1001000,
    0xb0002000,
    0xc1002000,
    0x10d0103000,
    0x10e0104000,
    0x10f0105000,
    0x1100106000,
    0x2110107100,
    0x3120109200,
    0x413010d300,
    0x5140115400,
    0x6150125500,
    0xa160145900,
    0x1170101010,
    0x1180101020,
    0x1190101030,
    0x11a0101040,
    0x11b0101050,
    0x31c0101062,
    0x41d01010a3,
    0x21e0102110,
    0x31f0102121,
];

// The values of all tokens, for entries, which add the bits of a code. Whoever reads many tokens makes them once.
pub fn all_values() -> [u64; 32]
    ensures { result ≡ token_values }
{
    VALUES
}

// What comes out, for each token with at most three extra bits and each number that those can be: eight for each token, 0 where there is none.
// Times 2 ^ 33 the kind, 1 an end of blocks, 2 a run of zeros, 3 a value; a run's length, or 2 ^ 16 times the zeros and 512 plus the value;
// and how many extra bits there are, times 2 ^ 36.
const COMPLETE: [u64; 256] = [
    0x200000001,
    0,
    0,
    0,
    0,
    0,
    0,
    0,
    0x200000002,
    0,
    0,
    0,
    0,
    0,
    0,
    0,
    0x200000003,
    0,
    0,
    0,
    0,
    0,
    0,
    0,
    0x2200000004,
    0x2200000005,
    0x2200000006,
    0x2200000007,
    0,
    0,
    0,
    0,
    0x3200000008,
    0x3200000009,
    0x320000000a,
    0x320000000b,
    0x320000000c,
    0x320000000d,
    0x320000000e,
    0x320000000f,
    0,
    0,
    0,
    0,
    0,
    0,
    0,
    0,
    0,
    0,
    0,
    0,
    0,
    0,
    0,
    0,
    0x3400000001,
    0x3400000002,
    0x3400000003,
    0x3400000004,
    0x3400000005,
    0x3400000006,
    0x3400000007,
    0x3400000008,
    0,
    0,
    0,
    0,
    0,
    0,
    0,
    0,
    0x600000201,
    0,
    0,
    0,
    0,
    0,
    0,
    0,
    0x6000001ff,
    0,
    0,
    0,
    0,
    0,
    0,
    0,
    0x600000202,
    0,
    0,
    0,
    0,
    0,
    0,
    0,
    0x6000001fe,
    0,
    0,
    0,
    0,
    0,
    0,
    0,
    0x1600000203,
    0x16000001fd,
    0,
    0,
    0,
    0,
    0,
    0,
    0x1600000204,
    0x16000001fc,
    0,
    0,
    0,
    0,
    0,
    0,
    0x1600000205,
    0x16000001fb,
    0,
    0,
    0,
    0,
    0,
    0,
    0x1600000206,
    0x16000001fa,
    0,
    0,
    0,
    0,
    0,
    0,
    0x2600000207,
    0x2600000208,
    0x26000001f9,
    0x26000001f8,
    0,
    0,
    0,
    0,
    0x3600000209,
    0x360000020a,
    0x360000020b,
    0x360000020c,
    0x36000001f7,
    0x36000001f6,
    0x36000001f5,
    0x36000001f4,
    0,
    0,
    0,
    0,
    0,
    0,
    0,
    0,
    0,
    0,
    0,
    0,
    0,
    0,
    0,
    0,
    0,
    0,
    0,
    0,
    0,
    0,
    0,
    0,
    0,
    0,
    0,
    0,
    0,
    0,
    0,
    0,
    0x1600010201,
    0x16000101ff,
    0,
    0,
    0,
    0,
    0,
    0,
    0x1600020201,
    0x16000201ff,
    0,
    0,
    0,
    0,
    0,
    0,
    0x1600030201,
    0x16000301ff,
    0,
    0,
    0,
    0,
    0,
    0,
    0x1600040201,
    0x16000401ff,
    0,
    0,
    0,
    0,
    0,
    0,
    0x1600050201,
    0x16000501ff,
    0,
    0,
    0,
    0,
    0,
    0,
    0x3600060201,
    0x3600070201,
    0x3600080201,
    0x3600090201,
    0x36000601ff,
    0x36000701ff,
    0x36000801ff,
    0x36000901ff,
    0,
    0,
    0,
    0,
    0,
    0,
    0,
    0,
    0x2600010202,
    0x2600010203,
    0x26000101fe,
    0x26000101fd,
    0,
    0,
    0,
    0,
    0x3600020202,
    0x3600030202,
    0x3600020203,
    0x3600030203,
    0x36000201fe,
    0x36000301fe,
    0x36000201fd,
    0x36000301fd,
];

// The complete values of all tokens, for entries, which add the bits of a code.
pub fn all_complete() -> [u64; 256]
    ensures { result ≡ token_complete }
{
    COMPLETE
}

// How many extra bits a row says.
pub fn extra_bits(row: u32) -> usize
    ensures { result ≡ row / 0x100000 % 16 + row / 0x100 % 16 + row % 16 }
{
    (row / 0x100000 % 16 + row / 0x100 % 16 + row % 16) as usize
}

// The six numbers of a row.
fn unpacked(row: u32) -> Extra
    ensures { result ≡ unpacked row }
{
    let sign_base = (row / 0x1000000) as u8;
    let sign_bits = (row / 0x100000 % 16) as u8;
    let size_base = (row / 0x1000 % 256) as u8;
    let size_bits = (row / 0x100 % 16) as u8;
    let zero_base = (row / 0x10 % 16) as u8;
    let zero_bits = (row % 16) as u8;
    Extra(
        sign_base, sign_bits, size_base, size_bits, zero_base, zero_bits,
    )
}

// The low n bits of x.
fn low(x: u32, n: usize) -> u32
    requires { n ≤ 12 }
    ensures { (result ≡ x % 2 ^ n) × (result ≤ 4095) }
{
    x % (1 << n)
}

// A value by its sign, 1 for minus, and its size.
fn value_of(sign: u32, size: u16) -> i16
    requires { size ≤ 5000 }
    ensures { result ≡ with_sign sign size }
{
    if sign == 1 {
        return 0 - size as i16;
    }
    size as i16
}

// What the token t means, where its extra bits are the number x.
fn meaning_of(t: usize, row: Extra, x: u32, next: usize) -> Token
    requires { (row ≡ as_extra (row_of t)) × Small row × (x < 2 ^ 16) }
    ensures { result ≡ as_token (got (meaning t (sign_of (row_of t) x) (size_of (row_of t) x) (zeros_of (row_of t) x)) next) }
{
    let size = row.2 as u16 + low(x >> row.5, row.3 as usize) as u16;
    if t < 7 {
        return Token::EndOfBlock(size, next);
    }
    if t < 9 {
        return Token::ZeroRun(size, next);
    }
    let sign = row.0 as u32 + ((x >> row.5) >> row.3);
    let zeros = row.4 as u16 + low(x, row.5 as usize) as u16;
    let value = value_of(sign, size);
    Token::Coefficient(zeros, value, next)
}

// What the token t means whose row is lent as one number, where its extra bits are the number x.
pub fn meaning_by(t: usize, row: u32, x: u32, next: usize) -> Token
    requires { (row ≡ packed (row_of t)) × (x < 2 ^ 16) }
    ensures { result ≡ as_token (got (meaning t (sign_of (row_of t) x) (size_of (row_of t) x) (zeros_of (row_of t) x)) next) }
{
    meaning_of(t, unpacked(row), x, next)
}
