// Whole numbers in text, written and read, and texts compared.
#![tactic(auto)]

ghost use Rattle.std.specs.Prelude.{◌≡◌, ◌+◌, ◌^◌, ◌≤◌, ◌<◌, length};
ghost use Rattle.output.specs.Output.{spliced, part};
ghost use Rattle.text.specs.Decimal.{digits, decimal, is_digit, FoundAt};
ghost use Rattle.text.specs.Same.{same};

// How many digits a number has.
fn digit_count(n: u64) -> usize
    requires { n < 10 ^ 10 }
    ensures { (decimal n ≡ digits result n) × (result ≤ 10) }
{
    if n < 10 {
        return 1;
    }
    let mut power: u64 = 1000000000;
    let mut k: usize = 10;
    while n < power {
        power = power / 10;
        k -= 1;
    }
    k
}

// Writes the last k digits of n from place `at` on.
fn put_digits(out: &mut [u8], at: usize, n: u64, k: usize)
    requires { at + k ≤ length out.old }
    ensures { out.new ≡ spliced at (digits k n) out.old }
{
    let mut rest = n;
    let mut i = k;
    while 0 < i {
        i -= 1;
        out[at + i] = 48 + (rest % 10) as u8;
        rest = rest / 10;
    }
}

// Writes a number of at most ten digits from place `at` on; the place behind it.
pub fn put_decimal(out: &mut [u8], at: usize, n: u64) -> usize
    requires { (n < 10 ^ 10) × (at + 10 ≤ length out.old) }
    ensures value { result ≡ at + length (decimal n) }
    ensures out_after { out.new ≡ spliced at (decimal n) out.old }
{
    let k = digit_count(n);
    put_digits(out, at, n, k);
    at + k
}

// A number that was read, and the place behind it.
#[derive(Clone, Copy)]
pub struct Found {
    pub value: u64,
    pub next: usize,
}

fn is_digit(c: u8) -> bool
    ensures { result ≡ is_digit c }
{
    (48 <= c) & (c <= 57)
}

// The number that stands at place `at`: at most ten digits. Where there is none it is 0.
pub fn scan(text: &[u8], at: usize) -> Found
    ensures { FoundAt text.now at result.value result.next }
{
    let mut value: u64 = 0;
    let mut next = at;
    let mut k: usize = 0;
    while k < 10 {
        if text.len() <= next {
            return Found { value, next };
        }
        let c = text[next];
        if !is_digit(c) {
            return Found { value, next };
        }
        value = 10 * value + (c - 48) as u64;
        next += 1;
        k += 1;
    }
    Found { value, next }
}

// Whether two texts are the same.
pub fn same(a: &[u8], b: &[u8]) -> bool
    ensures { result ≡ same a.now b.now }
{
    if a.len() != b.len() {
        return false;
    }
    let mut i: usize = 0;
    while i < a.len() {
        if a[i] != b[i] {
            return false;
        }
        i += 1;
    }
    true
}

// Whether these bytes stand in the text at place `at`.
pub fn stands_at(text: &[u8], at: usize, bytes: &[u8]) -> bool
    requires { at ≤ length text.now }
    ensures { result ≡ same (part text.now at (length bytes.now)) bytes.now }
{
    if text.len() - at < bytes.len() {
        return false;
    }
    let end = at + bytes.len();
    same(&text[at..end], bytes)
}
