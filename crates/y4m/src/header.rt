// The header line of a stream: its numbers, written and read.
ghost use Rattle.std.specs.Prelude.{◌≡◌, true, ◌+◌, ◌^◌, ◌≤◌, ◌<◌, length, get_or};
ghost use Rattle.output.specs.Output.{spliced};
ghost use Rattle.y4m.specs.Stream.{two, format_text, header_text, frame_bytes};
ghost use Rattle.y4m.specs.Film.{numbers_in, format_in, numbers_fit, header_end, size_fits, rate_fits, aspect_fits};

use stream_numbers::Numbers;

// Writes two numbers, each behind some text; the place behind them.
fn put_two(out: &mut [u8], at: usize, before: &[u8], a: u64, between: &[u8], b: u64) -> usize
    requires { (a < 10 ^ 10) × (b < 10 ^ 10) × (length before.now ≤ 11) × (length between.now ≤ 2) × (at + 33 ≤ length out.old) }
    ensures value { result ≡ at + length (two before.now a between.now b) }
    ensures out_after { out.new ≡ spliced at (two before.now a between.now b) out.old }
{
    let first = output::put(out, at, before);
    let second = text::put_decimal(out, first, a);
    let third = output::put(out, second, between);
    text::put_decimal(out, third, b)
}

fn put_format(out: &mut [u8], at: usize, pf: u64) -> usize
    requires { at + 10 ≤ length out.old }
    ensures value { result ≡ at + length (format_text pf) }
    ensures out_after { out.new ≡ spliced at (format_text pf) out.old }
{
    if pf == 0 {
        return output::put(out, at, b" C420jpeg\n");
    }
    if pf == 2 {
        return output::put(out, at, b" C422\n");
    }
    output::put(out, at, b" C444\n")
}

// Writes the header line at the beginning of a slice; its length.
pub fn put_header(n: Numbers, out: &mut [u8]) -> usize
    requires { (numbers_fit n ≡ true) × (110 ≤ length out.old) }
    ensures value { result ≡ length (header_text n) }
    ensures out_after { out.new ≡ spliced 0 (header_text n) out.old }
{
    let rate = put_two(out, 0, b"YUV4MPEG2 W", n.width, b" H", n.height);
    let ratio = put_two(out, rate, b" F", n.frn, b":", n.frd);
    let format = put_two(out, ratio, b" Ip A", n.parn, b":", n.pard);
    put_format(out, format, n.pf)
}

fn byte_or_zero(stream: &[u8], i: usize) -> u8
    ensures { result ≡ get_or stream.now i 0 }
{
    if i < stream.len() {
        return stream[i];
    }
    0
}

fn format_in(letter: u8) -> u64
    ensures { result ≡ format_in letter }
{
    if letter == 48 {
        return 0;
    }
    if letter == 50 {
        return 2;
    }
    3
}

// The numbers that the header of a stream says, if it is one.
pub fn numbers_in(stream: &[u8]) -> Numbers
    ensures { result ≡ numbers_in stream.now }
{
    let w = text::scan(stream, 11);
    let h = text::scan(stream, w.next + 2);
    let frn = text::scan(stream, h.next + 2);
    let frd = text::scan(stream, frn.next + 1);
    let parn = text::scan(stream, frd.next + 5);
    let pard = text::scan(stream, parn.next + 1);
    let pf = format_in(byte_or_zero(stream, pard.next + 4));
    Numbers {
        width: w.value,
        height: h.value,
        frn: frn.value,
        frd: frd.value,
        parn: parn.value,
        pard: pard.value,
        pf: pf,
    }
}

fn size_fits(v: u64) -> bool
    ensures { result ≡ size_fits v }
{
    (v % 16 == 0) & ((16 <= v) & (v <= 1048560))
}

fn rate_fits(v: u64) -> bool
    ensures { result ≡ rate_fits v }
{
    (1 <= v) & (v <= 4294967295)
}

fn aspect_fits(a: u64, b: u64) -> bool
    ensures { result ≡ aspect_fits a b }
{
    ((a == 0) & (b == 0)) | (((1 <= a) & (a <= 16777215)) & ((1 <= b) & (b <= 16777215)))
}

// Whether some session that passes 8 has these numbers.
fn numbers_fit(n: Numbers) -> bool
    ensures { result ≡ numbers_fit n }
{
    let sizes = size_fits(n.width) & size_fits(n.height);
    let rates = rate_fits(n.frn) & rate_fits(n.frd);
    let aspects = aspect_fits(n.parn, n.pard);
    let format = (n.pf == 0) | ((n.pf == 2) | (n.pf == 3));
    sizes & (rates & (aspects & format))
}

// The length of the header of these numbers, if the stream begins with it, and else 0.
pub fn header_end(n: Numbers, stream: &[u8]) -> usize
    ensures { result ≡ header_end n stream.now }
{
    if numbers_fit(n) {
        let mut line = [0u8; 110];
        let end = put_header(n, &mut line);
        if text::stands_at(stream, 0, &line[..end]) {
            return end;
        }
    }
    0
}

// The bytes of a frame's planes.
pub fn frame_bytes(n: Numbers) -> usize
    requires { numbers_fit n ≡ true }
    ensures { (result ≡ frame_bytes n) × (0 < result) × (result ≤ 3298434220800) }
{
    let format = headers::pixel_format(n.pf);
    geometry::sizes(format, n.width / 16, n.height / 16).buffer as usize
}
