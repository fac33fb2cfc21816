// Red, green and blue of a frame, by five tables of contributions (`colour_tables`).
#![tactic(auto)]

ghost use Rattle.std.specs.Prelude.{◌≡◌, ◌++◌, ◌+◌, ◌*◌, ◌/◌, ◌%◌, ◌≤◌, ◌<◌, length, take};
ghost use Rattle.geometry.specs.Sizes.{up, blocks_of, largest};
ghost use Rattle.output.specs.Output.{left_by, as_written, spliced};
ghost use Rattle.colour_tables.specs.Rule.{contributions};
ghost use Rattle.rgb.specs.Pixel.{to_byte, colours};
ghost use Rattle.rgb.specs.Picture.{chroma_column, chroma_row, row_of, picture_row, picture, picture_for};
ghost use Rattle.rgb.specs.Sums.{Begun, Reaches, RunOf};
ghost use Rattle.colour_tables.specs.Parts.{chroma_rows};

use geometry::PixelFormat;
use headers::Session;
use output::Written;

// A run of bytes of the buffer.
#[derive(Clone, Copy)]
struct Run {
    start: usize,
    end: usize,
}

// From a sum of contributions, with the half, to a byte.
fn to_byte(sum: i32) -> u8
    ensures { result ≡ to_byte sum }
{
    numeric::clamp_to_byte(sum >> 16)
}

// Puts n bytes from `at` on: red, green and blue of a pixel, and as many of red and green again as shall be written over.
// `first` is where in a row of nine the pixel begins.
fn put_pixel(
    tables: &[i32],
    rows: &[i32],
    y: u8,
    cb: u8,
    cr: u8,
    first: usize,
    n: usize,
    out: &mut [u8],
    at: usize,
)
    requires { (tables.now ≡ contributions) × (rows.now ≡ chroma_rows) × (first % 3 ≡ 0) × (first + n ≤ 9) × (3 ≤ n) × (at + n ≤ length out.old) }
    ensures { take (at + 3) out.new ≡ take at out.old ++ colours y cb cr }
{
    let light = tables[y as usize];
    let u = 9 * (cb as usize) + first;
    let v = 2304 + 9 * (cr as usize) + first;
    let mut j: usize = 0;
    while j < n {
        let one = rows[u + j];
        let two = rows[v + j];
        let sum = one + two + light;
        out[at + j] = to_byte(sum);
        j += 1;
    }
}

// Pixels 2 k and 2 k + 1 of a row, which share their chroma samples; n bytes for the second one.
fn put_pair(
    tables: &[i32],
    rows: &[i32],
    luma: &[u8],
    cb: &[u8],
    cr: &[u8],
    k: usize,
    n: usize,
    out: &mut [u8],
)
    requires tables_value { (tables.now ≡ contributions) × (rows.now ≡ chroma_rows) × (2 * k + 2 ≤ length luma.now) × (k < length cb.now) × (k < length cr.now) }
    requires n_bound { (n ≤ 6) × (3 ≤ n) × (6 * k + 3 + n ≤ length out.old) × Begun (λ x. x / 2) luma.now cb.now cr.now (2 * k) out.old }
    ensures { Begun (λ x. x / 2) luma.now cb.now cr.now (2 * (k + 1)) out.new }
{
    let y = luma[2 * k];
    let z = luma[2 * k + 1];
    let u = cb[k];
    let v = cr[k];
    put_pixel(tables, rows, y, u, v, 0, 3, out, 6 * k);
    put_pixel(tables, rows, z, u, v, 3, n, out, 6 * k + 3);
}

// A row in which each chroma sample serves two pixels. Eight bytes are written for each pair: the next pair writes over two
// of them, and the last pair has six. A pair is 28 instructions: 0.69 ms for 1280 by 720 pixels, where single sums took 1.16.
fn write_pairs(tables: &[i32], rows: &[i32], luma: &[u8], cb: &[u8], cr: &[u8], out: &mut [u8])
    requires tables_value { (tables.now ≡ contributions) × (rows.now ≡ chroma_rows) × (length luma.now % 2 ≡ 0) × (length out.old ≡ 3 * length luma.now) }
    requires luma_len_bound { (length luma.now ≤ 2 * length cb.now) × (length luma.now ≤ 2 * length cr.now) }
    ensures { out.new ≡ row_of (λ x. x / 2) luma.now cb.now cr.now }
{
    let mut k: usize = 0;
    while 2 * k + 2 < luma.len() {
        put_pair(tables, rows, luma, cb, cr, k, 5, out);
        k += 1;
    }
    if 2 * k < luma.len() {
        put_pair(tables, rows, luma, cb, cr, k, 3, out);
    }
}

// A row in which each pixel has chroma samples of its own. Four bytes are written for each: the next pixel writes over one
// of them, and the last pixel has three.
fn write_singles(tables: &[i32], rows: &[i32], luma: &[u8], cb: &[u8], cr: &[u8], out: &mut [u8])
    requires tables_value { (tables.now ≡ contributions) × (rows.now ≡ chroma_rows) × (length out.old ≡ 3 * length luma.now) }
    requires luma_in_bounds { (length luma.now ≤ length cb.now) × (length luma.now ≤ length cr.now) }
    ensures { out.new ≡ row_of (λ x. x) luma.now cb.now cr.now }
{
    let mut x: usize = 0;
    while x + 1 < luma.len() {
        put_pixel(tables, rows, luma[x], cb[x], cr[x], 0, 4, out, 3 * x);
        x += 1;
    }
    if x < luma.len() {
        put_pixel(tables, rows, luma[x], cb[x], cr[x], 0, 3, out, 3 * x);
    }
}

// A row of pixels, of a row of each plane. Each way is called at one place, so that it becomes part of this function, and the
// compiler sees that the tables are not written to.
fn write_row(
    format: PixelFormat,
    tables: &[i32],
    rows: &[i32],
    luma: &[u8],
    cb: &[u8],
    cr: &[u8],
    out: &mut [u8],
)
    requires tables_value { (tables.now ≡ contributions) × (rows.now ≡ chroma_rows) × Reaches format (length luma.now) (length cb.now) (length cr.now) }
    requires luma_len { (length luma.now % 16 ≡ 0) × (length out.old ≡ 3 * length luma.now) }
    ensures { out.new ≡ row_of (chroma_column format) luma.now cb.now cr.now }
{
    match format {
        PixelFormat::Chroma444 => write_singles(tables, rows, luma, cb, cr, out),
        _ => write_pairs(tables, rows, luma, cb, cr, out),
    }
}

// The row of the chroma samples of row y.
fn chroma_row(format: PixelFormat, y: u64) -> u64
    ensures { result ≡ chroma_row format y }
{
    match format {
        PixelFormat::Chroma420 => y / 2,
        PixelFormat::Chroma422 => y,
        PixelFormat::Chroma444 => y,
    }
}

// Where row y of plane p lies in the buffer, rows counted from below.
fn row_of(format: PixelFormat, w: u64, h: u64, p: u64, y: u64) -> Run
    requires { (w ≤ largest) × (h ≤ largest) × (p < 3) × (y < 8 * up format h p) }
    ensures { RunOf format w h p y result }
{
    let q = geometry::plane_of(format, w, h, p);
    let row = 8 * q.across;
    let start = q.offset + y * row;
    let end = start + row;
    Run {
        start: start as usize,
        end: end as usize,
    }
}

// Row y of a picture, counted from below.
fn write_picture_row(
    format: PixelFormat,
    w: u64,
    h: u64,
    y: u64,
    tables: &[i32],
    rows: &[i32],
    planes: &[u8],
    out: &mut [u8],
)
    requires { (w ≤ largest) × (h ≤ largest) × (y < 16 * h) × (tables.now ≡ contributions) × (rows.now ≡ chroma_rows) × (length planes.now ≡ 64 * blocks_of format w h) × (length out.old ≡ 48 * w) }
    ensures { out.new ≡ picture_row format w h planes.now y }
{
    let v = chroma_row(format, y);
    let a = row_of(format, w, h, 0, y);
    let b = row_of(format, w, h, 1, v);
    let c = row_of(format, w, h, 2, v);
    let a0 = a.start;
    let a1 = a.end;
    let b0 = b.start;
    let b1 = b.end;
    let c0 = c.start;
    let c1 = c.end;
    write_row(
        format,
        tables,
        rows,
        &planes[a0..a1],
        &planes[b0..b1],
        &planes[c0..c1],
        out,
    );
}

// The whole coded frame, top row first.
fn write_picture(
    format: PixelFormat,
    w: u64,
    h: u64,
    tables: &[i32],
    rows: &[i32],
    planes: &[u8],
    out: &mut [u8],
)
    requires { (w ≤ largest) × (h ≤ largest) × (tables.now ≡ contributions) × (rows.now ≡ chroma_rows) × (length planes.now ≡ 64 * blocks_of format w h) × (768 * (h * w) ≤ length out.old) }
    ensures { out.new ≡ spliced 0 (picture format w h planes.now) out.old }
{
    let row = (48 * w) as usize;
    let mut at: usize = 0;
    let mut y = 16 * h;
    while 0 < y {
        y -= 1;
        let end = at + row;
        write_picture_row(format, w, h, y, tables, rows, planes, &mut out[at..end]);
        at = end;
    }
}

// A frame in red, green and blue: three bytes a pixel, the whole coded frame, top row first.
pub fn convert(s: Session, planes: &[u8], out: &mut [u8]) -> Written
    ensures value { result ≡ as_written (picture_for s planes.now (length out.old)) }
    ensures out_after { out.new ≡ left_by (picture_for s planes.now (length out.old)) out.old }
{
    if !headers::session_fits(s) {
        return Written::Refused(bitstream::NOT_GENUINE, 0);
    }
    let format = headers::pixel_format(s.fields.pf);
    let w = s.fields.fmbw;
    let h = s.fields.fmbh;
    let cs = s.fields.cs;
    let sizes = geometry::sizes(format, w, h);
    if planes.len() as u64 != sizes.buffer {
        return Written::Refused(bitstream::WRONG_LENGTH, 0);
    }
    let known = (cs == 1) | (cs == 2);
    if !known {
        return Written::Refused(bitstream::UNKNOWN_COLOUR, 0);
    }
    let n = 768 * sizes.macro_blocks;
    if (out.len() as u64) < n {
        return Written::Refused(bitstream::SHORT_OUTPUT, 0);
    }
    let tables = colour_tables::all_tables();
    let mut rows = [0i32; 4608];
    colour_tables::fill_chroma_rows(&tables, &mut rows);
    write_picture(format, w, h, &tables, &rows, planes, out);
    Written::Bytes(n)
}
