// Sizes of a frame, the coded order of its blocks and macro blocks, and where samples lie.
#![tactic(auto)]

mod squares;

ghost use Rattle.std.specs.Prelude.{◌≡◌, ℕ, suc, ◌+◌, ◌-◌, ◌*◌, ◌/◌, ◌%◌, ◌≤◌, ◌<◌, length, get_or};
ghost use Rattle.geometry.specs.Sizes.{chroma_across, chroma_up, squares, plane_super_blocks, macro_blocks_of, blocks_of, super_blocks_of, blocks_before, blocks_each, plane_of, sizes_of, largest};
ghost use Rattle.geometry.specs.Order.{at, in_turn, square_no, block_walk, block_order, coded_macros};
ghost use Rattle.geometry.specs.Frame.{block, frame_order, InFrame, super_blocks_before, super_block_of};
ghost use Rattle.geometry.specs.Raster.{raster_number, block_no};
ghost use Rattle.geometry.specs.Macro.{four_of, blocks_of_macro, macro_of};
ghost use Rattle.geometry.specs.Sample.{sample_at};

// 4:2:0, 4:2:2 (half width), 4:4:4
#[derive(Clone, Copy)]
pub enum PixelFormat {
    Chroma420,
    Chroma422,
    Chroma444,
}

// A plane: its blocks across and up, and the bytes that it takes of the one buffer.
#[derive(Clone, Copy)]
pub struct Plane {
    pub across: u64,
    pub up: u64,
    pub offset: u64,
    pub length: u64,
}

// NMBS, NBS, NSBS, the bytes of the buffer, and the planes.
#[derive(Clone, Copy)]
pub struct FrameSizes {
    pub macro_blocks: u64,
    pub blocks: u64,
    pub super_blocks: u64,
    pub buffer: u64,
    pub luma: Plane,
    pub cb: Plane,
    pub cr: Plane,
}

// Where a block or a macro block stands: its column and row, counted from the lower left.
#[derive(Clone, Copy)]
pub struct Place {
    pub x: u64,
    pub y: u64,
}

// A block of a frame. Plane 0 is luma, 1 is Cb, 2 is Cr.
#[derive(Clone, Copy)]
pub struct Block {
    pub plane: u64,
    pub x: u64,
    pub y: u64,
}

fn chroma_across(format: PixelFormat, w: u64) -> u64
    requires { w ≤ largest }
    ensures { (result ≡ chroma_across format w) × (result ≤ 131070) }
{
    match format {
        PixelFormat::Chroma420 | PixelFormat::Chroma422 => w,
        PixelFormat::Chroma444 => 2 * w,
    }
}

fn chroma_up(format: PixelFormat, h: u64) -> u64
    requires { h ≤ largest }
    ensures { (result ≡ chroma_up format h) × (result ≤ 131070) }
{
    match format {
        PixelFormat::Chroma420 => h,
        PixelFormat::Chroma422 | PixelFormat::Chroma444 => 2 * h,
    }
}

// Plane p of a frame of w by h macro blocks.
pub fn plane_of(format: PixelFormat, w: u64, h: u64, p: u64) -> Plane
    requires { (w ≤ largest) × (h ≤ largest) × (p < 3) }
    ensures { result ≡ plane_of format w h p }
{
    let luma = 2 * h * (2 * w);
    if p == 0 {
        return Plane {
            across: 2 * w,
            up: 2 * h,
            offset: 0,
            length: 64 * luma,
        };
    }
    let a = chroma_across(format, w);
    let b = chroma_up(format, h);
    let chroma = b * a;
    if p == 1 {
        return Plane {
            across: a,
            up: b,
            offset: 64 * luma,
            length: 64 * chroma,
        };
    }
    Plane {
        across: a,
        up: b,
        offset: 64 * (luma + chroma),
        length: 64 * chroma,
    }
}

// The super blocks of a plane of a by b blocks.
fn super_blocks_in(a: u64, b: u64) -> u64
    requires { (a ≤ 131070) × (b ≤ 131070) }
    ensures { (result ≡ squares 4 b * squares 4 a) × (result ≤ 1073741824) }
{
    (b + 3) / 4 * ((a + 3) / 4)
}

// The sizes of a frame of w by h macro blocks.
pub fn sizes(format: PixelFormat, w: u64, h: u64) -> FrameSizes
    requires { (w ≤ largest) × (h ≤ largest) }
    ensures { result ≡ sizes_of format w h }
{
    let luma = plane_of(format, w, h, 0);
    let cb = plane_of(format, w, h, 1);
    let cr = plane_of(format, w, h, 2);
    let n = super_blocks_in(luma.across, luma.up);
    let m = super_blocks_in(cb.across, cb.up);
    let buffer = cr.offset + cr.length;
    FrameSizes {
        macro_blocks: h * w,
        blocks: buffer / 64,
        super_blocks: n + m + m,
        buffer,
        luma,
        cb,
        cr,
    }
}

// The number of block (x, y) in the coded order of a plane of w by h blocks.
fn place_number(w: u64, h: u64, x: u64, y: u64) -> u64
    requires { (x < w) × (y < h) × (w ≤ 131070) × (h ≤ 131070) }
    ensures { (result < h * w) × (get_or (block_order w h) result (at 0 0) ≡ at x y) }
{
    let t = squares::square_of(w, h, x, y);
    t.first + squares::block_rank(t.u, t.v, x % 4, y % 4)
}

// The block that is number i there.
fn place_at(w: u64, h: u64, i: u64) -> Place
    requires { (i < h * w) × (w ≤ 131070) × (h ≤ 131070) }
    ensures { result ≡ get_or (block_order w h) i (at 0 0) }
{
    let t = squares::square_at(w, h, i);
    let p = squares::block_in_corner(t.u, t.v, t.rest);
    Place {
        x: t.a + p.x,
        y: t.b + p.y,
    }
}

// The number of macro block (x, y) in the coded order of a frame of w by h macro blocks. The luma blocks of macro block m
// are numbers 4 m to 4 m + 3.
pub fn macro_block_number(w: u64, h: u64, x: u64, y: u64) -> u64
    requires { (x < w) × (y < h) × (w ≤ largest) × (h ≤ largest) }
    ensures { (result < macro_blocks_of w h) × (get_or (coded_macros w h) result (at 0 0) ≡ at x y) }
{
    place_number(2 * w, 2 * h, 2 * x, 2 * y) / 4
}

// The macro block that is number i there.
pub fn macro_block_at(w: u64, h: u64, i: u64) -> Place
    requires { (i < macro_blocks_of w h) × (w ≤ largest) × (h ≤ largest) }
    ensures { result ≡ get_or (coded_macros w h) i (at 0 0) }
{
    let p = place_at(2 * w, 2 * h, 4 * i);
    Place {
        x: p.x / 2,
        y: p.y / 2,
    }
}

// A super block: the number of its first block, and its number of blocks, which follow on in coded order.
#[derive(Clone, Copy)]
pub struct SuperBlock {
    pub first: u64,
    pub count: u64,
}

// Super block k of a plane of w by h blocks, in the plane's coded order.
fn plane_super_block(w: u64, h: u64, k: u64) -> SuperBlock
    requires { (k < squares 4 h * squares 4 w) × (w ≤ 131070) × (h ≤ 131070) }
    ensures { (result.first ≡ length (in_turn (square_no 4 block_walk w h) k)) × (result.count ≡ length (square_no 4 block_walk w h k)) × (result.count ≤ 16) }
{
    let n = (w + 3) / 4;
    let t = squares::square_of(w, h, 4 * (k % n), 4 * (k / n));
    SuperBlock {
        first: t.first,
        count: t.u * t.v,
    }
}

// The plane that holds block number i of a frame.
fn plane_with(format: PixelFormat, w: u64, h: u64, i: u64) -> u64
    requires { (w ≤ largest) × (h ≤ largest) × (i < blocks_of format w h) }
    ensures { (result < 3) × (blocks_before format w h result ≤ i) × (i < blocks_before format w h (suc result)) }
{
    let cr = plane_of(format, w, h, 2);
    let cb = plane_of(format, w, h, 1);
    if i < cb.offset / 64 {
        return 0;
    }
    if i < cr.offset / 64 {
        return 1;
    }
    2
}

// The block that is number i in the coded order of a frame of w by h macro blocks.
pub fn block_at(format: PixelFormat, w: u64, h: u64, i: u64) -> Block
    requires { (w ≤ largest) × (h ≤ largest) × (i < blocks_of format w h) }
    ensures { result ≡ get_or (frame_order format w h) i (block 0 0 0) }
{
    let p = plane_with(format, w, h, i);
    let q = plane_of(format, w, h, p);
    let s = place_at(q.across, q.up, i - q.offset / 64);
    Block {
        plane: p,
        x: s.x,
        y: s.y,
    }
}

// The number of a block there.
pub fn block_number(format: PixelFormat, w: u64, h: u64, b: Block) -> u64
    requires { (w ≤ largest) × (h ≤ largest) × InFrame format w h b }
    ensures { (result < blocks_of format w h) × (get_or (frame_order format w h) result (block 0 0 0) ≡ b) }
{
    let q = plane_of(format, w, h, b.plane);
    q.offset / 64 + place_number(q.across, q.up, b.x, b.y)
}

// The raster number of a block: work memory goes by these.
pub fn raster_number(format: PixelFormat, w: u64, h: u64, b: Block) -> u64
    requires { (w ≤ largest) × (h ≤ largest) × InFrame format w h b }
    ensures { (result ≡ raster_number format w h b) × (result < blocks_of format w h) }
{
    let q = plane_of(format, w, h, b.plane);
    q.offset / 64 + (b.y * q.across + b.x)
}

// Block number n of a frame, which lies in plane p.
fn block_in(p: u64, plane: Plane, n: u64) -> Block
    requires { (plane.offset / 64 ≤ n) × (0 < plane.across) }
    ensures { result ≡ block p ((n - plane.offset / 64) % plane.across) ((n - plane.offset / 64) / plane.across) }
{
    let i = n - plane.offset / 64;
    Block {
        plane: p,
        x: i % plane.across,
        y: i / plane.across,
    }
}

// The block with raster number n.
pub fn raster_block(format: PixelFormat, w: u64, h: u64, n: u64) -> Block
    requires { (w ≤ largest) × (h ≤ largest) × (n < blocks_of format w h) }
    ensures { result ≡ block_no format w h n }
{
    let cb = plane_of(format, w, h, 1);
    if n < cb.offset / 64 {
        return block_in(0, plane_of(format, w, h, 0), n);
    }
    let cr = plane_of(format, w, h, 2);
    if n < cr.offset / 64 {
        return block_in(1, cb, n);
    }
    block_in(2, cr, n)
}

// A super block by its plane, and its number there.
#[derive(Clone, Copy)]
struct SuperPlace {
    plane: u64,
    rest: u64,
}

fn super_place(format: PixelFormat, w: u64, h: u64, k: u64) -> SuperPlace
    requires { (w ≤ largest) × (h ≤ largest) × (k < super_blocks_of format w h) }
    ensures { (result.plane < 3) × (result.rest < plane_super_blocks format w h result.plane) × (super_blocks_before format w h result.plane + result.rest ≡ k) }
{
    let luma = plane_of(format, w, h, 0);
    let chroma = plane_of(format, w, h, 1);
    let n = super_blocks_in(luma.across, luma.up);
    let m = super_blocks_in(chroma.across, chroma.up);
    if k < n {
        return SuperPlace { plane: 0, rest: k };
    }
    let j = k - n;
    if j < m {
        return SuperPlace { plane: 1, rest: j };
    }
    SuperPlace {
        plane: 2,
        rest: j - m,
    }
}

// Super block k of a frame of w by h macro blocks, in the frame's coded order.
pub fn super_block(format: PixelFormat, w: u64, h: u64, k: u64) -> SuperBlock
    requires { (w ≤ largest) × (h ≤ largest) × (k < super_blocks_of format w h) }
    ensures { (result.first ≡ length (in_turn (super_block_of format w h) k)) × (result.count ≡ length (super_block_of format w h k)) × (result.count ≤ 16) × (result.first + result.count ≤ blocks_of format w h) }
{
    let t = super_place(format, w, h, k);
    let p = t.plane;
    let q = plane_of(format, w, h, p);
    let s = plane_super_block(q.across, q.up, t.rest);
    SuperBlock {
        first: q.offset / 64 + s.first,
        count: s.count,
    }
}

// How many blocks a macro block has.
pub fn blocks_each(format: PixelFormat) -> u64
    ensures { result ≡ blocks_each format }
{
    match format {
        PixelFormat::Chroma420 => 6,
        PixelFormat::Chroma422 => 8,
        PixelFormat::Chroma444 => 12,
    }
}

// Block j of the four of a macro block: lower left, lower right, upper left, upper right.
fn one_of_four(plane: u64, x: u64, y: u64, j: u64) -> Block
    requires { (x ≤ largest) × (y ≤ largest) × (j < 4) }
    ensures { result ≡ get_or (four_of plane x y) j (block 0 0 0) }
{
    Block {
        plane,
        x: 2 * x + j % 2,
        y: 2 * y + j / 2,
    }
}

// Block k of macro block (x, y): luma A, B, C, D, then Cb, then Cr.
pub fn block_of_macro(format: PixelFormat, x: u64, y: u64, k: u64) -> Block
    requires { (x ≤ largest) × (y ≤ largest) × (k < blocks_each format) }
    ensures { result ≡ get_or (blocks_of_macro format x y) k (block 0 0 0) }
{
    if k < 4 {
        return one_of_four(0, x, y, k);
    }
    match format {
        PixelFormat::Chroma420 => Block { plane: k - 3, x, y },
        PixelFormat::Chroma422 => Block {
            plane: k / 2 - 1,
            x,
            y: 2 * y + k % 2,
        },
        PixelFormat::Chroma444 => one_of_four(k / 4, x, y, k % 4),
    }
}

// The macro block that a block belongs to.
pub fn macro_of_block(format: PixelFormat, b: Block) -> Place
    ensures { result ≡ macro_of format b }
{
    let Block { plane, x, y } = b;
    if plane == 0 {
        return Place { x: x / 2, y: y / 2 };
    }
    match format {
        PixelFormat::Chroma420 => Place { x, y },
        PixelFormat::Chroma422 => Place { x, y: y / 2 },
        PixelFormat::Chroma444 => Place { x: x / 2, y: y / 2 },
    }
}

// Where column c and row r of block b lies in the buffer.
pub fn sample_offset(format: PixelFormat, w: u64, h: u64, b: Block, c: u64, r: u64) -> u64
    requires { (w ≤ largest) × (h ≤ largest) × InFrame format w h b × (c < 8) × (r < 8) }
    ensures { (result ≡ sample_at format w h b c r) × (result < 64 * blocks_of format w h) }
{
    let q = plane_of(format, w, h, b.plane);
    q.offset + ((8 * b.y + r) * (8 * q.across) + (8 * b.x + c))
}
