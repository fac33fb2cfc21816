// Which tiles of a plane changed: one byte to a tile.
#![tactic(auto)]

ghost use Rattle.std.specs.Prelude.{◌≡◌, ◌+◌, ◌*◌, ◌%◌, ◌≤◌, ◌<◌, length};
ghost use Rattle.bitstream.specs.Reading.{choose};
ghost use Rattle.geometry.specs.Sizes.{squares as tiles, blocks_of, largest};
ghost use Rattle.tile_map.specs.Tiles.{differ, strip_map, plane_map, map_length, tile_map, IsTile, Both, Flags, marked};

use geometry::PixelFormat;

// Whether some of the n samples from `at` on differs. The loop looks at all of them, so that the compiler takes sixteen at a time.
#[tactic(auto, using(crate::proofs::Some::differ_none, crate::proofs::Some::differ_more))]
fn differ(previous: &[u8], new: &[u8], at: usize, n: usize) -> bool
    requires { Both previous.now new.now at n }
    ensures { result ≡ differ previous.now new.now at n }
{
    let mut found = false;
    for i in 0..n {
        found |= previous[at + i] != new[at + i];
    }
    found
}

// The same of a few eights: eight samples are one comparison. As a `for` over the eights the compiler takes several of them at a time, and a map takes
// up to twice as long.
#[tactic(auto, using(crate::proofs::Some::differ_none, crate::proofs::Some::differ_add))]
fn eights_differ(previous: &[u8], new: &[u8], at: usize, n: usize) -> bool
    requires { Both previous.now new.now at n × (n % 8 ≡ 0) }
    ensures { result ≡ differ previous.now new.now at n }
{
    let mut found = false;
    let mut i = 0;
    while i < n {
        found |= differ(previous, new, at + i, 8);
        i += 8;
    }
    found
}

// The byte of a tile after n samples more. A tile that is known to have changed is not looked at.
fn mark(byte: u8, previous: &[u8], new: &[u8], at: usize, n: usize) -> u8
    requires { (byte ≤ 1) × Both previous.now new.now at n × (n % 8 ≡ 0) }
    ensures { result ≡ choose (differ previous.now new.now at n) 1 byte }
{
    if byte == 0 {
        u8::from(eights_differ(previous, new, at, n))
    } else {
        byte
    }
}

// Marks the tiles in which a row of samples differs. Inlined into the loops over the rows it has too few registers and takes up to 20 % longer.
#[inline(never)]
fn mark_tiles(previous: &[u8], new: &[u8], from: usize, row: usize, tile: usize, map: &mut [u8])
    requires { IsTile tile × (row % 8 ≡ 0) × Both previous.now new.now from row × (length map.old ≡ tiles tile row) × Flags map.old }
    ensures { map.new ≡ marked previous.now new.now from row tile map.old }
{
    for (x, byte) in map.iter_mut().enumerate() {
        let column = tile * x;
        let n = usize::min(tile, row - column);
        *byte = mark(*byte, previous, new, from + column, n);
    }
}

// The same, with one look at the whole row before: most rows of most frames are as they were.
#[tactic(auto, using(crate::proofs::Strips::marked_none))]
fn mark_row(previous: &[u8], new: &[u8], from: usize, row: usize, tile: usize, map: &mut [u8])
    requires { IsTile tile × (row % 8 ≡ 0) × Both previous.now new.now from row × (length map.old ≡ tiles tile row) × Flags map.old }
    ensures { map.new ≡ marked previous.now new.now from row tile map.old }
{
    if differ(previous, new, from, row) {
        mark_tiles(previous, new, from, row, tile, map);
    }
}

// A row of tiles: so many rows of samples, from `from` on.
fn write_tile_row(
    previous: &[u8],
    new: &[u8],
    from: usize,
    row: usize,
    rows: usize,
    tile: usize,
    map: &mut [u8],
)
    requires { IsTile tile × (row % 8 ≡ 0) × Both previous.now new.now from (rows * row) × (length map.old ≡ tiles tile row) }
    ensures { map.new ≡ strip_map from row rows tile previous.now new.now }
{
    let n = map.len();
    buffer::clear_bytes(map, n);
    for r in 0..rows {
        mark_row(previous, new, from + r * row, row, tile, map);
    }
}

// The tiles of a plane that begins at `first`.
fn write_tiles(
    previous: &[u8],
    new: &[u8],
    first: usize,
    row: usize,
    rows: usize,
    tile: usize,
    map: &mut [u8],
)
    requires tile { IsTile tile × (row % 8 ≡ 0) × Both previous.now new.now first (rows * row) × (length map.old ≡ tiles tile rows * tiles tile row) }
    requires row_bound { (row ≤ 1048560) × (rows ≤ 1048560) }
    ensures { map.new ≡ plane_map first row rows tile previous.now new.now }
{
    let across = (row + (tile - 1)) / tile;
    let up = (rows + (tile - 1)) / tile;
    for y in 0..up {
        let r = tile * y;
        let n = usize::min(tile, rows - r);
        let from = first + r * row;
        let at = y * across;
        write_tile_row(previous, new, from, row, n, tile, &mut map[at..at + across]);
    }
}

// How many tiles a plane has.
pub fn map_length(format: PixelFormat, w: u64, h: u64, p: u64, tile: u64) -> u64
    requires { (w ≤ largest) × (h ≤ largest) × (p < 3) × IsTile tile }
    ensures { result ≡ map_length format w h p tile }
{
    let q = geometry::plane_of(format, w, h, p);
    let row = 8 * q.across;
    let rows = 8 * q.up;
    (rows + (tile - 1)) / tile * ((row + (tile - 1)) / tile)
}

// The map of plane p: 1 for a tile in which some sample differs between the frames, else 0.
pub fn write_map(
    format: PixelFormat,
    w: u64,
    h: u64,
    p: u64,
    tile: u64,
    previous: &[u8],
    new: &[u8],
    map: &mut [u8],
)
    requires w_le_largest { (w ≤ largest) × (h ≤ largest) × (p < 3) × IsTile tile }
    requires previous_len { (length previous.now ≡ 64 * blocks_of format w h) × (length new.now ≡ 64 * blocks_of format w h) × (length map.old ≡ map_length format w h p tile) }
    ensures { map.new ≡ tile_map format w h p tile previous.now new.now }
{
    let q = geometry::plane_of(format, w, h, p);
    let first = q.offset;
    let row = 8 * q.across;
    let rows = 8 * q.up;
    write_tiles(
        previous,
        new,
        first as usize,
        row as usize,
        rows as usize,
        tile as usize,
        map,
    );
}
