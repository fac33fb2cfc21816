// The place of a block by its raster number, for most without a division: the blocks of a super block lie in four rows, and those of the next one mostly in the same four.
#![tactic(auto)]

ghost use Rattle.std.specs.Prelude.{◌≡◌, ◌≤◌, ◌<◌};
ghost use Rattle.geometry.specs.Sizes.{blocks_of, largest};
ghost use Rattle.geometry.specs.Raster.{block_no};
ghost use Rattle.block_walk.specs.Band.{IsBand, InBand};

use geometry::{Block, PixelFormat};

// At most four rows of a plane, from row y on: the blocks with raster numbers from `first` on, before `end`.
#[derive(Clone, Copy)]
pub struct Band {
    pub plane: u64,
    pub y: u64,
    pub first: u64,
    pub end: u64,
}

// Four rows from that of block n on, or what the plane has of them.
fn band_from(format: PixelFormat, w: u64, h: u64, n: u64) -> Band
    requires { (w ≤ largest) × (h ≤ largest) × (n < blocks_of format w h) }
    ensures { InBand format w h result n }
{
    let b = geometry::raster_block(format, w, h, n);
    let q = geometry::plane_of(format, w, h, b.plane);
    let first = n - b.x;
    let end = first + 4 * q.across;
    let past = (q.offset + q.length) / 64;
    Band {
        plane: b.plane,
        y: b.y,
        first,
        end: u64::min(end, past),
    }
}

// A band with block n: this one, if n lies in it.
pub fn band_with(format: PixelFormat, w: u64, h: u64, band: Band, n: u64) -> Band
    requires { (w ≤ largest) × (h ≤ largest) × IsBand format w h band × (n < blocks_of format w h) }
    ensures { InBand format w h result n }
{
    if band.first <= n && n < band.end {
        band
    } else {
        band_from(format, w, h, n)
    }
}

// Block n of a band.
pub fn block_in(format: PixelFormat, w: u64, h: u64, band: Band, n: u64) -> Block
    requires { (w ≤ largest) × (h ≤ largest) × InBand format w h band n }
    ensures { result ≡ block_no format w h n }
{
    let row = geometry::plane_of(format, w, h, band.plane).across;
    let mut x = n - band.first;
    let mut y = band.y;
    if 2 * row <= x {
        x -= 2 * row;
        y += 2;
    }
    if row <= x {
        x -= row;
        y += 1;
    }
    Block {
        plane: band.plane,
        x,
        y,
    }
}
