// What a caller may ask of a session: orders of blocks, offsets of samples.
#![tactic(auto)]

ghost use Rattle.geometry.specs.Sizes.{largest};
ghost use Rattle.std.specs.Prelude.{◌≡◌, ℕ, ◌≤◌, ◌<◌};
ghost use Rattle.geometry.specs.Frame.{block};
ghost use Rattle.queries.specs.Orders.{has_block, block_at, block_number, macro_block_at, macro_block_number, macro_block_of, sample_offset, as_block, as_place, as_number};

use geometry::{Block, PixelFormat, Place};
use headers::Session;

// A block; the frame has no such block; or the number of the refusal.
#[derive(Clone, Copy)]
pub enum BlockAnswer {
    Is(Block),
    Absent,
    Refused(u32),
}

// The same of a macro block's place.
#[derive(Clone, Copy)]
pub enum PlaceAnswer {
    Is(Place),
    Absent,
    Refused(u32),
}

// The same of a number: a place in coded order, or an offset in a plane buffer.
#[derive(Clone, Copy)]
pub enum NumberAnswer {
    Is(u64),
    Absent,
    Refused(u32),
}

// Whether a frame of w by h macro blocks has block b.
fn has_block(format: PixelFormat, w: u64, h: u64, b: Block) -> bool
    requires { (w ≤ largest) × (h ≤ largest) }
    ensures { result ≡ has_block format w h b }
{
    if 3 <= b.plane {
        return false;
    }
    let plane = geometry::plane_of(format, w, h, b.plane);
    (b.x < plane.across) & (b.y < plane.up)
}

// The block that is number i in the coded order of a session's frames.
pub fn block_at(s: Session, i: u64) -> BlockAnswer
    ensures { result ≡ as_block (block_at s i) }
{
    if headers::session_fits(s) {
        let format = headers::pixel_format(s.fields.pf);
        let sizes = geometry::sizes(format, s.fields.fmbw, s.fields.fmbh);
        if i < sizes.blocks {
            return BlockAnswer::Is(geometry::block_at(format, s.fields.fmbw, s.fields.fmbh, i));
        }
        return BlockAnswer::Absent;
    }
    BlockAnswer::Refused(bitstream::NOT_GENUINE)
}

// The number of block (x, y) of a plane there.
pub fn block_number(s: Session, plane: u64, x: u64, y: u64) -> NumberAnswer
    ensures { result ≡ as_number (block_number s (block plane x y)) }
{
    if headers::session_fits(s) {
        let format = headers::pixel_format(s.fields.pf);
        let b = Block { plane, x, y };
        if has_block(format, s.fields.fmbw, s.fields.fmbh, b) {
            return NumberAnswer::Is(geometry::block_number(
                format,
                s.fields.fmbw,
                s.fields.fmbh,
                b,
            ));
        }
        return NumberAnswer::Absent;
    }
    NumberAnswer::Refused(bitstream::NOT_GENUINE)
}

// The macro block that is number i in the coded order of a session's frames.
pub fn macro_block_at(s: Session, i: u64) -> PlaceAnswer
    ensures { result ≡ as_place (macro_block_at s i) }
{
    if headers::session_fits(s) {
        let format = headers::pixel_format(s.fields.pf);
        let sizes = geometry::sizes(format, s.fields.fmbw, s.fields.fmbh);
        if i < sizes.macro_blocks {
            return PlaceAnswer::Is(geometry::macro_block_at(s.fields.fmbw, s.fields.fmbh, i));
        }
        return PlaceAnswer::Absent;
    }
    PlaceAnswer::Refused(bitstream::NOT_GENUINE)
}

// The number of macro block (x, y) there.
pub fn macro_block_number(s: Session, x: u64, y: u64) -> NumberAnswer
    ensures { result ≡ as_number (macro_block_number s x y) }
{
    if headers::session_fits(s) {
        if x < s.fields.fmbw {
            if y < s.fields.fmbh {
                return NumberAnswer::Is(geometry::macro_block_number(
                    s.fields.fmbw,
                    s.fields.fmbh,
                    x,
                    y,
                ));
            }
        }
        return NumberAnswer::Absent;
    }
    NumberAnswer::Refused(bitstream::NOT_GENUINE)
}

// The macro block that block (x, y) of a plane belongs to.
pub fn macro_block_of(s: Session, plane: u64, x: u64, y: u64) -> PlaceAnswer
    ensures { result ≡ as_place (macro_block_of s (block plane x y)) }
{
    if headers::session_fits(s) {
        let format = headers::pixel_format(s.fields.pf);
        let b = Block { plane, x, y };
        if has_block(format, s.fields.fmbw, s.fields.fmbh, b) {
            return PlaceAnswer::Is(geometry::macro_of_block(format, b));
        }
        return PlaceAnswer::Absent;
    }
    PlaceAnswer::Refused(bitstream::NOT_GENUINE)
}

// Where in a plane buffer sample (column, row) of block (x, y) of a plane lies.
pub fn sample_offset(s: Session, plane: u64, x: u64, y: u64, column: u64, row: u64) -> NumberAnswer
    ensures { result ≡ as_number (sample_offset s (block plane x y) column row) }
{
    if headers::session_fits(s) {
        let format = headers::pixel_format(s.fields.pf);
        let b = Block { plane, x, y };
        let there = has_block(format, s.fields.fmbw, s.fields.fmbh, b);
        if there & (column < 8) & (row < 8) {
            return NumberAnswer::Is(geometry::sample_offset(
                format,
                s.fields.fmbw,
                s.fields.fmbh,
                b,
                column,
                row,
            ));
        }
        return NumberAnswer::Absent;
    }
    NumberAnswer::Refused(bitstream::NOT_GENUINE)
}
