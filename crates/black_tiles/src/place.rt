//! Slices as they lie in a frame.

ghost use Rattle.std.specs.Prelude.{◌≡◌, None, pos};
ghost use Rattle.black_tiles.specs.Black.{FitFrame, FitsFrame};

use tile_compositor::Placed;
use wr_geom::{Point, Rect, SliceKey};

/// The rectangle of a frame of these sides in pixels.
fn whole(width: u16, height: u16) -> Rect
    ensures { result ≡ record { x0 = pos 0; y0 = pos 0; x1 = pos width; y1 = pos height } }
{
    Rect::new(0, 0, i32::from(width), i32::from(height)).unwrap()
}

/// The key of the slice with this number, without a scroll frame.
pub fn slice_key(nth: u8) -> SliceKey
    ensures { result ≡ record { scroll = None; nth = nth } }
{
    SliceKey { scroll: None, nth }
}

/// A slice with this origin that shows in a part of a frame of these sides.
fn place(sides: (u16, u16), key: SliceKey, origin: (i16, i16), part: Rect) -> Placed
    ensures { FitsFrame sides.0 sides.1 result }
{
    Placed {
        key,
        origin: Point {
            x: i32::from(origin.0),
            y: i32::from(origin.1),
        },
        shown: part.intersect(whole(sides.0, sides.1)),
    }
}

/// The slices 0 and 1, each with its origin, that show in a part each of a frame of these sides.
pub fn two_slices(
    sides: (u16, u16),
    origins: ((i16, i16), (i16, i16)),
    parts: (Rect, Rect),
) -> [Placed; 2]
    ensures { FitFrame sides.0 sides.1 result }
{
    [
        place(sides, slice_key(0), origins.0, parts.0),
        place(sides, slice_key(1), origins.1, parts.1),
    ]
}
