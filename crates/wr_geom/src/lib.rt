//! Whole-pixel geometry: points, rectangles as sets of points, corner radii and border widths.
//!
//! A rectangle from (x0, y0) to (x1, y1) has the points with `x0 <= x < x1` and `y0 <= y < y1`.
//! No call takes memory.
#![tactic(auto)]

mod keys;
mod laws;
mod limits;
mod no_memory;
mod point;
mod rect;
mod sides;

pub use keys::{SliceKey, TileKey};
pub use laws::rect_laws;
pub use limits::{MAX_RADIUS, MAX_RECT_COORDINATE};
pub use no_memory::NoMemory;
pub use point::Point;
pub use rect::Rect;
pub use sides::{Radii, Widths};
