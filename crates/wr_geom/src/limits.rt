//! The limits of this crate's types.

/// The largest radius of a corner and the largest width of a border's side, in pixels.
pub const MAX_RADIUS: u16 = 4096;

/// The largest distance of a rectangle's coordinate from 0, in pixels.
pub const MAX_RECT_COORDINATE: i32 = 1 << 29;
