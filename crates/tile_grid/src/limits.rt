//! The limits of this crate's types.

/// The shortest side of a tile in a grid, in pixels.
pub const MIN_GRID_TILE: u16 = 64;

/// The longest side of a tile in a grid, in pixels.
pub const MAX_GRID_TILE: u16 = 1024;
