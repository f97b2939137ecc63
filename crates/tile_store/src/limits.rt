//! The limits of a store.

/// The most tiles that a store keeps.
pub const MAX_TILES: u32 = 131_072;

/// The longest side of a tile, in pixels.
pub const MAX_TILE_SIDE: u16 = 1024;

/// The most tiles that were given up whose planes a store keeps, for later tiles of the same sides.
pub const MAX_SPARE_TILES: u16 = 256;

/// The most pixels of those planes, four bytes each: 64 MiB.
pub const MAX_SPARE_PIXELS: u32 = 1 << 24;
