/// The most bytes of a payload.
pub const MAX_PAYLOAD_BYTES: usize = 1 << 26;

/// The last pipeline.
pub const MAX_PIPELINE: u8 = 63;

/// The longest side of an image or a glyph, in texels, and of a view, in pixels. The shortest is 1.
pub const MAX_SIDE: u16 = 4096;

/// The shortest side of a tile, in pixels.
pub const MIN_TILE_SIDE: u16 = 64;

/// The longest side of a tile, in pixels.
pub const MAX_TILE_SIDE: u16 = 1024;

/// The most tiles that a policy keeps.
pub const MAX_TILES: u32 = 65536;

/// The most pixels of the tiles that a policy keeps.
pub const MAX_TILE_PIXELS: u64 = 1 << 28;
