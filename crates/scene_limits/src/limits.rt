//! The limits of an expanded scene.

/// The most contexts that nest.
pub const MAX_NESTING: u32 = 64;

/// The most clips of one item.
pub const MAX_ITEM_CLIPS: u32 = 255;

/// The most items.
pub const MAX_ITEMS: u32 = 65_536;

/// The most glyphs of all items.
pub const MAX_GLYPHS: u32 = 1_048_576;

/// The most clips of all items.
pub const MAX_CLIPS: u32 = 1_048_576;

/// The largest distance of a node from (0, 0) on each axis, in pixels.
pub const MAX_DISTANCE: i32 = 1 << 27;
