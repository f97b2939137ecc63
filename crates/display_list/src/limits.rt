//! The limits of a display list.

/// The most nodes, without the root, of a list; the most clips; and the most chains.
pub const MAX_DEFINITIONS: usize = 4096;

/// The deepest level of a node, where the root is at level 0.
pub const MAX_LEVEL: u8 = 64;

/// The most clips of a chain with its parents.
pub const MAX_CHAIN_CLIPS: u16 = 255;

/// The most contexts that are open at once.
pub const MAX_CONTEXTS: usize = 64;

/// The greatest side of a viewport or of a content, in pixels.
pub const MAX_SCROLL_SIDE: u32 = 1_048_576;

/// The number of the last pipeline.
pub const MAX_PIPELINE: u8 = 63;
