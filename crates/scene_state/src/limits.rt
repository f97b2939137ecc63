//! The limits of a scene.

/// The most pixels of all stored images and masks.
pub const MAX_STORED_PIXELS: u64 = 1 << 26;
