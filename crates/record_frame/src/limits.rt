//! How much an input may have, and how much of it is read at once.

/// The most bytes of a payload: 64 MiB.
pub const MAX_PAYLOAD_BYTES: u32 = 67_108_864;

/// The most entries of an input.
pub const MAX_ENTRIES: u32 = 4_294_967_295;

/// The most bytes that are read at once into a payload. Memory is taken for bytes that came, and not
/// for a length that an input only claims.
pub(crate) const MAX_PIECE_BYTES: usize = 65_536;
