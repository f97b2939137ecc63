//! Limits of generated files.

/// The most transactions of a file.
pub const MAX_TRANSACTIONS: u32 = 100_000;
