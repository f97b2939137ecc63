/// The farthest that a coordinate lies from 0, in pixels.
pub const MAX_COORDINATE: i32 = 1_048_576;

/// Stands for none in a field of two bytes that may be none.
pub const NONE: u16 = 65535;
