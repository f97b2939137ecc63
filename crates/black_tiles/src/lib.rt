//! Stores of black tiles and slices of them, for tests and benchmarks of what is composed from tiles.
#![tactic(auto)]

mod keep;
mod place;
mod window;

pub use keep::keep_black;
pub use place::{slice_key, two_slices};
