//! Frames composed from kept tiles: where tiles show their slices' entries, each pixel is that of the slices.
//!
//! It has laws alone. They join what kept tiles show, slice by slice, with what a compositor makes of them.
#![tactic(auto)]

mod laws;

pub use laws::{frame_laws, showing_laws};
