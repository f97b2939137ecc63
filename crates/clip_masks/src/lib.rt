//! Rounded rectangles as clips: how much of each pixel a clip, or a chain of clips, covers.
//!
//! A pixel has sixteen sample points, and what a shape covers of it is the share of those that
//! lie inside, of 255. Rows are filled, and only pixels that a corner's arc crosses count samples.
//! No call takes memory.
#![tactic(auto)]

mod chain;
mod clip;
mod corner;
mod laws;
mod row;
mod samples;
mod shape;
mod share;
mod side;
mod spans;

pub use chain::{cover_row, cut, shift_clips};
pub use clip::Clip;
pub use laws::{chain_laws, clip_laws, clip_order_laws};
pub use shape::Rounded;
