//! Planes of bytes, and what is done to their rows, 16 bytes at a time.
//!
//! A picture is kept as four planes: all blue bytes, all green, all red, all alphas. So a row of a plane is a slice,
//! and each call on rows is exact for every byte and every length. None but `Planes::new` takes memory.
#![tactic(auto)]

mod blend;
mod lanes;
mod laws;
mod modes;
mod over;
mod planes;
mod repeat;
mod runs;
mod scale;
mod step;
mod weave;

pub use blend::blend_row;
pub use blend_rules::Plane;
pub use laws::kernel_laws;
pub use over::{over_masked, over_row, over_solid};
pub use planes::{Planes, Row, know_planes, part_laws};
pub use repeat::copy_repeated;
pub use runs::{copy, fill, know_row};
pub use scale::{scale_by, scale_row};
pub use weave::weave_row;
