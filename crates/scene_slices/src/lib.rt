//! The slices of a scene: its top items as entries, in slices, each in coordinates of its own.
#![tactic(auto)]

mod slices;

pub use slices::scene_slices;
