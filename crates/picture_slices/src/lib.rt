//! The slices of a picture: what scrolls together, as entries in coordinates of their own.
#![tactic(auto)]

mod entries;
mod gather;
mod laws;
mod run;
mod share;
mod slice;

pub use laws::{slice_laws, value_laws};
pub use slice::{Slice, slices};
