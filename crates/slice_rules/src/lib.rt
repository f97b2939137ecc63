//! Rules for slices: runs of one scroll frame, their keys, and the clips that a slice's members share.
//!
//! The definitions stand over any type whose values have a home and clips. No call takes memory.
#![tactic(auto)]

mod home;
mod laws;

pub use home::{Home, same_home};
pub use laws::{key_laws, mapping_laws, run_laws, shared_laws};
