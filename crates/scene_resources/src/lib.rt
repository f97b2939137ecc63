//! What a transaction changes of the images and masks that a scene stores, and what that means for tiles that are kept
//! from one scene to the next.
#![tactic(auto)]

mod laws;

pub use laws::{next_laws, slice_resource_laws};
