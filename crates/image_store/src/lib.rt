//! Images and glyph masks by their keys, each with a generation.
//!
//! Stores share what they hold: a fork copies no pixel, and an update copies the rows around it.
#![tactic(auto)]

mod band;
mod check;
mod error;
mod gens;
mod groups;
mod image;
mod image_data;
mod keyed_images;
mod keyed_masks;
mod laws;
mod making;
mod mask;
mod patch;
mod planes;
mod store;

pub use error::StoreError;
pub use gens::Gens;
pub use image::Image;
pub use laws::{generation_laws, image_laws, lookup_laws};
pub use mask::Mask;
pub use patch::Patch;
pub use store::{Store, know_store};
