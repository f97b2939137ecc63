//! The painter: the colour of a scene's picture at one pixel, item by item, back to front.
//!
//! It is what a frame means. All that draws faster is proved equal to it.
#![tactic(auto)]

mod items;
mod laws;
mod pixel;
mod placed_list;
mod progress;
mod shown;
mod tops;

pub use laws::{
    context_laws, paint_laws, picture_laws, pixel_laws, shared_laws, slice_laws, top_laws,
    unchanged_laws,
};
pub use placed_list::{first_corner, stands_around};
pub use shown::glyph_corner;
pub use tops::picture_at;
