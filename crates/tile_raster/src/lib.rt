//! Entries drawn row by row: opaque primitives front to back, the others back to front above them.
#![tactic(auto)]

mod lay;
mod level;
mod line;
mod list;
mod note;
mod opaque;
mod plane;
mod rows;
mod scratch;
mod span;
mod strip;
mod walk;
mod window;

pub use rows::draw;
pub use scratch::Scratch;
pub use window::raster;
