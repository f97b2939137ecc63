//! A frame put together from the kept tiles of placed slices.
//!
//! Each pixel of the frame is the fold of the slices over a clear colour, the backmost first. A slice has there the
//! colour of its kept tile, and is clear where no tile is kept and outside of what it shows. No call takes memory.
#![tactic(auto)]

mod alphas;
mod composition;
mod frame;
mod part;
mod placed;
mod row;
mod slice;
mod source;

pub use composition::compose;
pub use frame::Frame;
pub use placed::Placed;
