//! Tiles kept between frames: what a frame draws of them, and that none is stale.
//!
//! A kept tile has a record: the entries from which it was drawn. A frame makes the record of each visible tile anew, and
//! draws a tile again only in the dirty rectangle of the old and the new one.
#![tactic(auto)]

mod kept;
mod laws;
mod slice;
mod tile;

pub use kept::KeptTiles;
pub use laws::work_laws;
