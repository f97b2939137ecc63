//! Kept tiles in order of recency, and the window through which alone their pixels change.
//!
//! A tile is kept under its key with a rectangle, four planes of bytes and a note of whatever type. `open_window` opens a
//! part of one tile, `row_mut` lends that part's rows for writing, and `close_window` ends it; no other call changes a
//! byte of a kept tile. `TileStore::new` and `put` take memory, nothing else does.
#![tactic(auto)]

mod laws;
mod limits;
mod spares;
mod store;
mod tile;
mod window;

pub use laws::{key_laws, pixel_laws};
pub use limits::{MAX_SPARE_PIXELS, MAX_SPARE_TILES, MAX_TILE_SIDE, MAX_TILES};
pub use store::{Refused, TileStore, know_store};
pub use tile::{Tile, TileView};
pub use window::Window;
