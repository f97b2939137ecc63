//! Grids of tiles: which tiles of one size a rectangle meets, by row and then by column.
//!
//! Tile (col, row) covers `[col * width, row * height, (col + 1) * width, (row + 1) * height]`, in the coordinates of its
//! slice. A tile of a slice is visible where it meets what the slice shows. No call takes memory.
#![tactic(auto)]

mod axis;
mod grid;
mod laws;
mod limits;
mod part;
mod tile;

pub use axis::TileSpan;
pub use grid::TileGrid;
pub use laws::{grid_laws, meeting_laws};
pub use limits::{MAX_GRID_TILE, MIN_GRID_TILE};
pub use part::{GridPart, SpanPart};
pub use tile::{GridTile, TileSides, meets};
