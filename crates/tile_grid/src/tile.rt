//! Tiles, and their rectangles.

ghost use Rattle.std.specs.Prelude.{◌≡◌, ◌+ℤ◌, ◌*ℤ◌, pos};
ghost use Rattle.wr_geom.specs.Bounds.{IsCoordinate, IsRect};
ghost use Rattle.tile_grid.specs.Tiles.{meets, tile, tile_rect, AreTileSides};

use wr_geom::{Rect, SliceKey, TileKey};

/// The sides of tiles in pixels, each from `MIN_GRID_TILE` to `MAX_GRID_TILE`.
#[derive(Clone, Copy, Debug, PartialEq, Eq)]
pub struct TileSides {
    pub width: u16,
    pub height: u16,
}

/// A tile: its column and row, and its rectangle in the coordinates of its slice.
#[derive(Clone, Copy, Debug, PartialEq, Eq)]
pub struct GridTile {
    pub col: i32,
    pub row: i32,
    pub rect: Rect,
}

impl GridTile {
    /// Its key, as a tile of this slice.
    pub fn key(&self, slice: SliceKey) -> TileKey
        ensures { result ≡ record { slice = slice; col = self.now.col; row = self.now.row } }
    {
        TileKey {
            slice,
            col: self.col,
            row: self.row,
        }
    }
}

/// Whether some point lies in both rectangles.
#[tactic(auto, unfolding(crate::specs::Tiles::meets))]
pub fn meets(a: Rect, b: Rect) -> bool
    ensures { result ≡ meets a b }
{
    !a.intersect(b).is_empty()
}

/// Where a tile begins on one axis.
fn near_edge(tile: i32, side: u16) -> i32
    requires { IsCoordinate (tile *ℤ pos side) }
    ensures { result ≡ (tile *ℤ pos side) }
{
    tile * i32::from(side)
}

/// Where it ends.
fn far_edge(near: i32, side: u16) -> i32
    requires { IsCoordinate (near +ℤ pos side) }
    ensures { result ≡ (near +ℤ pos side) }
{
    near + i32::from(side)
}

/// The rectangle of a tile, which must be in range.
fn tile_rect(sides: TileSides, col: i32, row: i32) -> Rect
    requires { IsRect (tile_rect sides col row) }
    ensures { result ≡ tile_rect sides col row }
{
    let x0 = near_edge(col, sides.width);
    let y0 = near_edge(row, sides.height);
    let x1 = far_edge(x0, sides.width);
    let y1 = far_edge(y0, sides.height);
    Rect::new(x0, y0, x1, y1).unwrap()
}

/// The tile in a column and a row, whose rectangle must be in range.
pub(crate) fn tile(sides: TileSides, col: i32, row: i32) -> GridTile
    requires { IsRect (tile_rect sides col row) }
    ensures { result ≡ tile sides col row }
{
    GridTile {
        col,
        row,
        rect: tile_rect(sides, col, row),
    }
}
