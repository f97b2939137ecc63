//! Tiles whose records are made together: those of a grid, or one.

ghost use Rattle.std.specs.Prelude.{◌≡◌, ◌<◌, ◌*◌, ◌^◌, ℕ};
ghost use Rattle.tile_grid.specs.Parts.{is_in_part};
ghost use Rattle.tile_grid.specs.Tiles.{meets};
ghost use Rattle.tile_records.specs.Tiles.{columns_of, rows_of, rect_at, IsPartIn};

use tile_grid::{GridPart, SpanPart, TileGrid, meets};
use wr_geom::Rect;

/// The tiles of a grid, or one tile.
#[derive(Clone, Copy, Debug)]
pub(crate) enum Tiles {
    Grid(TileGrid),
    One(Rect),
}

/// A part without a column or a row.
const NONE: SpanPart = SpanPart { from: 0, to: 0 };

/// The first column or row.
const FIRST: SpanPart = SpanPart { from: 0, to: 1 };

impl Tiles {
    /// How many columns they have.
    pub(crate) fn columns(&self) -> usize
        ensures value { result ≡ columns_of self.now }
        ensures few { rows_of self.now * columns_of self.now < 2 ^ 63 }
    {
        match self {
            Tiles::Grid(grid) => grid.columns().count as usize,
            Tiles::One(_) => 1,
        }
    }

    /// How many rows they have.
    pub(crate) fn rows(&self) -> usize
        ensures { result ≡ rows_of self.now }
    {
        match self {
            Tiles::Grid(grid) => grid.rows().count as usize,
            Tiles::One(_) => 1,
        }
    }

    /// How many there are.
    pub(crate) fn count(&self) -> usize
        ensures { result ≡ rows_of self.now * columns_of self.now }
    {
        match self {
            Tiles::Grid(grid) => grid.count(),
            Tiles::One(_) => 1,
        }
    }

    /// The columns and rows of those that a rectangle meets.
    pub(crate) fn part(&self, rect: Rect) -> GridPart
        ensures part { IsPartIn self.now result }
        ensures meets { (c r : ℕ) → c < columns_of self.now → r < rows_of self.now
            → is_in_part result c r ≡ meets (rect_at self.now c r) rect }
    {
        match self {
            Tiles::Grid(grid) => grid.part(rect),
            Tiles::One(tile) => part_of_one(*tile, rect),
        }
    }
}

/// The whole of one tile where a rectangle meets it, and else nothing.
fn part_of_one(tile: Rect, rect: Rect) -> GridPart
    ensures part { IsPartIn (Tiles.One tile) result }
    ensures meets { (c r : ℕ) → c < 1 → r < 1 → is_in_part result c r ≡ meets tile rect }
{
    let span = if meets(tile, rect) { FIRST } else { NONE };
    GridPart {
        columns: span,
        rows: span,
    }
}
