//! The tiles that a rectangle meets.

ghost use Rattle.std.specs.Prelude.{◌≡◌, ◌<◌, ◌↔◌, ℤ, IsTrue, Contains, AllPairs};
ghost use Rattle.wr_geom.specs.Bounds.{IsRect};
ghost use Rattle.tile_grid.specs.Tiles.{AreTileSides, meets, tile, tile_rect};
ghost use Rattle.tile_grid.specs.Grids.{HasTileRoom, IsGrid, IsBefore, IsViewPart, IsWithinReach, count_of, tile_in, tile_at, tiles_of, grid_over, in_slice, way_back};

use crate::axis::{TileSpan, span_over};
use crate::tile::{GridTile, TileSides, tile};
use std::marker::Model;
use wr_geom::{Point, Rect};

/// The tiles of some columns and rows, row by row.
///
/// A tile's index is its row's in the grid, times the number of columns, plus its column's in the grid. Each tile's
/// rectangle is in range.
#[derive(Clone, Copy, Debug, PartialEq, Eq)]
pub struct TileGrid {
    sides: TileSides,
    columns: TileSpan,
    rows: TileSpan,
}

impl Model for TileGrid {
    ghost use Rattle.tile_grid.specs.Grids.{GridModel, IsGrid};

    ghost Value = { GridModel };

    ghost view = { λ g. record { sides = g.sides; columns = g.columns; rows = g.rows } };

    ghost invariant = { λ g. IsGrid (record { sides = g.sides; columns = g.columns; rows = g.rows }) };

    ghost inverse = { λ g. record { sides = g.sides; columns = g.columns; rows = g.rows } };
}

/// A span without a tile.
const NO_TILES: TileSpan = TileSpan { first: 0, count: 0 };

impl TileGrid {
    /// The tiles that a rectangle meets, which lies within 2^28 pixels of 0.
    pub fn over(sides: TileSides, part: Rect) -> TileGrid
        requires sides { AreTileSides sides }
        requires room { HasTileRoom part }
        ensures value { result ≡ grid_over sides part }
        ensures tiles { (col row : ℤ) → Contains (tiles_of result) (tile sides col row) ↔ IsTrue (meets (tile_rect sides col row) part) }
        ensures order { AllPairs IsBefore (tiles_of result) }
    {
        if part.is_empty() {
            return TileGrid {
                sides,
                columns: NO_TILES,
                rows: NO_TILES,
            };
        }
        TileGrid {
            sides,
            columns: span_over(part.x0(), part.x1(), sides.width),
            rows: span_over(part.y0(), part.y1(), sides.height),
        }
    }

    /// The visible tiles of a slice: those that meet the part of the view in which it shows, in its own coordinates.
    /// The view has at most 4,096 pixels a side, and the origin lies within 2^27 pixels of 0.
    pub fn visible(sides: TileSides, shown: Rect, origin: Point) -> TileGrid
        requires sides { AreTileSides sides }
        requires shown { IsViewPart shown }
        requires origin { IsWithinReach origin }
        ensures value { result ≡ grid_over sides (in_slice shown origin) }
        ensures tiles { (col row : ℤ) → Contains (tiles_of result) (tile sides col row) ↔ IsTrue (meets (tile_rect sides col row) (in_slice shown origin)) }
        ensures order { AllPairs IsBefore (tiles_of result) }
    {
        TileGrid::over(sides, shown_in_slice(shown, origin))
    }

    /// The sides of its tiles.
    pub fn sides(self) -> TileSides
        ensures value { result ≡ self.sides }
        ensures grid { IsGrid self }
    {
        self.sides
    }

    /// Its columns, at most 2^30 of them.
    pub fn columns(self) -> TileSpan
        ensures value { result ≡ self.columns }
        ensures grid { IsGrid self }
    {
        self.columns
    }

    /// Its rows, at most 2^30 of them.
    pub fn rows(self) -> TileSpan
        ensures value { result ≡ self.rows }
        ensures grid { IsGrid self }
    {
        self.rows
    }

    /// How many tiles it has.
    pub fn count(self) -> usize
        ensures value { result ≡ count_of self }
        ensures grid { IsGrid self }
    {
        self.rows.count as usize * self.columns.count as usize
    }

    /// The tile with the index i.
    pub fn tile(self, i: usize) -> GridTile
        requires { i < count_of self }
        ensures value { result ≡ tile_at self i }
        ensures rect { IsRect result.rect }
    {
        let columns = self.columns.count as usize;
        self.tile_in((i % columns) as u32, (i / columns) as u32)
    }

    /// The tile in a column and a row of the grid, counted from 0.
    fn tile_in(self, column: u32, row: u32) -> GridTile
        requires column { column < self.columns.count }
        requires row { row < self.rows.count }
        ensures { result ≡ tile_in self column row }
    {
        tile(self.sides, self.columns.at(column), self.rows.at(row))
    }
}

/// A part of the view in the coordinates of a slice.
fn shown_in_slice(shown: Rect, origin: Point) -> Rect
    requires shown { IsViewPart shown }
    requires origin { IsWithinReach origin }
    ensures value { result ≡ in_slice shown origin }
    ensures room { HasTileRoom (in_slice shown origin) }
{
    shown.shift(way_back(origin))
}

/// The way back from a point to (0, 0).
fn way_back(p: Point) -> Point
    requires { IsWithinReach p }
    ensures { result ≡ way_back p }
{
    Point { x: -p.x, y: -p.y }
}
