//! The part of a grid that a rectangle meets.

ghost use Rattle.std.specs.Prelude.{◌≡◌, ◌≤◌, ◌<◌, ◌<ℤ◌, ◌+ℤ◌, ◌-ℤ◌, ◌*ℤ◌, ◌↔◌, ℕ, pos};
ghost use Rattle.wr_geom.specs.Bounds.{IsCoordinate};
ghost use Rattle.tile_grid.specs.Tiles.{IsTileSide, meets};
ghost use Rattle.tile_grid.specs.Grids.{IsNearSpan, tile_in};
ghost use Rattle.tile_grid.specs.Parts.{IsPartOf, IsInPart, HasCoordinates, is_in_part};

use crate::TileGrid;
use crate::axis::{TileSpan, before, tile_of};
use wr_geom::Rect;

/// Columns or rows of a grid, counted from 0: from `from` up to `to`, without that.
#[derive(Clone, Copy, Debug, PartialEq, Eq)]
pub struct SpanPart {
    pub from: u32,
    pub to: u32,
}

/// Some columns and rows of a grid, counted from 0.
#[derive(Clone, Copy, Debug, PartialEq, Eq)]
pub struct GridPart {
    pub columns: SpanPart,
    pub rows: SpanPart,
}

/// A part without a column or a row.
const NO_PART: SpanPart = SpanPart { from: 0, to: 0 };

/// The tiles of a span that have a coordinate from one up to another, without that.
fn part_of_span(span: TileSpan, side: u16, from: i32, end: i32) -> SpanPart
    requires near { IsNearSpan span }
    requires side { IsTileSide side }
    requires from { IsCoordinate from }
    requires last { IsCoordinate (end -ℤ pos 1) }
    ensures order { result.from ≤ result.to }
    ensures inside { result.to ≤ span.count }
    ensures part { (k : ℕ) → k < span.count → IsInPart result k ↔ HasCoordinates side from end (span.first +ℤ pos k) }
{
    let to = span.before(tile_of(before(end), side) + 1);
    let from = span.before(tile_of(from, side)).min(to);
    SpanPart { from, to }
}

impl TileGrid {
    /// The columns and rows of those of its tiles that a rectangle meets.
    pub fn part(self, rect: Rect) -> GridPart
        ensures part { IsPartOf self result }
        ensures meets { (c r : ℕ) → c < self.columns.count → r < self.rows.count
            → is_in_part result c r ≡ meets (tile_in self c r).rect rect }
    {
        if rect.is_empty() {
            return GridPart {
                columns: NO_PART,
                rows: NO_PART,
            };
        }
        let sides = self.sides();
        GridPart {
            columns: part_of_span(self.columns(), sides.width, rect.x0(), rect.x1()),
            rows: part_of_span(self.rows(), sides.height, rect.y0(), rect.y1()),
        }
    }
}
