//! Rows of tiles, as they lie in a frame.

ghost use Rattle.std.specs.Prelude.{◌≡◌, ◌≤◌, ◌<◌, ◌+◌, ◌-◌, ◌-ℤ◌, ◌≤ℤ◌, ◌^◌, ℕ, pos, neg_ℤ, take, drop, length, unsigned_abs};
ghost use Rattle.wr_geom.specs.Bounds.{width_of, IsCoordinate};
ghost use Rattle.blend_rules.specs.declared.plane.Plane.{Plane};
ghost use Rattle.tile_store.specs.Tiles.{column_of, tile_row};
ghost use Rattle.tile_grid.specs.Grids.{IsWithinReach};
ghost use Rattle.tile_compositor.specs.Laid.{bytes_in, row_colour, IsRowOf};
ghost use Rattle.tile_compositor.specs.Composition.{HasAllPixels, IsSpanOver, tile_colour};

use crate::row::Span;
use span_kernels::Row;
use tile_store::TileView;
use wr_geom::{Point, Rect};

/// A frame's coordinate on one axis in the coordinates of a slice with this origin.
fn slice_coordinate(at: u16, origin: i32) -> i32
    requires low { neg_ℤ (pos (2 ^ 27)) ≤ℤ origin }
    requires high { origin ≤ℤ pos (2 ^ 27) }
    ensures { result ≡ (pos at -ℤ origin) }
{
    i32::from(at) - origin
}

/// How many columns of a tile's rectangle lie left of a span, for a slice with this origin.
fn columns_before(rect: Rect, origin: Point, span: Span) -> usize
    requires origin { IsWithinReach origin }
    requires over { IsSpanOver rect origin span }
    ensures { result ≡ column_of rect (pos span.from -ℤ origin.x) }
{
    (slice_coordinate(span.from, origin.x) - rect.x0()) as usize
}

/// Some bytes of a row.
fn bytes_from(bytes: &[u8], start: usize, count: usize) -> &[u8]
    requires { start + count ≤ length bytes.now }
    ensures { result.now ≡ take count (drop start bytes.now) }
{
    &bytes[start..start + count]
}

/// Some columns of a row.
fn columns_of(row: Row<'_>, start: usize, count: usize) -> Row<'_>
    requires { (p : Plane) → start + count ≤ length (bytes_in p row) }
    ensures { (p : Plane) → bytes_in p result ≡ take count (drop start (bytes_in p row.entry)) }
{
    Row {
        b: bytes_from(row.b, start, count),
        g: bytes_from(row.g, start, count),
        r: bytes_from(row.r, start, count),
        a: bytes_from(row.a, start, count),
    }
}

/// The colours of a tile that lie over a span.
pub(crate) fn source_of<'a, R>(tile: &TileView<'a, R>, origin: Point, span: Span) -> Row<'a>
    requires origin { IsWithinReach origin }
    requires over { IsSpanOver tile.now.rect origin span }
    requires order { span.from ≤ span.to }
    requires pixels { HasAllPixels tile.now }
    ensures row { IsRowOf (span.to - span.from) result }
    ensures colours { (k : ℕ) → k < span.to - span.from
        → row_colour result k ≡ tile_colour tile.now (pos (span.from + k) -ℤ origin.x) (pos span.y -ℤ origin.y) }
{
    let rect = tile.rect();
    let row = tile.rows(slice_coordinate(span.y, origin.y));
    let start = columns_before(rect, origin, span);
    columns_of(row, start, usize::from(span.to - span.from))
}
