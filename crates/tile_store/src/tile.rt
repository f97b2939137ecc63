ghost use Rattle.std.specs.Prelude.{◌≡◌, ◌<◌, ◌≤◌, ◌+◌, ◌<ℤ◌, length};
ghost use Rattle.wr_geom.specs.Bounds.{Covers, IsRect, height_of, width_of};
ghost use Rattle.blend_rules.specs.declared.plane.Plane.TheVariants.{B, G, R as Red, A};
ghost use Rattle.tile_store.specs.Tiles.{HasTileSides, HasRow, IsTile, tile_row, column_of, row_of};

use span_kernels::{Plane, Planes, Row};
use std::marker::Model;
use wr_geom::Rect;

/// A kept tile: its rectangle, four planes of bytes with its sides, and a note.
#[derive(Drop)]
pub struct Tile<R> {
    pub(crate) rect: Rect,
    pub(crate) planes: Planes,
    pub(crate) note: R,
}

/// A kept tile, lent for reading.
#[derive(Drop)]
pub struct TileView<'a, R> {
    rect: Rect,
    planes: &'a Planes,
    note: &'a R,
}

impl<'a, R> Model for TileView<'a, R> {
    ghost use Rattle.tile_store.specs.declared.tile.Tile.{Tile};
    ghost use Rattle.tile_store.specs.Tiles.{IsTile};

    ghost Value = { Tile R };

    ghost view = { λ v. record { rect = v.rect; planes = v.planes.now; note = v.note.now } };

    ghost invariant = { λ v. IsTile (record { rect = v.rect; planes = v.planes.now; note = v.note.now }) };
}

impl<'a, R> TileView<'a, R> {
    /// A tile with this rectangle, these planes and this note.
    pub(crate) fn new(rect: Rect, planes: &'a Planes, note: &'a R) -> TileView<'a, R>
        requires { IsTile (record { rect = rect; planes = planes.now; note = note.now }) }
        ensures { result ≡ record { rect = rect; planes = planes.now; note = note.now } }
    {
        TileView { rect, planes, note }
    }

    /// Its rectangle in the coordinates of its slice, 1 to 1,024 pixels a side. It takes no memory.
    pub fn rect(&self) -> Rect
        ensures value { result ≡ self.now.rect }
        ensures tile { IsTile self.now }
    {
        self.rect
    }

    /// Its note. It takes no memory.
    pub fn note(&self) -> &'a R
        ensures { result.now ≡ self.now.note }
    {
        self.note
    }

    /// One plane's bytes in the row at the coordinate y, which must be one of its rows. It takes no memory.
    pub fn row(&self, p: Plane, y: i32) -> &'a [u8]
        requires { HasRow self.now.rect y }
        ensures value { result.now ≡ tile_row p y self.now }
        ensures len { length result.now ≡ width_of self.now.rect }
    {
        self.planes.row(p, row_in(self.rect, y))
    }

    /// All four planes' bytes in the row at the coordinate y, which must be one of its rows. It takes no memory.
    pub fn rows(&self, y: i32) -> Row<'a>
        requires { HasRow self.now.rect y }
        ensures blue { result.b.now ≡ tile_row B y self.now }
        ensures green { result.g.now ≡ tile_row G y self.now }
        ensures red { result.r.now ≡ tile_row Red y self.now }
        ensures alpha { result.a.now ≡ tile_row A y self.now }
        ensures len { (length result.b.now ≡ width_of self.now.rect) × (length result.g.now ≡ width_of self.now.rect)
            × (length result.r.now ≡ width_of self.now.rect) × (length result.a.now ≡ width_of self.now.rect) }
    {
        self.planes.rows(row_in(self.rect, y))
    }
}

/// How many columns and rows a tile has.
pub(crate) fn sides_of(rect: Rect) -> (u16, u16)
    requires { HasTileSides rect }
    ensures width { result.0 ≡ width_of rect }
    ensures height { result.1 ≡ height_of rect }
    ensures rect { IsRect rect }
{
    let _left = rect.x0();
    (rect.width() as u16, rect.height() as u16)
}

/// How many rows of a tile lie above the coordinate y.
pub(crate) fn row_in(rect: Rect, y: i32) -> u16
    requires sides { HasTileSides rect }
    requires row { HasRow rect y }
    ensures value { result ≡ row_of rect y }
    ensures inside { result < height_of rect }
{
    (y - rect.y0()) as u16
}

/// How many columns of a tile lie before the left edge of a rectangle with points in it, and before its right edge.
pub(crate) fn columns_in(tile: Rect, rect: Rect) -> (u16, u16)
    requires sides { HasTileSides tile }
    requires inside { Covers tile rect }
    requires across { rect.x0 <ℤ rect.x1 }
    requires down { rect.y0 <ℤ rect.y1 }
    ensures from { result.0 ≡ column_of tile rect.x0 }
    ensures to { result.1 ≡ result.0 + width_of rect }
    ensures inside { result.1 ≤ width_of tile }
{
    let left = tile.x0();
    ((rect.x0() - left) as u16, (rect.x1() - left) as u16)
}
