//! Kept tiles beside planes into which a slice is drawn anew.

ghost use Rattle.std.specs.Prelude.{◌≡◌, ◌<◌, ◌≤◌, IfSome};
ghost use Rattle.tile_grid.specs.Grids.{IsViewPart, IsWithinReach};
ghost use Rattle.tile_raster.specs.Drawing.{IsCorner};

use crate::bench::{Bench, SIDES};
use crate::fits::{can_draw, is_view_part, is_within_reach};
use image_store::Store;
use picture_slices::Slice;
use span_kernels::{Plane, Planes};
use std::alloc::Global;
use tile_grid::{GridTile, TileGrid};
use tile_raster::{Scratch, draw};
use tile_records::TileRecord;
use tile_store::TileView;
use wr_geom::{NoMemory, Point, Rect};

const PLANES: [Plane; 4] = [Plane::B, Plane::G, Plane::R, Plane::A];

/// Whether a row of planes is clear.
fn is_row_clear(planes: &Planes, y: u16) -> bool
    requires { y < planes.now.height }
{
    for plane in PLANES {
        for byte in planes.row(plane, y) {
            if *byte != 0 {
                return false;
            }
        }
    }
    true
}

/// Whether planes are clear.
fn is_clear(planes: &Planes) -> bool {
    for y in 0..planes.height() {
        if !is_row_clear(planes, y) {
            return false;
        }
    }
    true
}

/// Whether the row of a tile at the coordinate `at` is a row of planes; it is another where the tile has none there.
fn is_row_same(tile: &TileView<TileRecord>, at: i32, planes: &Planes, y: u16) -> bool
    requires { y < planes.now.height }
{
    let rect = tile.rect();
    if at < rect.y0() || at >= rect.y1() {
        return false;
    }
    for plane in PLANES {
        if tile.row(plane, at) != planes.row(plane, y) {
            return false;
        }
    }
    true
}

/// Whether a tile has the pixels of planes.
fn is_same(tile: &TileView<TileRecord>, planes: &Planes) -> bool {
    let top = tile.rect().y0();
    for y in 0..planes.height() {
        if !is_row_same(tile, top.wrapping_add(i32::from(y)), planes, y) {
            return false;
        }
    }
    true
}

/// The first corner of a rectangle, if it is near enough to be drawn.
fn corner_of(rect: Rect) -> Option<Point>
    ensures { IfSome result (λ corner. IsCorner corner) }
{
    let (x, y) = (rect.x0(), rect.y0());
    if x < -10_000 || x > 10_000 {
        return None;
    }
    if y < -10_000 || y > 10_000 {
        return None;
    }
    Some(Point { x, y })
}

/// Draws all entries of a slice into a tile of its grid. They can be drawn; else nothing is.
fn drawn_anew(
    alloc: Global,
    slice: &Slice,
    tile: GridTile,
    store: &Store,
) -> Result<Option<Planes>, NoMemory> {
    let mut scratch = Scratch::new(alloc, 64)?;
    let mut planes = Planes::new(alloc, 64, 64)?;
    let entries = slice.entries.as_slice();
    let Some(corner) = corner_of(tile.rect) else {
        return Ok(None);
    };
    if !can_draw(entries) {
        return Ok(None);
    }
    draw(entries, store, corner, &mut planes, &mut scratch);
    Ok(Some(planes))
}

/// Whether a tile of a slice has the pixels that the slice's entries give, all of them clear where it isn't kept.
fn is_tile_right(bench: &Bench, slice: &Slice, tile: GridTile) -> Result<bool, NoMemory> {
    let Some(planes) = drawn_anew(bench.alloc(), slice, tile, bench.store())? else {
        return Ok(false);
    };
    match bench.kept().tiles().tile(tile.key(slice.key)) {
        Some(kept) => Ok(is_same(&kept, &planes)),
        None => Ok(is_clear(&planes)),
    }
}

/// Whether each visible tile of a slice has.
fn is_slice_right(bench: &Bench, slice: &Slice) -> Result<bool, NoMemory> {
    if !is_view_part(slice.shown) || !is_within_reach(slice.origin) {
        return Ok(false);
    }
    let grid = TileGrid::visible(SIDES, slice.shown, slice.origin);
    for i in 0..grid.count() {
        if !is_tile_right(bench, slice, grid.tile(i))? {
            return Ok(false);
        }
    }
    Ok(true)
}

/// Whether each visible tile of some slices has.
pub fn are_right(bench: &Bench, slices: &[Slice]) -> Result<bool, NoMemory> {
    for slice in slices {
        if !is_slice_right(bench, slice)? {
            return Ok(false);
        }
    }
    Ok(true)
}
