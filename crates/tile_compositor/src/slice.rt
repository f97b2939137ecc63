//! Slices laid over a frame, tile by tile.

ghost use Rattle.std.specs.Prelude.{◌≡◌, ◌<◌, ℕ, pos, IsTrue, All};
ghost use Rattle.wr_geom.specs.Bounds.{has_points};
ghost use Rattle.span_kernels.specs.PlanesModel.{pixel_at};
ghost use Rattle.tile_grid.specs.Tiles.{AreTileSides};
ghost use Rattle.tile_grid.specs.Grids.{IsWithinReach, count_of, grid_over, in_slice, tile_at, way_back};
ghost use Rattle.tile_compositor.specs.Laid.{AreAllPixels, IsLaid, KeepSides};
ghost use Rattle.tile_compositor.specs.Composition.{CanAllBeShown, HasAllPixels, IsPlacedIn, composed, placed_over, shows_in, tile_over};

use crate::part::{lay_part, part_of};
use crate::placed::Placed;
use span_kernels::{Planes, know_planes};
use tile_grid::{TileGrid, TileSides};
use tile_store::{TileStore, TileView};
use wr_geom::{Point, Rect};

/// Where a slice shows, in its own coordinates, and the tiles that meet that.
#[derive(Clone, Copy, Debug)]
struct Visible {
    shown: Rect,
    grid: TileGrid,
}

/// The way back from a point to (0, 0).
fn way_back(p: Point) -> Point
    requires { IsWithinReach p }
    ensures { result ≡ way_back p }
{
    Point { x: -p.x, y: -p.y }
}

/// Where a slice shows in a frame, and its tiles there. What it shows must have points.
fn visible_of(slice: &Placed, sides: TileSides, frame: &Planes) -> Visible
    requires sides { AreTileSides sides }
    requires slice { IsPlacedIn frame.now slice.now }
    requires points { IsTrue (has_points slice.now.shown) }
    ensures shown { result.shown ≡ in_slice slice.now.shown slice.now.origin }
    ensures grid { result.grid ≡ grid_over sides (in_slice slice.now.shown slice.now.origin) }
{
    know_planes(frame);
    let shown = slice.shown.shift(way_back(slice.origin));
    Visible {
        shown,
        grid: TileGrid::over(sides, shown),
    }
}

/// Lays a kept tile over a frame where its slice shows.
fn lay_kept<R>(planes: &mut Planes, tile: &TileView<'_, R>, slice: &Placed, shown: Rect)
    requires slice { IsPlacedIn planes.old slice.now }
    requires shown { shown ≡ in_slice slice.now.shown slice.now.origin }
    requires tile { HasAllPixels tile.now }
    requires frame { AreAllPixels planes.old }
    ensures { IsLaid (tile_over tile.now slice.now.origin planes.old)
        (shows_in slice.now tile.now.rect) planes.old planes.new }
{
    know_planes(planes);
    let part = tile.rect().intersect(shown);
    if part.is_empty() {
        return;
    }
    let part = part_of(part.shift(slice.origin), planes);
    lay_part(planes, tile, slice.origin, part);
}

/// Lays the tile with an index over a frame where its slice shows. A tile that isn't kept is clear.
fn lay_tile<R: Drop>(
    planes: &mut Planes,
    tiles: &TileStore<R>,
    slice: &Placed,
    visible: &Visible,
    index: usize,
)
    requires index { index < count_of visible.now.grid }
    requires slice { IsPlacedIn planes.old slice.now }
    requires shown { visible.now.shown ≡ in_slice slice.now.shown slice.now.origin }
    requires tiles { CanAllBeShown visible.now.grid.sides tiles.now.tiles }
    requires frame { AreAllPixels planes.old }
    ensures { IsLaid (placed_over visible.now.grid.sides tiles.now.tiles slice.now planes.old)
        (shows_in slice.now (tile_at visible.now.grid index).rect) planes.old planes.new }
{
    let _sides = visible.grid.sides();
    let tile = visible.grid.tile(index);
    let Some(kept) = tiles.tile(tile.key(slice.key)) else {
        return;
    };
    lay_kept(planes, &kept, slice, visible.shown);
}

/// Lays what a slice's kept tiles show over a frame.
fn lay_slice<R: Drop>(planes: &mut Planes, tiles: &TileStore<R>, slice: &Placed, sides: TileSides)
    requires sides { AreTileSides sides }
    requires slice { IsPlacedIn planes.old slice.now }
    requires tiles { CanAllBeShown sides tiles.now.tiles }
    requires frame { AreAllPixels planes.old }
    ensures sides { KeepSides planes.old planes.new }
    ensures value { (x y : ℕ) → x < planes.old.width → y < planes.old.height
        → pixel_at planes.new x y ≡ placed_over sides tiles.now.tiles slice.now planes.old x y }
    ensures pixels { AreAllPixels planes.new }
{
    if slice.shown.is_empty() {
        return;
    }
    let visible = visible_of(slice, sides, planes);
    for index in 0..visible.grid.count() {
        lay_tile(planes, tiles, slice, &visible, index);
    }
}

/// Lays what slices show over a frame, the backmost slice first.
pub(crate) fn lay_slices<R: Drop>(
    planes: &mut Planes,
    tiles: &TileStore<R>,
    placed: &[Placed],
    sides: TileSides,
)
    requires sides { AreTileSides sides }
    requires placed { All (IsPlacedIn planes.old) placed.now }
    requires tiles { CanAllBeShown sides tiles.now.tiles }
    requires frame { AreAllPixels planes.old }
    ensures sides { KeepSides planes.old planes.new }
    ensures value { (x y : ℕ) → x < planes.old.width → y < planes.old.height
        → pixel_at planes.new x y ≡ composed sides tiles.now.tiles placed.now (pos x) (pos y) (pixel_at planes.old x y) }
    ensures pixels { AreAllPixels planes.new }
{
    for slice in placed {
        lay_slice(planes, tiles, slice, sides);
    }
}
