//! The window of a store, filled with an alpha.

ghost use Rattle.std.specs.Prelude.{◌≡◌, IfSome};
ghost use Rattle.tile_grid.specs.declared.tile.TileSides.{TileSides};
ghost use Rattle.tile_store.specs.Tiles.{HasRow};
ghost use Rattle.black_tiles.specs.Black.{AreBlack, IsOpenOn};

use span_kernels::{Plane, fill};
use tile_store::{TileStore, know_store};
use wr_geom::Rect;

/// The coordinate of a row of a rectangle, if it has that row.
fn row_at(rect: Rect, row: u32) -> Option<i32>
    ensures { IfSome result (λ y. HasRow rect y) }
{
    let y = i32::try_from(row).ok()?.wrapping_add(rect.y0());
    if y < rect.y0() {
        return None;
    }
    if y >= rect.y1() {
        return None;
    }
    Some(y)
}

/// Gives one alpha to a row of the open window.
#[tactic(auto, using(crate::proofs::Writes::row_of_window))]
fn fill_row(store: &mut TileStore<u32>, rect: Rect, y: i32, alpha: u8)
    requires open_is { IsOpenOn rect store.old.window }
    requires row { HasRow rect y }
    ensures window { store.new.window ≡ store.old.window }
    ensures black { (sides : TileSides) → AreBlack sides store.old.tiles → AreBlack sides store.new.tiles }
{
    know_store(store);
    fill(store.row_mut(Plane::A, y), alpha);
}

/// Gives one alpha to each row of the open window.
pub(crate) fn fill_window(store: &mut TileStore<u32>, rect: Rect, alpha: u8)
    requires open_is { IsOpenOn rect store.old.window }
    ensures window { store.new.window ≡ store.old.window }
    ensures black { (sides : TileSides) → AreBlack sides store.old.tiles → AreBlack sides store.new.tiles }
{
    for row in 0..rect.height() {
        let Some(y) = row_at(rect, row) else {
            return;
        };
        fill_row(store, rect, y, alpha);
    }
}
