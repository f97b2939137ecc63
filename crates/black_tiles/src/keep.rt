//! Stores to which black tiles are added.

ghost use Rattle.std.specs.Prelude.{◌≡◌, None};
ghost use Rattle.tile_grid.specs.Tiles.{AreTileSides, tile_rect};
ghost use Rattle.tile_grid.specs.declared.tile.TileSides.{TileSides};
ghost use Rattle.tile_grid.specs.Grids.{HasTileRoom};
ghost use Rattle.tile_store.specs.Tiles.{HasTileSides};
ghost use Rattle.tile_compositor.specs.Composition.{CanAllBeShown};
ghost use Rattle.black_tiles.specs.Black.{AreBlack};

use crate::window::fill_window;
use std::alloc::Global;
use tile_grid::{TileGrid, TileSides};
use tile_store::{MAX_TILES, TileStore};
use wr_geom::{NoMemory, Rect, SliceKey, TileKey};

/// Keeps a black tile with this alpha, unless its key is kept or too many are.
fn keep_tile(
    store: &mut TileStore<u32>,
    alloc: Global,
    key: TileKey,
    rect: Rect,
    alpha: u8,
) -> Result<(), NoMemory>
    requires closed { store.old.window ≡ None }
    requires sides { HasTileSides rect }
    ensures closed { store.new.window ≡ None }
    ensures black { (sides : TileSides) → rect ≡ tile_rect sides key.col key.row → AreBlack sides store.old.tiles → AreBlack sides store.new.tiles }
{
    if store.tile(key).is_some() || store.len() >= MAX_TILES {
        return Ok(());
    }
    if store.put(alloc, key, rect, 0).is_err() {
        return Err(NoMemory);
    }
    store.open_window(key, rect);
    fill_window(store, rect, alpha);
    store.close_window();
    Ok(())
}

/// Keeps a black tile with this alpha for each tile that a part of a slice meets, but for those that are kept, as far as
/// there is room. The part lies within 2^28 pixels of 0.
pub fn keep_black(
    store: &mut TileStore<u32>,
    alloc: Global,
    sides: TileSides,
    slice: SliceKey,
    part: Rect,
    alpha: u8,
) -> Result<(), NoMemory>
    requires sides { AreTileSides sides }
    requires room { HasTileRoom part }
    requires closed { store.old.window ≡ None }
    requires black { AreBlack sides store.old.tiles }
    ensures closed { store.new.window ≡ None }
    ensures black { AreBlack sides store.new.tiles }
    ensures shown { CanAllBeShown sides store.new.tiles }
{
    let grid = TileGrid::over(sides, part);
    for index in 0..grid.count() {
        let tile = grid.tile(index);
        keep_tile(store, alloc, tile.key(slice), tile.rect, alpha)?;
    }
    Ok(())
}
