//! The tiles of a slice, shown one after another.

ghost use Rattle.std.specs.Prelude.{◌≡◌, ◌≤◌, ◌<◌, ◌+◌, ◌^◌, ◌++◌, [], ℕ, None, length, get_or};
ghost use Rattle.std.specs.Prelude.{IfSome, IfOk, OnOk, IsTrue, IsFalse};
ghost use Rattle.wr_geom.specs.Bounds.{width_of};
ghost use Rattle.tile_grid.specs.Grids.{IsViewPart, IsWithinReach, count_of, tiles_of, tile_at as grid_tile_at};
ghost use Rattle.tile_grid.specs.Tiles.{AreTileSides, tile_rect};
ghost use Rattle.tile_grid.specs.declared.tile.TileSides.{TileSides};
ghost use Rattle.tile_records.specs.Counts.{Covers, Moves};
ghost use Rattle.tile_records.specs.Interning.{entries_under, record_keys};
ghost use Rattle.tile_records.specs.Passing.{joined, keys_of_records};
ghost use Rattle.tile_store.specs.declared.limits.TheConstants.{MAX_TILES};
ghost use Rattle.tile_store.specs.Tiles.{HasTileSides, tile_at};
ghost use Rattle.kept_tiles.specs.Tiles.{all_valued, claims, kept_of, kept_with};
ghost use Rattle.tile_records.specs.Picks.{picked};
ghost use Rattle.kept_tiles.specs.Work.{IsWorkDone, key_of, records_of, shown_tiles, slice_tiles, work_at, work_on};
ghost use Rattle.kept_tiles.specs.Progress.{IsWithin, KeepsSound};
ghost use Rattle.kept_tiles.specs.Steps.{AreDrawable, ArePlaced};

use crate::tile::{Place, show_tile};
use image_store::Store;
use picture_slices::Slice;
use std::alloc::Global;
use tile_grid::{TileGrid, TileSides};
use tile_raster::Scratch;
use tile_records::{Interner, TileRecord, give_up, make_records, picking_laws};
use tile_store::TileStore;
use wr_geom::{NoMemory, SliceKey};

/// The place of the tile of a slice with an index in its grid.
fn place_at(slice: SliceKey, grid: TileGrid, i: usize) -> Place
    requires { i < count_of grid }
    ensures key { result.key ≡ key_of slice (grid_tile_at grid i) }
    ensures rect { result.rect ≡ (grid_tile_at grid i).rect }
{
    let tile = grid.tile(i);
    Place {
        key: tile.key(slice),
        rect: tile.rect,
    }
}

/// Shows a tile, unless memory ran out before: its record is given up then. Answers whether memory has sufficed, and adds the
/// pixels that were drawn to the count of those drawn so far.
fn show_next(
    interner: &mut Interner,
    tiles: &mut TileStore<TileRecord>,
    alloc: Global,
    place: &Place,
    next: TileRecord,
    store: &Store,
    scratch: &mut Scratch,
    is_well: bool,
    drawn: &mut u64,
) -> bool
    requires closed { tiles.old.window ≡ None }
    requires room { IsTrue is_well → length tiles.old.tiles < MAX_TILES }
    requires sides { HasTileSides place.now.rect }
    requires placed { IfSome (tile_at place.now.key tiles.old.tiles) (λ tile. tile.rect ≡ place.now.rect) }
    requires wide { width_of place.now.rect ≤ scratch.old.width }
    requires covers { Covers interner.old (record_keys next ++ claims tiles.old.tiles) }
    requires drawable { AreDrawable store.now (entries_under interner.old (record_keys next)) }
    requires count { IsTrue is_well → drawn.old < 2 ^ 63 }
    ensures well { IsTrue result → IsTrue is_well }
    ensures work { IsTrue result → IsWorkDone (kept_with interner.old tiles.old) (kept_with interner.new tiles.new)
        (work_at (records_of (kept_of (kept_with interner.old tiles.old))) place.now.key place.now.rect (entries_under interner.old (record_keys next))) }
    ensures drawn { IsTrue result → drawn.new ≡ drawn.old
        + (work_at (records_of (kept_of (kept_with interner.old tiles.old))) place.now.key place.now.rect
        (entries_under interner.old (record_keys next))).cost }
    ensures keeps { (sides : TileSides) → place.now.rect ≡ tile_rect sides place.now.key.col place.now.key.row
        → KeepsSound sides store.now (kept_with interner.old tiles.old) (kept_with interner.new tiles.new) }
    ensures placed { (sides : TileSides) → place.now.rect ≡ tile_rect sides place.now.key.col place.now.key.row
        → ArePlaced sides (all_valued interner.old tiles.old.tiles) → ArePlaced sides (all_valued interner.new tiles.new.tiles) }
    ensures more { length tiles.new.tiles ≤ length tiles.old.tiles + 1 }
    ensures err { IsFalse result → tiles.new.opened ≡ tiles.old.opened }
    ensures skipped { IsFalse is_well → tiles.new ≡ tiles.old }
    ensures moves { Moves interner.old interner.new (record_keys next ++ claims tiles.old.tiles) (claims tiles.new.tiles) }
    ensures closed { tiles.new.window ≡ None }
    ensures scratch { scratch.new ≡ scratch.old }
{
    if !is_well {
        give_up(interner, next);
        return false;
    }
    match show_tile(interner, tiles, alloc, place, next, store, scratch) {
        Ok(area) => {
            *drawn += area;
            true
        }
        Err(_) => false,
    }
}

/// Shows the tiles of a grid of a slice's tiles, each with its record, row by row, and answers how many pixels were drawn.
/// Where memory runs out, the records that are left are given up.
fn show_records(
    interner: &mut Interner,
    tiles: &mut TileStore<TileRecord>,
    alloc: Global,
    slice: &Slice,
    grid: TileGrid,
    records: Vec<TileRecord>,
    store: &Store,
    scratch: &mut Scratch,
) -> Result<u64, NoMemory>
    requires closed { tiles.old.window ≡ None }
    requires count { length (keys_of_records records.items) ≡ count_of grid }
    requires entries { (i : ℕ) → i < count_of grid
        → entries_under interner.old (get_or (keys_of_records records.items) i []) ≡ picked (grid_tile_at grid i).rect slice.now.entries }
    requires covers { Covers interner.old (joined (keys_of_records records.items) ++ claims tiles.old.tiles) }
    requires room { length tiles.old.tiles + count_of grid ≤ MAX_TILES }
    requires placed { ArePlaced grid.sides (all_valued interner.old tiles.old.tiles) }
    requires wide { grid.sides.width ≤ scratch.old.width }
    requires drawable { AreDrawable store.now slice.now.entries }
    ensures work { OnOk result (IsWorkDone (kept_with interner.old tiles.old) (kept_with interner.new tiles.new)
        (work_on (kept_with interner.old tiles.old) (shown_tiles slice.now (tiles_of grid)))) }
    ensures drawn { IfOk result (λ drawn. drawn
        ≡ (work_on (kept_with interner.old tiles.old) (shown_tiles slice.now (tiles_of grid))).cost) }
    ensures within { IsWithin (kept_with interner.old tiles.old) (kept_with interner.new tiles.new) (shown_tiles slice.now (tiles_of grid)) }
    ensures keeps { KeepsSound grid.sides store.now (kept_with interner.old tiles.old) (kept_with interner.new tiles.new) }
    ensures placed { ArePlaced grid.sides (all_valued interner.new tiles.new.tiles) }
    ensures covers { Covers interner.new (claims tiles.new.tiles) }
    ensures closed { tiles.new.window ≡ None }
    ensures scratch { scratch.new ≡ scratch.old }
{
    picking_laws();
    let _sides = grid.sides();
    let _count = grid.count();
    let _before = tiles.opened();
    let mut is_well = true;
    let mut drawn = 0;
    let mut i = 0;
    for record in records {
        let place = place_at(slice.key, grid, i);
        is_well = show_next(
            interner, tiles, alloc, &place, record, store, scratch, is_well, &mut drawn,
        );
        i += 1;
    }
    if is_well { Ok(drawn) } else { Err(NoMemory) }
}

/// Shows the visible tiles of a slice, row by row, and answers how many pixels were drawn.
pub(crate) fn show_slice(
    interner: &mut Interner,
    tiles: &mut TileStore<TileRecord>,
    alloc: Global,
    slice: &Slice,
    sides: TileSides,
    store: &Store,
    scratch: &mut Scratch,
) -> Result<u64, NoMemory>
    requires closed { tiles.old.window ≡ None }
    requires sides { AreTileSides sides }
    requires shown { IsViewPart slice.now.shown }
    requires origin { IsWithinReach slice.now.origin }
    requires covers { Covers interner.old (claims tiles.old.tiles) }
    requires room { length tiles.old.tiles + length (slice_tiles sides slice.now) ≤ MAX_TILES }
    requires placed { ArePlaced sides (all_valued interner.old tiles.old.tiles) }
    requires wide { sides.width ≤ scratch.old.width }
    requires drawable { AreDrawable store.now slice.now.entries }
    ensures work { OnOk result (IsWorkDone (kept_with interner.old tiles.old) (kept_with interner.new tiles.new)
        (work_on (kept_with interner.old tiles.old) (slice_tiles sides slice.now))) }
    ensures drawn { IfOk result (λ drawn. drawn
        ≡ (work_on (kept_with interner.old tiles.old) (slice_tiles sides slice.now)).cost) }
    ensures within { IsWithin (kept_with interner.old tiles.old) (kept_with interner.new tiles.new) (slice_tiles sides slice.now) }
    ensures keeps { KeepsSound sides store.now (kept_with interner.old tiles.old) (kept_with interner.new tiles.new) }
    ensures placed { ArePlaced sides (all_valued interner.new tiles.new.tiles) }
    ensures covers { Covers interner.new (claims tiles.new.tiles) }
    ensures closed { tiles.new.window ≡ None }
    ensures scratch { scratch.new ≡ scratch.old }
{
    let grid = TileGrid::visible(sides, slice.shown, slice.origin);
    let records = make_records(interner, slice.entries.as_slice(), grid)?;
    show_records(interner, tiles, alloc, slice, grid, records, store, scratch)
}
