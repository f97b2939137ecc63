//! One tile of a frame: given up, or drawn where it is stale.

ghost use Rattle.std.specs.Prelude.{◌≡◌, ◌<◌, ◌≤◌, ◌+◌, ◌^◌, ◌++◌, [], None, Some, IsSome, IfSome, IfOk, OnOk, OnErr, length};
ghost use Rattle.wr_geom.specs.Bounds.{width_of};
ghost use Rattle.primitives.specs.Stacks.{value_at};
ghost use Rattle.tile_grid.specs.Tiles.{tile_rect};
ghost use Rattle.tile_grid.specs.declared.tile.TileSides.{TileSides};
ghost use Rattle.tile_records.specs.Dirt.{dirt};
ghost use Rattle.tile_records.specs.Interning.{AreHeld, entries_under, record_keys};
ghost use Rattle.tile_records.specs.Counts.{Covers, Moves};
ghost use Rattle.tile_store.specs.StoreModel.{LiesInTile};
ghost use Rattle.tile_store.specs.Tiles.{HasTileSides, tile_at, without};
ghost use Rattle.tile_store.specs.declared.tile.Tile.{Tile as TileModel};
ghost use Rattle.tile_store.specs.declared.limits.TheConstants.{MAX_TILES};
ghost use Rattle.kept_tiles.specs.Tiles.{all_valued, claims, entries_in, kept_of, kept_with, kept_without};
ghost use Rattle.kept_tiles.specs.Work.{IsWorkDone, records_of, stale_area, work_at};
ghost use Rattle.kept_tiles.specs.Progress.{KeepsSound};
ghost use Rattle.kept_tiles.specs.Steps.{AreDrawable, ArePlaced, IsDrawnAnew, IsPut, IsReached, IsShown};

use image_store::Store;
use primitives::{colour_laws, run_laws};
use std::alloc::Global;
use tile_raster::{Scratch, raster};
use tile_records::{Interner, TileRecord, dirt_laws, dirty, give_up};
use tile_store::{TileStore, know_store};
use wr_geom::{NoMemory, Rect, TileKey};

/// Where a tile lies: its key, and its rectangle in its slice's coordinates.
#[derive(Clone, Copy, Debug)]
pub(crate) struct Place {
    pub(crate) key: TileKey,
    pub(crate) rect: Rect,
}

/// Gives a tile up, with its record, if it is kept.
pub(crate) fn drop_tile(interner: &mut Interner, tiles: &mut TileStore<TileRecord>, key: TileKey)
    requires closed { tiles.old.window ≡ None }
    ensures store { tiles.new ≡ record tiles.old { tiles = without key tiles.old.tiles } }
    ensures moves { Moves interner.old interner.new (claims tiles.old.tiles) (claims tiles.new.tiles) }
    ensures values { Covers interner.old (claims tiles.old.tiles)
        → all_valued interner.new tiles.new.tiles ≡ kept_without key (all_valued interner.old tiles.old.tiles) }
    ensures gone { tile_at key tiles.new.tiles ≡ None }
{
    know_store(tiles);
    if let Some(old) = tiles.remove(key) {
        give_up(interner, old);
    }
}

/// The part of a kept tile that has to be drawn for a record.
fn stale_part(
    interner: &Interner,
    tiles: &TileStore<TileRecord>,
    place: &Place,
    next: &TileRecord,
) -> Rect
    requires kept { IsSome (tile_at place.now.key tiles.now.tiles) }
    requires old { (tile : TileModel TileRecord) → tile_at place.now.key tiles.now.tiles ≡ Some tile → AreHeld interner.now (record_keys tile.note) }
    requires new { AreHeld interner.now (record_keys next.now) }
    ensures { (tile : TileModel TileRecord) → tile_at place.now.key tiles.now.tiles ≡ Some tile
        → result ≡ dirt (entries_in interner.now tile) (entries_under interner.now (record_keys next.now)) place.now.rect }
{
    let old = tiles.note(place.key).unwrap();
    dirty(interner, old, next, place.rect)
}

/// Keeps a new tile, without a record.
fn put_blank(
    tiles: &mut TileStore<TileRecord>,
    alloc: Global,
    place: &Place,
) -> Result<(), NoMemory>
    requires new { tile_at place.now.key tiles.old.tiles ≡ None }
    requires room { length tiles.old.tiles < MAX_TILES }
    requires sides { HasTileSides place.now.rect }
    ensures put { OnOk result (IsPut tiles.old tiles.new place.now.key place.now.rect) }
    ensures err { OnErr result (tiles.new ≡ tiles.old) }
{
    let blank = TileRecord {
        ids: Vec::new(alloc),
    };
    match tiles.put(alloc, place.key, place.rect, blank) {
        Ok(()) => Ok(()),
        Err(_) => Err(NoMemory),
    }
}

/// Makes a tile the most recent one, a new one where it isn't kept, and answers which part of it has to be drawn.
fn reach(
    interner: &Interner,
    tiles: &mut TileStore<TileRecord>,
    alloc: Global,
    place: &Place,
    next: &TileRecord,
) -> Result<Rect, NoMemory>
    requires room { length tiles.old.tiles < MAX_TILES }
    requires sides { HasTileSides place.now.rect }
    requires old { (tile : TileModel TileRecord) → tile_at place.now.key tiles.old.tiles ≡ Some tile → AreHeld interner.now (record_keys tile.note) }
    requires new { AreHeld interner.now (record_keys next.now) }
    ensures reached { IfOk result (λ part. IsReached interner.now tiles.old tiles.new place.now.key place.now.rect (entries_under interner.now (record_keys next.now)) part) }
    ensures err { OnErr result (tiles.new ≡ tiles.old) }
{
    if tiles.touch(place.key) {
        return Ok(stale_part(interner, tiles, place, next));
    }
    put_blank(tiles, alloc, place)?;
    Ok(place.rect)
}

/// Draws a part of a kept tile, and gives the tile the record that it then shows.
fn redraw(
    interner: &mut Interner,
    tiles: &mut TileStore<TileRecord>,
    place: &Place,
    part: Rect,
    next: TileRecord,
    store: &Store,
    scratch: &mut Scratch,
)
    requires closed { tiles.old.window ≡ None }
    requires inside { LiesInTile part (tile_at place.now.key tiles.old.tiles) }
    requires wide { width_of part ≤ scratch.old.width }
    requires held { AreHeld interner.old (record_keys next) }
    requires drawable { AreDrawable store.now (entries_under interner.old (record_keys next)) }
    ensures drawn { (tile : TileModel TileRecord) → tile_at place.now.key tiles.old.tiles ≡ Some tile
        → IsDrawnAnew tiles.old tiles.new place.now.key tile part next (value_at (entries_under interner.old (record_keys next)) store.now) }
    ensures moves { (tile : TileModel TileRecord) → tile_at place.now.key tiles.old.tiles ≡ Some tile
        → Moves interner.old interner.new (record_keys tile.note) [] }
    ensures scratch { scratch.new ≡ scratch.old }
{
    raster(interner, &next, store, tiles, place.key, part, scratch);
    let old = tiles.swap_note(place.key, next);
    give_up(interner, old);
}

/// Shows a tile that has something to show, and answers how many pixels of it were drawn.
fn show_entries(
    interner: &mut Interner,
    tiles: &mut TileStore<TileRecord>,
    alloc: Global,
    place: &Place,
    next: TileRecord,
    store: &Store,
    scratch: &mut Scratch,
) -> Result<u64, NoMemory>
    requires closed { tiles.old.window ≡ None }
    requires room { length tiles.old.tiles < MAX_TILES }
    requires sides { HasTileSides place.now.rect }
    requires placed { IfSome (tile_at place.now.key tiles.old.tiles) (λ tile. tile.rect ≡ place.now.rect) }
    requires wide { width_of place.now.rect ≤ scratch.old.width }
    requires covers { Covers interner.old (record_keys next ++ claims tiles.old.tiles) }
    requires drawable { AreDrawable store.now (entries_under interner.old (record_keys next)) }
    ensures shown { OnOk result (IsShown store.now (kept_with interner.old tiles.old) (kept_with interner.new tiles.new)
        place.now.key place.now.rect (entries_under interner.old (record_keys next))) }
    ensures drawn { IfOk result (λ drawn. drawn ≡ stale_area (records_of (kept_of (kept_with interner.old tiles.old)))
        place.now.key place.now.rect (entries_under interner.old (record_keys next))) }
    ensures err { OnErr result (tiles.new ≡ tiles.old) }
    ensures values { OnErr result (all_valued interner.new tiles.new.tiles ≡ all_valued interner.old tiles.old.tiles) }
    ensures moves { Moves interner.old interner.new (record_keys next ++ claims tiles.old.tiles) (claims tiles.new.tiles) }
    ensures closed { tiles.new.window ≡ None }
    ensures scratch { scratch.new ≡ scratch.old }
{
    let part = match reach(interner, tiles, alloc, place, &next) {
        Ok(part) => part,
        Err(error) => {
            give_up(interner, next);
            return Err(error);
        }
    };
    redraw(interner, tiles, place, part, next, store, scratch);
    Ok(part.area())
}

/// Shows a tile: one without an entry is kept no longer, another shows its entries and is the most recent. Answers how many
/// pixels of it were drawn.
pub(crate) fn show_tile(
    interner: &mut Interner,
    tiles: &mut TileStore<TileRecord>,
    alloc: Global,
    place: &Place,
    next: TileRecord,
    store: &Store,
    scratch: &mut Scratch,
) -> Result<u64, NoMemory>
    requires closed { tiles.old.window ≡ None }
    requires room { length tiles.old.tiles < MAX_TILES }
    requires sides { HasTileSides place.now.rect }
    requires placed { IfSome (tile_at place.now.key tiles.old.tiles) (λ tile. tile.rect ≡ place.now.rect) }
    requires wide { width_of place.now.rect ≤ scratch.old.width }
    requires covers { Covers interner.old (record_keys next ++ claims tiles.old.tiles) }
    requires drawable { AreDrawable store.now (entries_under interner.old (record_keys next)) }
    ensures work { OnOk result (IsWorkDone (kept_with interner.old tiles.old) (kept_with interner.new tiles.new)
        (work_at (records_of (kept_of (kept_with interner.old tiles.old))) place.now.key place.now.rect (entries_under interner.old (record_keys next)))) }
    ensures drawn { IfOk result (λ drawn. drawn
        ≡ (work_at (records_of (kept_of (kept_with interner.old tiles.old))) place.now.key place.now.rect
        (entries_under interner.old (record_keys next))).cost) }
    ensures keeps { (sides : TileSides) → place.now.rect ≡ tile_rect sides place.now.key.col place.now.key.row
        → KeepsSound sides store.now (kept_with interner.old tiles.old) (kept_with interner.new tiles.new) }
    ensures placed { (sides : TileSides) → place.now.rect ≡ tile_rect sides place.now.key.col place.now.key.row
        → ArePlaced sides (all_valued interner.old tiles.old.tiles) → ArePlaced sides (all_valued interner.new tiles.new.tiles) }
    ensures more { length tiles.new.tiles ≤ length tiles.old.tiles + 1 }
    ensures err { OnErr result (tiles.new.opened ≡ tiles.old.opened) }
    ensures moves { Moves interner.old interner.new (record_keys next ++ claims tiles.old.tiles) (claims tiles.new.tiles) }
    ensures closed { tiles.new.window ≡ None }
    ensures scratch { scratch.new ≡ scratch.old }
{
    dirt_laws();
    run_laws();
    colour_laws();
    let _before = tiles.opened();
    if next.ids.is_empty() {
        drop_tile(interner, tiles, place.key);
        return Ok(0);
    }
    show_entries(interner, tiles, alloc, place, next, store, scratch)
}
