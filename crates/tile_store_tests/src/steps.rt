//! The same call on a store and on a plain list of tiles, and whether both then show the same.

ghost use Rattle.std.specs.Prelude.{◌≡◌, None, Some, IsTrue, IfSome, option_map};
ghost use Rattle.tile_store.specs.Tiles.{HasTileSides, HasRow, tile_at};

use crate::plain::{PLANES, PlainTile, index_of};
use span_kernels::{Plane, fill};
use std::alloc::Global;
use tile_store::{MAX_TILE_SIDE, MAX_TILES, TileStore, TileView};
use wr_geom::{NoMemory, Rect, TileKey};

/// Whether a rectangle can be that of a tile.
fn has_tile_sides(rect: Rect) -> bool
    ensures { IsTrue result → HasTileSides rect }
{
    let (width, height) = (rect.width(), rect.height());
    if width < 1 || height < 1 {
        return false;
    }
    width <= u32::from(MAX_TILE_SIDE) && height <= u32::from(MAX_TILE_SIDE)
}

/// Puts a tile where its key isn't kept and its rectangle can be a tile's.
pub(crate) fn put(
    store: &mut TileStore<u32>,
    tiles: &mut Vec<PlainTile>,
    alloc: Global,
    tile: PlainTile,
) -> Result<(), NoMemory>
    requires closed { store.old.window ≡ None }
    ensures closed { store.new.window ≡ None }
{
    let (key, rect, note) = (tile.key, tile.rect, tile.note);
    if store.touch(key) || store.len() >= MAX_TILES || !has_tile_sides(rect) {
        return Ok(());
    }
    if store.put(alloc, key, rect, note).is_err() {
        return Err(NoMemory);
    }
    tiles.push(tile)?;
    Ok(())
}

/// Makes a tile the most recent in both; false where they differ in whether it is kept.
pub(crate) fn touch(
    store: &mut TileStore<u32>,
    tiles: &mut Vec<PlainTile>,
    key: TileKey,
) -> Result<bool, NoMemory>
    requires closed { store.old.window ≡ None }
    ensures closed { store.new.window ≡ None }
{
    let kept = store.touch(key);
    let Some(at) = index_of(tiles, key) else {
        return Ok(!kept);
    };
    if at < tiles.len() {
        let tile = tiles.remove(at);
        tiles.push(tile)?;
    }
    Ok(kept)
}

/// Gives a kept tile another note in both; false where the old notes differ.
pub(crate) fn swap_note(
    store: &mut TileStore<u32>,
    tiles: &mut Vec<PlainTile>,
    key: TileKey,
    note: u32,
) -> bool
    requires closed { store.old.window ≡ None }
    ensures closed { store.new.window ≡ None }
{
    let Some(at) = index_of(tiles, key) else {
        return store.note(key).is_none();
    };
    if store.tile(key).is_none() {
        return false;
    }
    let old = store.swap_note(key, note);
    let Some(tile) = tiles.get_mut(at) else {
        return false;
    };
    let plain = tile.note;
    tile.note = note;
    old == plain
}

/// Gives a tile up in both; false where the notes differ.
pub(crate) fn remove(store: &mut TileStore<u32>, tiles: &mut Vec<PlainTile>, key: TileKey) -> bool
    requires closed { store.old.window ≡ None }
    ensures closed { store.new.window ≡ None }
{
    let note = store.remove(key);
    let Some(at) = index_of(tiles, key) else {
        return note.is_none();
    };
    if at >= tiles.len() {
        return false;
    }
    note == Some(tiles.remove(at).note)
}

/// Gives up the least recent tile of both where there are more than so many; false where they differ.
pub(crate) fn pop_over(store: &mut TileStore<u32>, tiles: &mut Vec<PlainTile>, budget: u32) -> bool
    requires closed { store.old.window ≡ None }
    ensures closed { store.new.window ≡ None }
{
    let popped = store.pop_over(budget);
    if tiles.len() <= budget as usize || tiles.is_empty() {
        return popped.is_none();
    }
    let tile = tiles.remove(0);
    popped == Some((tile.key, tile.note))
}

/// Fills a part of one plane of a kept tile in both; false where the part's pixels weren't counted.
pub(crate) fn draw(
    store: &mut TileStore<u32>,
    tiles: &mut Vec<PlainTile>,
    key: TileKey,
    part: Rect,
    plane: u8,
    byte: u8,
) -> bool
    requires closed { store.old.window ≡ None }
    ensures closed { store.new.window ≡ None }
{
    let Some(rect) = store.rect(key) else {
        return true;
    };
    let before = store.opened();
    let part = rect.intersect(part);
    store.open_window(key, part);
    fill_window(store, part, plane, byte);
    store.close_window();
    let Some(at) = index_of(tiles, key) else {
        return false;
    };
    if let Some(tile) = tiles.get_mut(at) {
        tile.fill(part, u64::from(plane % 4), byte);
    }
    store.opened() == before.saturating_add(part.area())
}

/// The coordinate of a row of a rectangle, if it has that row.
fn row_at(rect: Rect, row: u32) -> Option<i32>
    ensures { IfSome result (λ y. HasRow rect y) }
{
    let y = i32::try_from(row).ok()?.wrapping_add(rect.y0());
    if y < rect.y0() {
        return None;
    }
    if y >= rect.y1() {
        return None;
    }
    Some(y)
}

/// Fills one plane of the open window.
#[tactic(auto, using(crate::proofs::Windows::row_of_window))]
fn fill_window(store: &mut TileStore<u32>, part: Rect, plane: u8, byte: u8)
    requires open_is { option_map (λ window. window.rect) store.old.window ≡ Some part }
    ensures stays { store.new.window ≡ store.old.window }
{
    if part.x0() >= part.x1() {
        return;
    }
    for row in 0..part.height() {
        let Some(y) = row_at(part, row) else {
            return;
        };
        fill(store.row_mut(PLANES[usize::from(plane % 4)], y), byte);
    }
}

/// Whether a kept tile has the bytes of a plain one in a row.
fn shows_row(tile: &TileView<'_, u32>, plain: &PlainTile, y: i32) -> bool
    requires { HasRow tile.now.rect y }
{
    for plane in 0..4 {
        if plain.row(plane, y) != Some(tile.row(PLANES[plane], y)) {
            return false;
        }
    }
    true
}

/// Whether a kept tile has the bytes of a plain one, row by row.
fn shows_bytes(tile: &TileView<'_, u32>, plain: &PlainTile) -> bool {
    let rect = tile.rect();
    for row in 0..rect.height() {
        let Some(y) = row_at(rect, row) else {
            return false;
        };
        if !shows_row(tile, plain, y) {
            return false;
        }
    }
    true
}

/// Whether each row of a kept tile is found by its key too.
#[tactic(auto, using(crate::proofs::Windows::row_where_kept))]
fn rows_found(store: &TileStore<u32>, tile: &TileView<'_, u32>, key: TileKey) -> bool
    requires { tile_at key store.now.tiles ≡ Some tile.now }
{
    let rect = tile.rect();
    for row in 0..rect.height() {
        let Some(y) = row_at(rect, row) else {
            return false;
        };
        if store.row(key, Plane::G, y) != Some(tile.row(Plane::G, y)) {
            return false;
        }
    }
    true
}

/// Whether the store keeps a plain tile.
fn shows(store: &TileStore<u32>, plain: &PlainTile) -> bool {
    let Some(tile) = store.tile(plain.key) else {
        return false;
    };
    if tile.rect() != plain.rect || *tile.note() != plain.note {
        return false;
    }
    shows_bytes(&tile, plain) && rows_found(store, &tile, plain.key)
}

/// Whether the store keeps as many tiles as the list, and each of the list's.
pub(crate) fn shows_all(store: &TileStore<u32>, tiles: &[PlainTile]) -> bool {
    if store.len() as usize != tiles.len() {
        return false;
    }
    for tile in tiles {
        if !shows(store, tile) {
            return false;
        }
    }
    true
}
