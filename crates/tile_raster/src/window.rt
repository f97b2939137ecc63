//! A tile's record, drawn into a part of the tile.

ghost use Rattle.std.specs.Prelude.{◌≡◌, ◌≤◌, ◌<◌, ◌+◌, ◌^◌, ◌+ℤ◌, ◌<ℤ◌, pos, ℕ, None, Some, length, take, IsTrue};
ghost use Rattle.wr_geom.specs.Bounds.{IsRect, width_of, height_of};
ghost use Rattle.primitives.specs.Stacks.{balanced, is_shallow, value_at};
ghost use Rattle.tile_store.specs.Tiles.{tile_at, HasTileSides};
ghost use Rattle.tile_store.specs.StoreModel.{LiesInTile};
ghost use Rattle.tile_store.specs.Windows.{HasWindowRow, window_width, with_window_row};
ghost use Rattle.tile_records.specs.Interning.{AreHeld, entries_under, ids_keys, record_keys};
ghost use Rattle.tile_raster.specs.Lists.{entries_of};
ghost use Rattle.tile_raster.specs.Levels.{IsBelow};
ghost use Rattle.tile_raster.specs.Notes.{IsDrawing};
ghost use Rattle.tile_raster.specs.Rasters.{AreWide, IsFit};
ghost use Rattle.tile_raster.specs.Rows.{width};
ghost use Rattle.tile_raster.specs.Spans.{IsFirst};
ghost use Rattle.tile_raster.specs.Windows.{IsWindowDrawn, IsWindowDrawnTo, with_window_line};

use crate::level::{LevelRows, Tools};
use crate::line::Line;
use crate::list::EntryList;
use crate::note::{Drawing, fill_notes};
use crate::rows::{draw_row, first_of};
use crate::scratch::Scratch;
use blend_rules::Plane;
use image_store::Store;
use span_kernels::copy;
use tile_records::{Id, Interner, TileRecord};
use tile_store::{TileStore, Window, know_store};
use wr_geom::{Point, Rect, TileKey};

/// Writes the first bytes of a row into one plane of a row of the open window, as many as that has.
fn put_window_plane<R: Drop>(bytes: &[u8], p: Plane, y: i32, count: u16, tiles: &mut TileStore<R>)
    requires row { HasWindowRow tiles.old.window y }
    requires count { window_width tiles.old.window ≡ count }
    requires wide { count ≤ length bytes.now }
    ensures { tiles.new ≡ with_window_row p y (take count bytes.now) tiles.old }
{
    let part = tiles.row_mut(p, y);
    copy(part, &bytes[..usize::from(count)]);
}

/// Writes the first pixels of a row into a row of the open window, as many as that has.
fn put_window_row<R: Drop>(row: &Line, y: i32, count: u16, tiles: &mut TileStore<R>)
    requires row { HasWindowRow tiles.old.window y }
    requires count { window_width tiles.old.window ≡ count }
    requires wide { count ≤ width row.now }
    ensures { tiles.new ≡ with_window_line y count row.now tiles.old }
{
    put_window_plane(row.plane(Plane::B), Plane::B, y, count, tiles);
    put_window_plane(row.plane(Plane::G), Plane::G, y, count, tiles);
    put_window_plane(row.plane(Plane::R), Plane::R, y, count, tiles);
    put_window_plane(row.plane(Plane::A), Plane::A, y, count, tiles);
}

/// A rectangle's first point.
fn corner_of(rect: Rect) -> Point
    ensures value { result ≡ record { x = rect.x0; y = rect.y0 } }
    ensures rect { IsRect rect }
{
    Point {
        x: rect.x0(),
        y: rect.y0(),
    }
}

/// How many pixels lie across and down a rectangle.
fn sides_of(rect: Rect) -> (u16, u16)
    requires across { width_of rect < 2 ^ 16 }
    requires down { height_of rect < 2 ^ 16 }
    ensures across { result.0 ≡ width_of rect }
    ensures down { result.1 ≡ height_of rect }
{
    (rect.width() as u16, rect.height() as u16)
}

/// Draws entries into each row of the open window.
fn draw_window_rows<R: Drop>(
    drawing: Drawing,
    window: Window,
    tiles: &mut TileStore<R>,
    row: &mut Line,
    levels: &mut [LevelRows],
    tools: &mut Tools,
)
    requires drawing { IsDrawing drawing }
    requires below { IsBelow (entries_of drawing.entries) (length levels.old) }
    requires room { length levels.old ≤ 65 }
    requires window { tiles.old.window ≡ Some window }
    requires row { width_of window.rect ≤ width row.old }
    requires wide { AreWide (width row.old) levels.old }
    requires tools { IsFit (width row.old) tools.old }
    ensures drawn { IsWindowDrawnTo tiles.old tiles.new window (height_of window.rect)
        (value_at (entries_of drawing.entry.entries) drawing.entry.store.now) }
    ensures rect { IsRect window.rect }
    ensures row { width row.new ≡ width row.old }
    ensures levels { length levels.new ≡ length levels.old }
    ensures wide { AreWide (width row.old) levels.new }
    ensures tools { IsFit (width row.old) tools.new }
{
    let rect = window.rect;
    let corner = corner_of(rect);
    know_store(tiles);
    if rect.is_empty() {
        return;
    }
    let (count, height) = sides_of(rect);
    for i in 0..height {
        let first = first_of(corner, i);
        draw_row(drawing, first, count, row, levels, tools);
        row.know_line();
        put_window_row(row, first.y, count, tiles);
    }
}

/// Draws the entries of ids into a rectangle of a kept tile, through one window of the tile.
fn raster_ids<R: Drop>(
    interner: &Interner,
    ids: &[Id],
    store: &Store,
    tiles: &mut TileStore<R>,
    window: Window,
    scratch: &mut Scratch,
)
    requires held { AreHeld interner.now (ids_keys ids.now) }
    requires few { length ids.now < 2 ^ 32 }
    requires balanced { IsTrue (balanced 0 (entries_under interner.now (ids_keys ids.now))) }
    requires shallow { IsTrue (is_shallow 64 (entries_under interner.now (ids_keys ids.now))) }
    requires closed { tiles.old.window ≡ None }
    requires inside { LiesInTile window.rect (tile_at window.key tiles.old.tiles) }
    requires wide { width_of window.rect ≤ scratch.old.width }
    ensures drawn { IsWindowDrawn tiles.old tiles.new window (value_at (entries_under interner.now (ids_keys ids.now)) store.now) }
    ensures scratch { scratch.new ≡ scratch.old }
{
    let _opened = tiles.opened();
    let _corner = corner_of(window.rect);
    if window.rect.is_empty() {
        return;
    }
    let entries = EntryList::Held { interner, ids };
    entries.know_entries();
    image_store::know_store(store);
    let count = fill_notes(entries, store, &mut scratch.notes);
    let drawing = Drawing {
        entries,
        store,
        notes: &scratch.notes[..count],
    };
    let Window { key, rect } = window;
    tiles.open_window(key, rect);
    draw_window_rows(
        drawing,
        window,
        tiles,
        &mut scratch.row,
        &mut scratch.levels,
        &mut scratch.tools,
    );
    tiles.close_window();
}

/// Draws the entries of a record into a rectangle of a kept tile, with what is stored now, through one window of the tile.
///
/// Every other byte of every tile stays, and so do keys, order, rectangles and notes. It takes no memory. The record's ids
/// are held, its entries are balanced in pushes and pops, nest at most 64 groups and are fewer than 2^32; the tile is kept,
/// no window is open, and the rectangle lies in the tile; the scratch is at least as wide as the rectangle.
pub fn raster(
    interner: &Interner,
    now: &TileRecord,
    store: &Store,
    tiles: &mut TileStore<TileRecord>,
    key: TileKey,
    dirt: Rect,
    scratch: &mut Scratch,
)
    requires held { AreHeld interner.now (record_keys now.now) }
    requires few { length now.now.ids.items < 2 ^ 32 }
    requires balanced { IsTrue (balanced 0 (entries_under interner.now (record_keys now.now))) }
    requires shallow { IsTrue (is_shallow 64 (entries_under interner.now (record_keys now.now))) }
    requires closed { tiles.old.window ≡ None }
    requires inside { LiesInTile dirt (tile_at key tiles.old.tiles) }
    requires wide { width_of dirt ≤ scratch.old.width }
    ensures drawn { IsWindowDrawn tiles.old tiles.new (record { key = key; rect = dirt })
        (value_at (entries_under interner.now (record_keys now.now)) store.now) }
    ensures scratch { scratch.new ≡ scratch.old }
{
    let window = Window { key, rect: dirt };
    raster_ids(interner, now.ids.as_slice(), store, tiles, window, scratch);
}
