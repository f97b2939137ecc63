//! With a word as argument, prints the processor time that calls of a store of tiles take, in nanoseconds a call: `calls`
//! for those that change tiles, `rows` for those on 64 rows of a tile of 64 by 64 pixels.
#![tactic(auto)]

ghost use Rattle.std.specs.Prelude.{◌≡◌, None, Some, IfSome, option_map};
ghost use Rattle.tile_store.specs.Tiles.{HasTileSides, HasRow, tile_at};
ghost use Rattle.tile_store.specs.StoreModel.{LiesInTile};

use span_kernels::{Plane, fill};
use std::alloc::Global;
use std::time::{CpuClock, Duration};
use std::{env, io};
use tile_store::{MAX_TILES, TileStore, TileView};
use wr_geom::{NoMemory, Rect, SliceKey, TileKey};

/// How many tiles the store keeps.
const TILES: u16 = 256;

/// How often calls on one tile are made.
const ROUNDS: u16 = 20_000;

/// One of the keys.
fn key(number: u16) -> TileKey {
    TileKey {
        slice: SliceKey {
            scroll: None,
            nth: 0,
        },
        col: i32::from(number),
        row: 0,
    }
}

/// The rectangle of each tile: 64 by 64 pixels.
fn square() -> Rect
    ensures { HasTileSides result }
{
    Rect::new(0, 0, 64, 64).unwrap()
}

/// Prints what one of so many calls took.
fn print_time(rt: &HostRuntime, name: &str, spent: Duration, calls: u16) -> io::Result<()> {
    let each = spent.as_nanos() / u128::from(calls.max(1));
    println!(rt; "{name}: {each} ns")
}

/// Puts a tile under each key.
fn put_all(store: &mut TileStore<u32>, alloc: Global) -> Result<(), NoMemory>
    requires closed { store.old.window ≡ None }
    ensures closed { store.new.window ≡ None }
{
    for number in 0..TILES {
        let key = key(number);
        if !store.touch(key) && store.len() < MAX_TILES {
            if store.put(alloc, key, square(), 0).is_err() {
                return Err(NoMemory);
            }
        }
    }
    Ok(())
}

/// Gives every tile up.
fn pop_all(store: &mut TileStore<u32>)
    requires closed { store.old.window ≡ None }
    ensures closed { store.new.window ≡ None }
{
    for _ in 0..TILES {
        let _least = store.pop_over(0);
    }
}

/// Touches the tile of each key, so often.
fn touch_all(store: &mut TileStore<u32>)
    requires closed { store.old.window ≡ None }
    ensures closed { store.new.window ≡ None }
{
    for number in 0..ROUNDS {
        let _kept = store.touch(key(number % TILES));
    }
}

/// Opens and closes a window, so often.
fn open_and_close(store: &mut TileStore<u32>, key: TileKey, part: Rect)
    requires closed { store.old.window ≡ None }
    requires inside { LiesInTile part (tile_at key store.old.tiles) }
    ensures closed { store.new.window ≡ None }
{
    for _ in 0..ROUNDS {
        store.open_window(key, part);
        store.close_window();
    }
}

/// The coordinate of a row of a rectangle, if it has that row.
fn row_at(rect: Rect, row: u32) -> Option<i32>
    ensures { IfSome result (λ y. HasRow rect y) }
{
    let y = i32::try_from(row).ok()?.wrapping_add(rect.y0());
    if y < rect.y0() {
        return None;
    }
    if y >= rect.y1() {
        return None;
    }
    Some(y)
}

/// Fills each row of the open window.
#[tactic(auto, using(crate::proofs::Windows::row_of_window))]
fn fill_rows(store: &mut TileStore<u32>, part: Rect, byte: u8)
    requires open_is { option_map (λ window. window.rect) store.old.window ≡ Some part }
    ensures stays { store.new.window ≡ store.old.window }
{
    if part.x0() >= part.x1() {
        return;
    }
    for row in 0..part.height() {
        let Some(y) = row_at(part, row) else {
            return;
        };
        fill(store.row_mut(Plane::G, y), byte);
    }
}

/// Fills the rows of a window so often.
fn fill_often(store: &mut TileStore<u32>, part: Rect)
    requires open_is { option_map (λ window. window.rect) store.old.window ≡ Some part }
    ensures stays { store.new.window ≡ store.old.window }
{
    for round in 0..ROUNDS {
        fill_rows(store, part, (round % 251) as u8);
    }
}

/// The sum of the first bytes of a tile's rows, each found by its key.
#[tactic(auto, using(crate::proofs::Windows::row_where_kept))]
fn read_by_key(store: &TileStore<u32>, key: TileKey, rect: Rect) -> u64
    requires { option_map (λ tile. tile.rect) (tile_at key store.now.tiles) ≡ Some rect }
{
    let mut sum: u64 = 0;
    for row in 0..rect.height() {
        let Some(y) = row_at(rect, row) else {
            return sum;
        };
        if let Some(bytes) = store.row(key, Plane::G, y) {
            sum = sum.wrapping_add(bytes.first().copied().unwrap_or(0).into());
        }
    }
    sum
}

/// The sum of the first bytes of a tile's rows.
fn read_tile(tile: &TileView<'_, u32>) -> u64 {
    let rect = tile.rect();
    let mut sum: u64 = 0;
    for row in 0..rect.height() {
        let Some(y) = row_at(rect, row) else {
            return sum;
        };
        let bytes = tile.row(Plane::G, y);
        sum = sum.wrapping_add(bytes.first().copied().unwrap_or(0).into());
    }
    sum
}

/// The sums of a tile's rows, read so often with a look-up for each row.
fn read_by_key_often(store: &TileStore<u32>, key: TileKey) -> u64 {
    let mut sum: u64 = 0;
    for _ in 0..ROUNDS {
        if let Some(rect) = store.rect(key) {
            sum = sum.wrapping_add(read_by_key(store, key, rect));
        }
    }
    sum
}

/// The sums of a tile's rows, read so often with one look-up.
fn read_tile_often(store: &TileStore<u32>, key: TileKey) -> u64 {
    let mut sum: u64 = 0;
    for _ in 0..ROUNDS {
        if let Some(tile) = store.tile(key) {
            sum = sum.wrapping_add(read_tile(&tile));
        }
    }
    sum
}

/// Prints what a put takes: in fresh memory the first time, in planes that were given up the second.
fn time_puts(rt: &HostRuntime, store: &mut TileStore<u32>) -> io::Result<()>
    requires closed { store.old.window ≡ None }
    ensures closed { store.new.window ≡ None }
{
    let start = rt.process_cpu_time()?;
    let _put = put_all(store, rt.alloc());
    let spent = rt.process_cpu_time()?.saturating_sub(start);
    print_time(rt, "put", spent, TILES)
}

/// Prints what it takes to give a tile up.
fn time_pops(rt: &HostRuntime, store: &mut TileStore<u32>) -> io::Result<()>
    requires closed { store.old.window ≡ None }
    ensures closed { store.new.window ≡ None }
{
    let start = rt.process_cpu_time()?;
    pop_all(store);
    let spent = rt.process_cpu_time()?.saturating_sub(start);
    print_time(rt, "pop_over", spent, TILES)
}

/// Prints what a touch takes.
fn time_touches(rt: &HostRuntime, store: &mut TileStore<u32>) -> io::Result<()>
    requires closed { store.old.window ≡ None }
    ensures closed { store.new.window ≡ None }
{
    let start = rt.process_cpu_time()?;
    touch_all(store);
    let spent = rt.process_cpu_time()?.saturating_sub(start);
    print_time(rt, "touch", spent, ROUNDS)
}

/// Prints what opening and closing a window takes.
fn time_windows(
    rt: &HostRuntime,
    store: &mut TileStore<u32>,
    key: TileKey,
    part: Rect,
) -> io::Result<()>
    requires closed { store.old.window ≡ None }
    requires inside { LiesInTile part (tile_at key store.old.tiles) }
    ensures closed { store.new.window ≡ None }
{
    let start = rt.process_cpu_time()?;
    open_and_close(store, key, part);
    let spent = rt.process_cpu_time()?.saturating_sub(start);
    print_time(rt, "open_window and close_window", spent, ROUNDS)
}

/// Prints what the calls on tiles take.
fn time_calls(rt: &HostRuntime, store: &mut TileStore<u32>) -> io::Result<()>
    requires closed { store.old.window ≡ None }
{
    time_puts(rt, store)?;
    time_pops(rt, store)?;
    time_puts(rt, store)?;
    time_touches(rt, store)?;
    let seventh = key(7);
    let Some(rect) = store.rect(seventh) else {
        return Ok(());
    };
    time_windows(rt, store, seventh, rect.intersect(square()))
}

/// Prints what it takes to fill 64 rows of the open window.
fn time_fills(rt: &HostRuntime, store: &mut TileStore<u32>, part: Rect) -> io::Result<()>
    requires { option_map (λ window. window.rect) store.old.window ≡ Some part }
{
    let start = rt.process_cpu_time()?;
    fill_often(store, part);
    let spent = rt.process_cpu_time()?.saturating_sub(start);
    print_time(rt, "64 rows by row_mut, filled", spent, ROUNDS)
}

/// Prints what it takes to read 64 rows, with a look-up each and with one.
fn time_reads(rt: &HostRuntime, store: &TileStore<u32>) -> io::Result<()> {
    let start = rt.process_cpu_time()?;
    let by_key = read_by_key_often(store, key(7));
    let spent = rt.process_cpu_time()?.saturating_sub(start);
    print_time(rt, "64 rows by row", spent, ROUNDS)?;
    let start = rt.process_cpu_time()?;
    let by_tile = read_tile_often(store, key(7));
    let spent = rt.process_cpu_time()?.saturating_sub(start);
    print_time(rt, "64 rows by tile", spent, ROUNDS)?;
    println!(rt; "sums: {by_key} {by_tile}")
}

/// Prints what rows take.
fn time_rows(rt: &HostRuntime, store: &mut TileStore<u32>) -> io::Result<()>
    requires closed { store.old.window ≡ None }
{
    if put_all(store, rt.alloc()).is_err() {
        return Ok(());
    }
    time_reads(rt, store)?;
    let seventh = key(7);
    let Some(rect) = store.rect(seventh) else {
        return Ok(());
    };
    let part = rect.intersect(square());
    store.open_window(seventh, part);
    time_fills(rt, store, part)
}

fn main(rt: HostRuntime) -> io::Result<()> {
    // Without a word nothing is written, since times differ from run to run.
    let Some(word) = env::args(&rt)?.nth(1) else {
        return Ok(());
    };
    let Ok(mut store) = TileStore::new(rt.alloc()) else {
        return Ok(());
    };
    match word.as_str() {
        "calls" => time_calls(&rt, &mut store),
        "rows" => time_rows(&rt, &mut store),
        _ => Ok(()),
    }
}
