//! Drawn calls on a store and on a plain list of tiles.

ghost use Rattle.std.specs.Prelude.{◌≡◌, None};

use crate::draws::{Draws, key, rect};
use crate::plain::{PlainTile, index_of};
use crate::steps::{draw, pop_over, put, remove, shows_all, swap_note, touch};
use std::alloc::Global;
use std::test::Fail;
use tile_store::{TileStore, key_laws, know_store, pixel_laws};
use wr_geom::NoMemory;

/// One drawn call on one of so many keys, on both; false where the answers differ.
fn step(
    store: &mut TileStore<u32>,
    tiles: &mut Vec<PlainTile>,
    alloc: Global,
    draws: &mut Draws,
    keys: u8,
) -> Result<bool, NoMemory>
    requires closed { store.old.window ≡ None }
    ensures closed { store.new.window ≡ None }
{
    let key = key(draws.below(keys));
    let note = u32::from(draws.below(255));
    match draws.below(9) {
        0 | 1 => {
            let new = index_of(tiles, key).is_none();
            let tile = PlainTile::new(alloc, key, draws.rect(), note)?;
            if new {
                put(store, tiles, alloc, tile)?;
            }
            Ok(true)
        }
        2 => touch(store, tiles, key),
        3 => Ok(swap_note(store, tiles, key, note)),
        4 => Ok(remove(store, tiles, key)),
        5 => Ok(pop_over(store, tiles, u32::from(draws.below(keys)))),
        _ => Ok(draw(
            store,
            tiles,
            key,
            draws.rect(),
            draws.below(4),
            draws.below(255),
        )),
    }
}

/// So many drawn calls, after each of which both show the same; then all tiles are given up, the least recent first.
fn run(alloc: Global, seed: u64, keys: u8, calls: u32) -> Result<bool, NoMemory> {
    let mut store = TileStore::new(alloc)?;
    let mut tiles = Vec::new(alloc);
    let mut draws = Draws { state: seed };
    for _ in 0..calls {
        if !step(&mut store, &mut tiles, alloc, &mut draws, keys)? {
            return Ok(false);
        }
        if !shows_all(&store, &tiles) {
            return Ok(false);
        }
    }
    for _ in 0..256 {
        if !pop_over(&mut store, &mut tiles, 0) {
            return Ok(false);
        }
    }
    Ok(store.len() == 0)
}

#[test]
fn drawn_calls_do_as_a_plain_list(rt: HostRuntime) -> Result<(), Fail> {
    assert!(rt; run(rt.alloc(), 1, 14, 4000)?);
    assert!(rt; run(rt.alloc(), 2, 1, 500)?);
    assert!(rt; run(rt.alloc(), 3, 250, 1500)?);
    Ok(())
}

/// Puts so many tiles of one pixel and holds them to a budget; answers how many are left.
fn hold(alloc: Global, count: u32, budget: u32) -> Result<u32, NoMemory> {
    let mut store = TileStore::new(alloc)?;
    for number in 0..count {
        let key = wr_geom::TileKey {
            row: (number % 1_000_000) as i32,
            ..key(0)
        };
        let tile = PlainTile::new(alloc, key, rect(0, 0, 1, 1), number)?;
        let mut tiles = Vec::new(alloc);
        put(&mut store, &mut tiles, alloc, tile)?;
    }
    for _ in 0..count {
        let _least = store.pop_over(budget);
    }
    Ok(store.len())
}

#[test]
fn budgets_hold(rt: HostRuntime) -> Result<(), Fail> {
    assert_eq!(rt; hold(rt.alloc(), 3, 1)?, 1);
    assert_eq!(rt; hold(rt.alloc(), 1, 1)?, 1);
    assert_eq!(rt; hold(rt.alloc(), 65_540, 65_536)?, 65_536);
    Ok(())
}

#[test]
fn laws_of_stores(rt: HostRuntime) -> Result<(), Fail> {
    let store: TileStore<u32> = TileStore::new(rt.alloc())?;
    know_store(&store);
    pixel_laws(&store);
    key_laws();
    assert_eq!(rt; (store.len(), store.opened()), (0, 0));
    Ok(())
}
