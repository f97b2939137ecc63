//! How much is drawn, and which tiles stay.

use crate::bench::{Bench, on_a_bench};
use crate::made::{Entries, colour, rect, slice_key};
use picture_slices::Slice;
use primitives::Kind;
use std::alloc::Global;
use wr_geom::{NoMemory, Point, Rect, TileKey};

/// How many pixels a tile has.
const TILE: u64 = 64 * 64;

/// A slice in a part of the view with solids of 20 by 10 pixels at these columns, all in the first row of pixels.
fn solids(alloc: Global, columns: &[i16], shown: Rect) -> Result<Slice, NoMemory> {
    let mut entries = Entries::new(alloc);
    for column in columns {
        let solid = Kind::Solid(colour(10, 20, 30, 200));
        entries.primitive(solid, rect(*column, 0, 20, 10))?;
    }
    Ok(entries.slice(0, Point { x: 0, y: 0 }, shown))
}

/// A part of the view from its first corner on.
fn part(width: u8) -> Rect {
    match rect(0, 0, width, 64) {
        Some(part) => part,
        None => Rect::new(0, 0, 0, 0).unwrap(),
    }
}

/// How many pixels are drawn of solids at these columns, in a view of two tiles.
fn drawn_at(bench: &mut Bench, columns: &[i16]) -> Result<Option<u64>, NoMemory> {
    let slices = [solids(bench.alloc(), columns, part(128))?];
    bench.show(&slices)
}

/// Whether a solid on two tiles costs both tiles once.
fn draws_whole_tiles_once(bench: &mut Bench) -> Result<bool, NoMemory> {
    let first = drawn_at(bench, &[50])?;
    let second = drawn_at(bench, &[50])?;
    Ok(first == Some(2 * TILE) && second == Some(0))
}

#[test]
fn what_has_not_changed_costs_nothing(rt: HostRuntime) {
    assert!(rt; on_a_bench(rt.alloc(), draws_whole_tiles_once) == Ok(true));
}

/// Whether a moved solid costs the pixels that it left and those that it has now.
fn draws_where_it_moved(bench: &mut Bench) -> Result<bool, NoMemory> {
    let first = drawn_at(bench, &[10])?;
    let moved = drawn_at(bench, &[15])?;
    let over_the_edge = drawn_at(bench, &[50])?;
    Ok(
        first == Some(TILE)
            && moved == Some(25 * 10)
            && over_the_edge == Some((64 - 15) * 10 + TILE),
    )
}

#[test]
fn a_moved_solid_costs_its_dirt(rt: HostRuntime) {
    assert!(rt; on_a_bench(rt.alloc(), draws_where_it_moved) == Ok(true));
}

/// The tile in a column of the first row.
fn key(col: i32) -> TileKey {
    TileKey {
        slice: slice_key(0),
        col,
        row: 0,
    }
}

/// Whether the tiles in the columns 0 and 1 are kept, and no other.
fn are_kept(bench: &Bench, first: bool, second: bool) -> bool {
    let tiles = bench.kept().tiles();
    let count = u32::from(first) + u32::from(second);
    tiles.tile(key(0)).is_some() == first
        && tiles.tile(key(1)).is_some() == second
        && tiles.len() == count
}

/// Whether tiles with nothing to show are given up, one and then all.
fn gives_up_empty_tiles(bench: &mut Bench) -> Result<bool, NoMemory> {
    drawn_at(bench, &[10, 80])?;
    let both = are_kept(bench, true, true);
    let fewer = drawn_at(bench, &[80])?;
    let one = are_kept(bench, false, true);
    let none = drawn_at(bench, &[])?;
    Ok(both && one && are_kept(bench, false, false) && fewer == Some(0) && none == Some(0))
}

#[test]
fn an_emptied_slice_keeps_no_tile(rt: HostRuntime) {
    assert!(rt; on_a_bench(rt.alloc(), gives_up_empty_tiles) == Ok(true));
}

/// Whether the tile that was shown last stays.
fn keeps_the_last(bench: &mut Bench) -> Result<bool, NoMemory> {
    drawn_at(bench, &[10, 80])?;
    bench.trim(1);
    let last = are_kept(bench, false, true);
    let again = drawn_at(bench, &[10, 80])?;
    let slices = [solids(bench.alloc(), &[10, 80], part(64))?];
    let touched = bench.show(&slices)?;
    bench.trim(2);
    let both = are_kept(bench, true, true);
    bench.trim(1);
    Ok(last && both && are_kept(bench, true, false) && again == Some(TILE) && touched == Some(0))
}

#[test]
fn the_most_recent_tiles_stay(rt: HostRuntime) {
    assert!(rt; on_a_bench(rt.alloc(), keeps_the_last) == Ok(true));
}
