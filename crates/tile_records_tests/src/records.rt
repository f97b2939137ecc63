//! Records of all tiles of a grid, and what is left when records are given up.

ghost use Rattle.std.specs.Prelude.{IsTrue};
ghost use Rattle.primitives.specs.Stacks.{balanced};

use super::made::Step::{self, Pop, Push, Solid};
use super::made::{entries, rect};
use primitives::Entry;
use std::alloc::Global;
use std::test::Fail;
use tile_grid::{TileGrid, TileSides};
use tile_records::{Id, Interner, give_up, is_balanced, make_record, make_records};
use wr_geom::{NoMemory, Point, Rect};

/// The tiles of 64 by 64 pixels in a part of the view, [0 0 200 100], of a slice with the origin (70, 10): columns -2 to 2
/// and rows -1 to 1.
fn grid() -> TileGrid {
    let sides = TileSides {
        width: 64,
        height: 64,
    };
    let shown = Rect::new(0, 0, 200, 100).unwrap();
    TileGrid::visible(sides, shown, Point { x: 70, y: 10 })
}

/// How many ids the records of all tiles have, if each tile has the record that is made for it alone.
fn ids_of_all(interner: &mut Interner, entries: &[Entry]) -> Result<Option<usize>, NoMemory>
    requires { IsTrue (balanced 0 entries.now) }
{
    let grid = grid();
    let records = make_records(interner, entries, grid)?;
    let mut count: usize = 0;
    for i in 0..grid.count().min(records.len()) {
        let record = make_record(interner, entries, grid.tile(i).rect)?;
        if records[i].ids != record.ids {
            return Ok(None);
        }
        count = count.wrapping_add(record.ids.len());
    }
    Ok(Some(count))
}

/// The same of steps; none too where a group doesn't end.
fn ids_of_steps(alloc: Global, steps: &[Step]) -> Result<Option<usize>, NoMemory> {
    let entries = entries(alloc, steps)?;
    if !is_balanced(entries.as_slice()) {
        return Ok(None);
    }
    let mut interner = Interner::new(alloc);
    ids_of_all(&mut interner, entries.as_slice())
}

#[test]
fn all_tiles_have_the_records_of_each(rt: HostRuntime) -> Result<(), Fail> {
    let steps = [
        Push(9),
        Solid(rect(-70, -10, 30, 30)),
        Push(8),
        Solid(rect(100, 70, 120, 80)),
        Pop,
        Solid(rect(-1, -1, 1, 1)),
        Pop,
        Solid(rect(-1, -1, 1, 1)),
    ];
    assert_eq!(rt; grid().count(), 15);
    assert_eq!(rt; ids_of_steps(rt.alloc(), &steps)?, Some(31));
    Ok(())
}

/// Whether each id is held so often.
fn are_counted(interner: &Interner, ids: &[Id], count: u64) -> bool {
    for id in ids {
        if interner.count(*id) != count || interner.get(*id).is_some() != (count > 0) {
            return false;
        }
    }
    true
}

/// Whether the ids of two records, in which each is named twice, are held as often as that until the records are given up.
fn are_given_up(interner: &mut Interner, entries: &[Entry]) -> Result<bool, NoMemory>
    requires { IsTrue (balanced 0 entries.now) }
{
    let tile = rect(0, 0, 64, 64);
    let one = make_record(interner, entries, tile)?;
    let two = make_record(interner, entries, tile)?;
    let ids = two.ids.clone()?;
    let at_first = one.ids == ids && are_counted(interner, ids.as_slice(), 4);
    give_up(interner, one);
    let then = are_counted(interner, ids.as_slice(), 2);
    give_up(interner, two);
    Ok(at_first && then && are_counted(interner, ids.as_slice(), 0))
}

/// The same of the entries of steps.
fn steps_are_given_up(alloc: Global, steps: &[Step]) -> Result<bool, NoMemory> {
    let entries = entries(alloc, steps)?;
    if !is_balanced(entries.as_slice()) {
        return Ok(false);
    }
    let mut interner = Interner::new(alloc);
    are_given_up(&mut interner, entries.as_slice())
}

#[test]
fn records_that_are_given_up_leave_nothing(rt: HostRuntime) -> Result<(), Fail> {
    let steps = [
        Push(9),
        Solid(rect(0, 0, 4, 4)),
        Pop,
        Push(9),
        Solid(rect(0, 0, 4, 4)),
        Pop,
    ];
    assert!(rt; steps_are_given_up(rt.alloc(), &steps)?);
    Ok(())
}
