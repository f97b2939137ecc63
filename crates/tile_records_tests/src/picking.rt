//! What is picked for a tile.

use super::made::Step::{self, Pop, Push, Solid};
use super::made::{entries, rect};
use primitives::Entry;
use std::alloc::Global;
use std::test::Fail;
use tile_records::{Interner, TileRecord, is_balanced, make_record};
use wr_geom::{NoMemory, Rect};

/// Whether a record stands for just these entries.
fn stands_for(interner: &Interner, record: &TileRecord, wanted: &[Entry]) -> bool {
    if record.ids.len() != wanted.len() {
        return false;
    }
    for i in 0..wanted.len() {
        match interner.get(record.ids[i]) {
            Some(entry) => {
                if entry != &wanted[i] {
                    return false;
                }
            }
            None => return false,
        }
    }
    true
}

/// Whether just these steps are picked of all for a tile.
fn are_picked(alloc: Global, all: &[Step], tile: Rect, wanted: &[Step]) -> Result<bool, NoMemory> {
    let all = entries(alloc, all)?;
    let wanted = entries(alloc, wanted)?;
    if !is_balanced(all.as_slice()) {
        return Ok(false);
    }
    let mut interner = Interner::new(alloc);
    let record = make_record(&mut interner, all.as_slice(), tile)?;
    Ok(stands_for(&interner, &record, wanted.as_slice()))
}

#[test]
fn tiles_are_picked_up_to_their_edges(rt: HostRuntime) -> Result<(), Fail> {
    let all = [
        Solid(rect(-70, 10, -64, 20)),
        Solid(rect(-70, 10, -63, 20)),
        Solid(rect(0, 10, 9, 20)),
        Solid(rect(-1, 10, 9, 20)),
        Solid(rect(-9, -9, -1, 0)),
        Solid(rect(-9, -9, -1, 1)),
        Solid(rect(-9, 64, -1, 70)),
        Solid(rect(-9, 63, -1, 70)),
    ];
    let wanted = [
        Solid(rect(-70, 10, -63, 20)),
        Solid(rect(-1, 10, 9, 20)),
        Solid(rect(-9, -9, -1, 1)),
        Solid(rect(-9, 63, -1, 70)),
    ];
    assert!(rt; are_picked(rt.alloc(), &all, rect(-64, 0, 0, 64), &wanted)?);
    Ok(())
}

#[test]
fn groups_without_a_primitive_are_left_out(rt: HostRuntime) -> Result<(), Fail> {
    let all = [
        Push(1),
        Push(2),
        Pop,
        Push(3),
        Solid(rect(0, 0, 4, 4)),
        Pop,
        Push(4),
        Solid(rect(80, 0, 84, 4)),
        Pop,
        Pop,
    ];
    let wanted = [Push(1), Push(3), Solid(rect(0, 0, 4, 4)), Pop, Pop];
    assert!(rt; are_picked(rt.alloc(), &all, rect(0, 0, 64, 64), &wanted)?);
    Ok(())
}
