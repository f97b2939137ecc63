//! The dirt of two records.

ghost use Rattle.std.specs.Prelude.{IsTrue};
ghost use Rattle.primitives.specs.Stacks.{balanced};

use super::made::Step::{self, Image, Pop, Push, Solid, Text};
use super::made::{entries, rect};
use primitives::Entry;
use std::alloc::Global;
use std::test::Fail;
use tile_records::{Interner, dirty, holding_laws, is_balanced, make_record};
use wr_geom::{NoMemory, Rect};

/// The dirt of two lists in a tile.
fn dirt(interner: &mut Interner, old: &[Entry], new: &[Entry], tile: Rect) -> Result<Rect, NoMemory>
    requires old { IsTrue (balanced 0 old.now) }
    requires new { IsTrue (balanced 0 new.now) }
{
    holding_laws();
    let before = make_record(interner, old, tile)?;
    let after = make_record(interner, new, tile)?;
    Ok(dirty(interner, &before, &after, tile))
}

/// The dirt of two lists in the tile [0 0 64 64], or none where a group doesn't end.
fn dirt_of(alloc: Global, old: &[Step], new: &[Step]) -> Result<Option<Rect>, NoMemory> {
    let old = entries(alloc, old)?;
    let new = entries(alloc, new)?;
    if !is_balanced(old.as_slice()) || !is_balanced(new.as_slice()) {
        return Ok(None);
    }
    let mut interner = Interner::new(alloc);
    let tile = rect(0, 0, 64, 64);
    Ok(Some(dirt(&mut interner, old.as_slice(), new.as_slice(), tile)?))
}

#[test]
fn both_places_of_a_moved_solid(rt: HostRuntime) -> Result<(), Fail> {
    let old = [Solid(rect(0, 0, 4, 4))];
    let new = [Solid(rect(8, 0, 12, 4))];
    let dirt = dirt_of(rt.alloc(), &old, &new)?;
    assert_eq!(rt; dirt, Some(rect(0, 0, 12, 4)));
    Ok(())
}

#[test]
fn a_record_against_itself_is_clean(rt: HostRuntime) -> Result<(), Fail> {
    let all = [
        Push(9),
        Image(rect(5, 5, 9, 9), 1),
        Pop,
        Solid(rect(1, 1, 2, 2)),
        Solid(rect(1, 1, 2, 2)),
    ];
    let dirt = dirt_of(rt.alloc(), &all, &all)?;
    assert_eq!(rt; dirt, Some(rect(0, 0, 0, 0)));
    Ok(())
}

#[test]
fn what_both_begin_and_end_with_is_left_off(rt: HostRuntime) -> Result<(), Fail> {
    let old = [
        Solid(rect(0, 0, 64, 64)),
        Push(9),
        Solid(rect(5, 5, 9, 9)),
        Pop,
        Solid(rect(1, 1, 2, 2)),
    ];
    let new = [
        Solid(rect(0, 0, 64, 64)),
        Push(9),
        Solid(rect(5, 5, 8, 9)),
        Solid(rect(20, 5, 90, 9)),
        Pop,
        Solid(rect(1, 1, 2, 2)),
    ];
    let dirt = dirt_of(rt.alloc(), &old, &new)?;
    assert_eq!(rt; dirt, Some(rect(5, 5, 64, 9)));
    Ok(())
}

#[test]
fn a_group_that_comes_twice(rt: HostRuntime) -> Result<(), Fail> {
    let old = [Push(9), Solid(rect(5, 5, 9, 9)), Pop];
    let new = [
        Push(9),
        Solid(rect(5, 5, 9, 9)),
        Pop,
        Push(9),
        Solid(rect(5, 5, 9, 9)),
        Pop,
    ];
    let dirt = dirt_of(rt.alloc(), &old, &new)?;
    assert_eq!(rt; dirt, Some(rect(5, 5, 9, 9)));
    Ok(())
}

#[test]
fn an_opacity_that_changes_is_the_whole_tile(rt: HostRuntime) -> Result<(), Fail> {
    let old = [Push(128), Solid(rect(0, 0, 4, 4)), Pop];
    let new = [Push(64), Solid(rect(0, 0, 4, 4)), Pop];
    let alone = [Solid(rect(0, 0, 4, 4))];
    assert_eq!(rt; dirt_of(rt.alloc(), &old, &new)?, Some(rect(0, 0, 64, 64)));
    assert_eq!(rt; dirt_of(rt.alloc(), &alone, &new)?, Some(rect(0, 0, 4, 4)));
    Ok(())
}

#[test]
fn an_image_that_is_updated(rt: HostRuntime) -> Result<(), Fail> {
    let old = [Solid(rect(0, 0, 9, 9)), Image(rect(40, 60, 56, 76), 1)];
    let new = [Solid(rect(0, 0, 9, 9)), Image(rect(40, 60, 56, 76), 2)];
    let dirt = dirt_of(rt.alloc(), &old, &new)?;
    assert_eq!(rt; dirt, Some(rect(40, 60, 56, 64)));
    Ok(())
}

#[test]
fn a_glyph_at_another_position(rt: HostRuntime) -> Result<(), Fail> {
    let old = [Text(rect(8, 8, 30, 20), 8)];
    let new = [Text(rect(8, 8, 30, 20), 9)];
    let dirt = dirt_of(rt.alloc(), &old, &new)?;
    assert_eq!(rt; dirt, Some(rect(8, 8, 30, 20)));
    Ok(())
}

#[test]
fn slices_that_are_exchanged(rt: HostRuntime) -> Result<(), Fail> {
    let one = [
        Solid(rect(0, 0, 9, 9)),
        Push(9),
        Solid(rect(20, 20, 30, 24)),
        Pop,
    ];
    let other = [Image(rect(10, 2, 12, 40), 1)];
    assert_eq!(rt;
        dirt_of(rt.alloc(), &one, &other)?,
        Some(rect(0, 0, 30, 40))
    );
    assert_eq!(rt;
        dirt_of(rt.alloc(), &other, &one)?,
        Some(rect(0, 0, 30, 40))
    );
    Ok(())
}
