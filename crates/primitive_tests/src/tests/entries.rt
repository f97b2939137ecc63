//! Entries: copied, compared, moved, and without clips.

ghost use Rattle.std.specs.Prelude.{◌≡◌, ◌∷◌, [], IfOk};
ghost use Rattle.blend_rules.specs.declared.mode.Mode.TheVariants as mode;
ghost use Rattle.clip_masks.specs.Clips.{rect_clip};
ghost use Rattle.primitives.specs.declared.entry.Entry.TheVariants as entry;

use super::made::{BLUE, RED, four, on_a_store};
use blend_rules::{Mode, Px};
use clip_masks::Clip;
use containers::Sequence;
use image_store::Store;
use primitives::{Entry, Kind, Primitive, entry_order_laws, know_entry, run_laws, shift_laws};
use std::alloc::{AllocError, Global};
use std::cmp::Ordering;
use wr_geom::{Point, Rect};

/// A group under one clip.
fn push(alloc: Global, opacity: u8, place: Rect) -> Result<Entry, AllocError>
    ensures { IfOk result (λ e. e ≡ entry.Push opacity mode.Screen (rect_clip place ∷ [])) }
{
    let mut clips = Sequence::new(alloc);
    clips.push(Clip::of_rect(place))?;
    Ok(Entry::Push {
        opacity,
        mode: Mode::Screen,
        clips,
    })
}

/// A solid of one pixel.
fn solid(alloc: Global, colour: Px) -> Option<Entry> {
    let place = Rect::new(0, 0, 1, 1)?;
    let p = Primitive::new(Kind::Solid(colour), place, Sequence::new(alloc))?;
    Some(Entry::Primitive(p))
}

/// A group under a clip of one pixel.
fn group(alloc: Global, opacity: u8) -> Option<Entry> {
    push(alloc, opacity, Rect::new(0, 0, 1, 1)?).ok()
}

/// Whether a copy of an entry is equal to it. None where memory runs out.
fn is_copied(entry: &Entry) -> Option<bool> {
    let copy = entry.copy().ok()?;
    Some(copy == *entry)
}

/// Whether those of a solid and of a group are.
fn copies(alloc: Global) -> Option<bool> {
    let solid = is_copied(&solid(alloc, RED)?)?;
    Some(solid && is_copied(&group(alloc, 7)?)?)
}

#[test]
fn a_copy_is_equal(rt: HostRuntime) {
    assert!(rt; copies(rt.alloc()) == Some(true));
}

/// Whether an entry comes before another, both before the end of a group.
fn come_in_order(first: &Entry, second: &Entry, pop: &Entry) -> bool {
    let order = first != second && first.cmp(second) == Ordering::Less;
    order && second.cmp(pop) == Ordering::Less && pop.cmp(first) == Ordering::Greater
}

/// Whether a red solid comes before a blue one.
fn orders_solids(alloc: Global) -> Option<bool> {
    let red = solid(alloc, RED)?;
    let blue = solid(alloc, BLUE)?;
    Some(come_in_order(&red, &blue, &Entry::Pop))
}

/// Whether a group of less opacity comes before one of more.
fn orders_groups(alloc: Global) -> Option<bool> {
    let six = group(alloc, 6)?;
    let seven = group(alloc, 7)?;
    Some(come_in_order(&six, &seven, &Entry::Pop))
}

#[test]
fn entries_are_ordered(rt: HostRuntime) {
    assert!(rt; orders_solids(rt.alloc()) == Some(true));
    assert!(rt; orders_groups(rt.alloc()) == Some(true));
    entry_order_laws();
}

/// Whether a moved primitive shows at the moved points.
fn shows_moved(alloc: Global, store: &mut Store) -> Option<bool> {
    let place = Rect::new(0, 0, 2, 1)?;
    let p = Primitive::new(Kind::Solid(RED), place, Sequence::new(alloc))?;
    let p = p.shift(Point { x: -5, y: 7 });
    Some(four(&p, store, -6, 7) == [Px::CLEAR, RED, RED, Px::CLEAR])
}

#[test]
fn a_moved_primitive_shows_at_moved_points(rt: HostRuntime) {
    assert!(rt; on_a_store(rt.alloc(), shows_moved));
    run_laws();
    shift_laws();
}

/// Whether a group is moved with its clip, and then loses it.
fn moves_a_group(alloc: Global) -> Option<bool> {
    let clip = Clip::of_rect(Rect::new(2, -1, 5, 2)?);
    let group = push(alloc, 7, Rect::new(0, 0, 3, 3)?).ok()?;
    let group = group.shift(Point { x: 2, y: -1 });
    know_entry(&group);
    let moved = group.clips() == [clip].as_slice();
    Some(moved && group.without_clips(1).clips().is_empty())
}

#[test]
fn a_group_is_moved_and_loses_its_clip(rt: HostRuntime) {
    assert!(rt; moves_a_group(rt.alloc()) == Some(true));
}
