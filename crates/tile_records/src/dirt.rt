//! Where two records can differ.

ghost use Rattle.std.specs.Prelude.{◌≡◌, ◌≤◌, ◌<◌, ◌^◌, length, reverse, get_or};
ghost use Rattle.primitives.specs.Stacks.{balanced};
ghost use Rattle.wr_geom.specs.Bounds.{nowhere};
ghost use Rattle.tile_records.specs.Interning.{AreHeld, entry_at, entries_under, ids_keys, record_keys};
ghost use Rattle.tile_records.specs.Dirt.{no_id, same_id, SharedPrefix, depth_after, extended, extent_from, dirt_between, dirt};

use crate::balance::depth_after;
use crate::{Id, Interner, TileRecord, know_interner};
use primitives::{Entry, entry_order_laws, visible};
use wr_geom::Rect;

/// Whether two ids are the same.
fn same_at(old: &[Id], i: usize, new: &[Id], j: usize) -> bool
    requires old { i < length old.now }
    requires new { j < length new.now }
    ensures { result ≡ same_id (get_or old.now i no_id) (get_or new.now j no_id) }
{
    old[i].key == new[j].key
}

/// How many ids two lists begin with in common.
fn common_prefix(old: &[Id], new: &[Id]) -> usize
    ensures old { result ≤ length old.now }
    ensures new { result ≤ length new.now }
    ensures longest { SharedPrefix result old.now new.now }
{
    for i in 0..old.len().min(new.len()) {
        if !same_at(old, i, new, i) {
            return i;
        }
    }
    old.len().min(new.len())
}

/// How many ids two lists end with in common.
fn common_suffix(old: &[Id], new: &[Id]) -> usize
    ensures old { result ≤ length old.now }
    ensures new { result ≤ length new.now }
    ensures longest { SharedPrefix result (reverse old.now) (reverse new.now) }
{
    for i in 0..old.len().min(new.len()) {
        if !same_at(old, old.len() - 1 - i, new, new.len() - 1 - i) {
            return i;
        }
    }
    old.len().min(new.len())
}

/// How many groups are open after the entry of an id, and none where it ends a group that isn't open.
fn depth_after_id(interner: &Interner, id: Id, depth: usize) -> Option<usize>
    requires { depth < 2 ^ 63 }
    ensures { result ≡ depth_after (entry_at interner.now id.key) depth }
{
    match interner.get(id) {
        Some(entry) => depth_after(entry, depth),
        None => Some(depth),
    }
}

/// Whether the entries of ids are primitives and whole groups.
fn are_balanced(interner: &Interner, ids: &[Id]) -> bool
    ensures { result ≡ balanced 0 (entries_under interner.now (ids_keys ids.now)) }
{
    let mut depth: usize = 0;
    for id in ids {
        match depth_after_id(interner, *id, depth) {
            Some(next) => depth = next,
            None => return false,
        }
    }
    depth == 0
}

/// The least rectangle with the points of another, and those of the visible rectangle of an id's primitive.
fn extended(all: Rect, interner: &Interner, id: Id) -> Rect
    ensures { result ≡ extended all (entry_at interner.now id.key) }
{
    match interner.get(id) {
        Some(Entry::Primitive(primitive)) => all.bound(visible(primitive)),
        Some(Entry::Push { .. }) => all,
        Some(Entry::Pop) => all,
        None => all,
    }
}

/// The least rectangle with the points of the first and of each primitive's visible rectangle.
fn extent(first: Rect, interner: &Interner, ids: &[Id]) -> Rect
    ensures { result ≡ extent_from first (entries_under interner.now (ids_keys ids.now)) }
{
    let mut all = first;
    for id in ids {
        all = extended(all, interner, *id);
    }
    all
}

/// The rectangle that stands for no point.
fn nowhere() -> Rect
    ensures { result ≡ nowhere }
{
    Rect::new(0, 0, 0, 0).unwrap()
}

/// Where the values of two lists of entries that have nothing in common can differ in a tile.
fn dirty_between(interner: &Interner, old: &[Id], new: &[Id], rect: Rect) -> Rect
    ensures { result ≡ dirt_between (entries_under interner.now (ids_keys old.now)) (entries_under interner.now (ids_keys new.now)) rect }
{
    if are_balanced(interner, old) && are_balanced(interner, new) {
        let all = extent(nowhere(), interner, old);
        return extent(all, interner, new).intersect(rect);
    }
    rect
}

/// Where a tile with this rectangle, drawn from the old record, has to be drawn again for the new one.
///
/// What both records begin with in common is left off, and then what they end with. Where what is left of each is made of
/// whole groups, the dirt is the bound of the visible rectangles of all primitives in both, cut to the tile, and else the
/// whole tile. Nothing outside of it changes. The ids of both records must be held. It takes no memory.
pub fn dirty(interner: &Interner, old: &TileRecord, new: &TileRecord, rect: Rect) -> Rect
    requires old { AreHeld interner.now (record_keys old.now) }
    requires new { AreHeld interner.now (record_keys new.now) }
    ensures { result ≡ dirt (entries_under interner.now (record_keys old.now)) (entries_under interner.now (record_keys new.now)) rect }
{
    between(interner, old.ids.as_slice(), new.ids.as_slice(), rect)
}

/// The dirt of two lists of ids.
fn between(interner: &Interner, old: &[Id], new: &[Id], rect: Rect) -> Rect
    requires old { AreHeld interner.now (ids_keys old.now) }
    requires new { AreHeld interner.now (ids_keys new.now) }
    ensures { result ≡ dirt (entries_under interner.now (ids_keys old.now)) (entries_under interner.now (ids_keys new.now)) rect }
{
    entry_order_laws();
    know_interner(interner);
    let prefix = common_prefix(old, new);
    let old = &old[prefix..];
    let new = &new[prefix..];
    let suffix = common_suffix(old, new);
    let old = &old[..old.len() - suffix];
    let new = &new[..new.len() - suffix];
    dirty_between(interner, old, new, rect)
}
