//! Whether slices can be shown.

ghost use Rattle.std.specs.Prelude.{◌≡◌, ◌≤◌, ◌+◌, ◌<◌, ◌^◌, Some, IsTrue, IfSome, All, length, option_map};
ghost use Rattle.image_store.specs.StoreModel.{image_at};
ghost use Rattle.primitives.specs.Facts.{IsEntry};
ghost use Rattle.primitives.specs.Stacks.{balanced, is_shallow};
ghost use Rattle.tile_grid.specs.Grids.{IsViewPart, IsWithinReach};
ghost use Rattle.tile_grid.specs.Tiles.{AreTileSides};
ghost use Rattle.tile_records.specs.Right.{IsCurrentKind};
ghost use Rattle.tile_store.specs.declared.limits.TheConstants.{MAX_TILES};
ghost use Rattle.kept_tiles.specs.Sound.{IsCurrent};
ghost use Rattle.kept_tiles.specs.Steps.{CanBeShown};
ghost use Rattle.kept_tiles.specs.Work.{frame_tiles, slice_tiles};

use image_store::Store;
use kept_tiles::KeptTiles;
use picture_slices::Slice;
use primitives::{Entry, Kind};
use tile_grid::{TileGrid, TileSides};
use tile_records::is_balanced;
use wr_geom::{Point, Rect};

/// How many entries a slice of a test has at most, so that no more than 64 groups can be open.
const MAX_ENTRIES: usize = 64;

/// Whether a part lies in a view of at most 4,096 pixels a side.
pub fn is_view_part(part: Rect) -> bool
    ensures { IsTrue result → IsViewPart part }
{
    if part.x0() < 0 || part.y0() < 0 {
        return false;
    }
    if part.x1() > 4096 || part.y1() > 4096 {
        return false;
    }
    true
}

/// Whether an origin lies within 1,000 pixels of (0, 0).
pub fn is_within_reach(origin: Point) -> bool
    ensures { IsTrue result → IsWithinReach origin }
{
    if origin.x < -1000 || origin.x > 1000 {
        return false;
    }
    if origin.y < -1000 || origin.y > 1000 {
        return false;
    }
    true
}

/// Whether a store has an image of this generation at a key.
fn is_stored(store: &Store, pipeline: u8, key: u32, generation: u64) -> bool
    ensures { IsTrue result → option_map (λ i. i.generation) (image_at store.now pipeline key) ≡ Some generation }
{
    match store.image(pipeline, key) {
        Some(image) => image.generation() == generation,
        None => false,
    }
}

/// Whether what a kind uses is stored now. It has no text.
fn is_current(kind: &Kind, store: &Store) -> bool
    ensures { IsTrue result → IsCurrentKind store.now kind.now }
{
    match kind {
        Kind::Solid(_) => true,
        Kind::Border { .. } => true,
        Kind::Image {
            pipeline,
            key,
            generation,
            ..
        } => match *generation {
            None => true,
            Some(generation) => is_stored(store, *pipeline, *key, generation),
        },
        Kind::Text { .. } => false,
    }
}

/// An opacity is a byte.
fn know_byte(opacity: u8)
    ensures { opacity < 2 ^ 8 }
{}

/// Whether what an entry uses is stored now.
fn is_entry_current(entry: &Entry, store: &Store) -> bool
    ensures good { IsTrue result → IsEntry entry.now }
    ensures current { IsTrue result → IsCurrent store.now entry.now }
{
    match entry {
        Entry::Primitive(primitive) => is_current(primitive.kind(), store),
        Entry::Push { opacity, .. } => {
            know_byte(*opacity);
            true
        }
        Entry::Pop => true,
    }
}

/// Whether what each of some entries uses is stored now.
fn are_current(entries: &[Entry], store: &Store) -> bool
    ensures good { IsTrue result → All IsEntry entries.now }
    ensures current { IsTrue result → All (IsCurrent store.now) entries.now }
{
    for entry in entries {
        if !is_entry_current(entry, store) {
            return false;
        }
    }
    true
}

/// Whether there are at most 64 entries, and each group ends.
pub fn can_draw(entries: &[Entry]) -> bool
    ensures few { IsTrue result → length entries.now < 2 ^ 32 }
    ensures balanced { IsTrue result → IsTrue (balanced 0 entries.now) }
    ensures shallow { IsTrue result → IsTrue (is_shallow 64 entries.now) }
{
    if entries.len() > MAX_ENTRIES {
        return false;
    }
    is_balanced(entries)
}

/// Whether a slice can be shown.
fn can_be_shown(slice: &Slice, store: &Store) -> bool
    ensures { IsTrue result → CanBeShown store.now slice.now }
{
    if !is_view_part(slice.shown) || !is_within_reach(slice.origin) {
        return false;
    }
    if !can_draw(slice.entries.as_slice()) {
        return false;
    }
    are_current(slice.entries.as_slice(), store)
}

/// Whether each of some slices can be shown.
pub fn can_all_be_shown(slices: &[Slice], store: &Store) -> bool
    ensures { IsTrue result → All (CanBeShown store.now) slices.now }
{
    for slice in slices {
        if !can_be_shown(slice, store) {
            return false;
        }
    }
    true
}

/// How many visible tiles a slice has; None where it can't be shown.
fn count_tiles(slice: &Slice, sides: TileSides) -> Option<usize>
    requires sides { AreTileSides sides }
    ensures { IfSome result (λ count. count ≡ length (slice_tiles sides slice.now)) }
{
    if !is_view_part(slice.shown) || !is_within_reach(slice.origin) {
        return None;
    }
    Some(TileGrid::visible(sides, slice.shown, slice.origin).count())
}

/// Whether the visible tiles of slices can be kept beside those that are.
pub fn have_room(kept: &KeptTiles, slices: &[Slice], sides: TileSides) -> bool
    requires sides { AreTileSides sides }
    ensures { IsTrue result → length kept.now.store.tiles + length (frame_tiles sides slices.now) ≤ MAX_TILES }
{
    let mut count = kept.tiles().len() as usize;
    for slice in slices {
        let Some(more) = count_tiles(slice, sides) else {
            return false;
        };
        if more > 10_000 || count > 100_000 {
            return false;
        }
        count += more;
    }
    count <= 100_000
}
