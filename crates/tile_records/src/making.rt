//! Records made of entries: each entry is interned once, for all tiles that it meets.

ghost use Rattle.std.specs.Prelude.{◌≡◌, ◌∷◌, [], ◌<◌, ℕ, length, get_or, IfOk, OnOk, OnErr, IsTrue};
ghost use Rattle.primitives.specs.Stacks.{balanced};
ghost use Rattle.tile_grid.specs.Grids.{count_of, tile_at};
ghost use Rattle.tile_records.specs.Interning.{Interning, AreHeld, entries_under, ids_keys, record_keys};
ghost use Rattle.tile_records.specs.Counts.{raised_all, raised_records, swept_all, removed_all, IsAcquired, Moves};
ghost use Rattle.tile_records.specs.Making.{IsGrown, NotesFound, ForgetsFound, InternsNext, AreInterned, AreRecordsOf};
ghost use Rattle.tile_records.specs.Passing.{joined, keys_of_records};
ghost use Rattle.tile_records.specs.Picks.{picked};

use crate::interner::Found;
use crate::pass::picked_by_tile;
use crate::tiles::Tiles;
use crate::{Id, Interner, TileRecord};
use primitives::Entry;
use tile_grid::TileGrid;
use wr_geom::{NoMemory, Rect};

/// Notes an id that is new, or forgets it where there is no room for the note.
fn note_new(interner: &mut Interner, found: Found, added: &mut Vec<Id>) -> Result<Id, NoMemory>
    ensures ok { IfOk result (λ id. NotesFound interner.old interner.new found added.old.items added.new.items id) }
    ensures err { OnErr result (ForgetsFound interner.old interner.new found added.old.items added.new.items) }
{
    match found {
        Found::Old(id) => Ok(id),
        Found::New(id) => {
            if added.push(id).is_err() {
                interner.forget(id);
                return Err(NoMemory);
            }
            Ok(id)
        }
    }
}

/// The id of one entry more.
fn intern_next(
    interner: &mut Interner,
    entry: &Entry,
    ids: &mut Vec<Id>,
    added: &mut Vec<Id>,
) -> Result<(), NoMemory>
    ensures ok { OnOk result (InternsNext interner.old interner.new ids.old.items ids.new.items entry.now) }
    ensures grown { (base : Interning) → IsGrown base interner.old (ids_keys added.old.items) → IsGrown base interner.new (ids_keys added.new.items) }
{
    let found = interner.find_or_add(entry)?;
    let id = note_new(interner, found, added)?;
    ids.push(id)?;
    Ok(())
}

/// The ids of entries, each of which is looked up once. Those that are new are noted, and held no times.
fn intern_all(
    interner: &mut Interner,
    entries: &[Entry],
    ids: &mut Vec<Id>,
    added: &mut Vec<Id>,
) -> Result<(), NoMemory>
    requires ids { ids.old.items ≡ [] }
    requires added { added.old.items ≡ [] }
    ensures ok { OnOk result (AreInterned interner.new (ids_keys ids.new.items) entries.now) }
    ensures grown { IsGrown interner.old interner.new (ids_keys added.new.items) }
{
    for entry in entries {
        intern_next(interner, entry, ids, added)?;
    }
    Ok(())
}

/// Gives ids up.
fn forget_all(interner: &mut Interner, ids: &[Id])
    ensures { interner.new ≡ removed_all interner.old (ids_keys ids.now) }
{
    for id in ids {
        interner.forget(*id);
    }
}

/// Gives up those ids that are held no times.
fn sweep_all(interner: &mut Interner, ids: &[Id])
    ensures { interner.new ≡ swept_all interner.old (ids_keys ids.now) }
{
    for id in ids {
        interner.sweep(*id);
    }
}

/// Holds each id once more.
fn raise_each(interner: &mut Interner, ids: &[Id])
    ensures { interner.new ≡ raised_all interner.old (ids_keys ids.now) }
{
    for id in ids {
        interner.raise(*id);
    }
}

/// Holds each id once more for each time that a record names it.
fn raise_all(interner: &mut Interner, records: &[TileRecord])
    ensures { interner.new ≡ raised_records interner.old (keys_of_records records.now) }
{
    for record in records {
        raise_each(interner, record.ids.as_slice());
    }
}

/// Records whose ids aren't held for them yet.
fn fill(
    interner: &mut Interner,
    entries: &[Entry],
    tiles: &Tiles,
    added: &mut Vec<Id>,
) -> Result<Vec<TileRecord>, NoMemory>
    requires balanced { IsTrue (balanced 0 entries.now) }
    requires added { added.old.items ≡ [] }
    ensures ok { IfOk result (λ rs. AreRecordsOf interner.new tiles.now (keys_of_records rs.items) entries.now) }
    ensures grown { IsGrown interner.old interner.new (ids_keys added.new.items) }
{
    let alloc = interner.alloc();
    let mut ids = Vec::new(alloc);
    intern_all(interner, entries, &mut ids, added)?;
    Ok(picked_by_tile(alloc, entries, ids.as_slice(), tiles)?)
}

/// The records of some tiles, and the interner as it was where memory runs out.
fn make(
    interner: &mut Interner,
    entries: &[Entry],
    tiles: &Tiles,
) -> Result<Vec<TileRecord>, NoMemory>
    requires { IsTrue (balanced 0 entries.now) }
    ensures ok { IfOk result (λ rs. AreRecordsOf interner.new tiles.now (keys_of_records rs.items) entries.now) }
    ensures counts { IfOk result (λ rs. IsAcquired interner.old interner.new (joined (keys_of_records rs.items))) }
    ensures err { OnErr result (interner.new ≡ interner.old) }
{
    let mut added = Vec::new(interner.alloc());
    match fill(interner, entries, tiles, &mut added) {
        Ok(records) => {
            raise_all(interner, records.as_slice());
            sweep_all(interner, added.as_slice());
            Ok(records)
        }
        Err(error) => {
            forget_all(interner, added.as_slice());
            Err(error)
        }
    }
}

/// The record of the tile with this rectangle, each of whose ids is then held as often as the record names it.
///
/// It has the primitives whose visible rectangles meet the tile, and the groups in which one is left, in their order. The
/// entries must be primitives and whole groups. Where memory runs out, the interner is as it was.
pub fn make_record(
    interner: &mut Interner,
    entries: &[Entry],
    rect: Rect,
) -> Result<TileRecord, NoMemory>
    requires { IsTrue (balanced 0 entries.now) }
    ensures entries { IfOk result (λ r. entries_under interner.new (record_keys r) ≡ picked rect entries.now) }
    ensures held { IfOk result (λ r. AreHeld interner.new (record_keys r)) }
    ensures counts { IfOk result (λ r. IsAcquired interner.old interner.new (record_keys r)) }
    ensures moves { IfOk result (λ r. Moves interner.old interner.new [] (record_keys r)) }
    ensures err { OnErr result (interner.new ≡ interner.old) }
{
    let mut records = make(interner, entries, &Tiles::One(rect))?;
    Ok(records.pop().unwrap())
}

/// The records of all tiles of a grid, in the grid's order, as `make_record` gives them.
///
/// The entries are gone over once, and each is looked up once: the time grows with the entries, with the tiles and with the
/// ids in all records. The entries must be primitives and whole groups. Where memory runs out, the interner is as it was.
pub fn make_records(
    interner: &mut Interner,
    entries: &[Entry],
    grid: TileGrid,
) -> Result<Vec<TileRecord>, NoMemory>
    requires { IsTrue (balanced 0 entries.now) }
    ensures count { IfOk result (λ rs. length (keys_of_records rs.items) ≡ count_of grid) }
    ensures entries { IfOk result (λ rs. (i : ℕ) → i < count_of grid
        → entries_under interner.new (get_or (keys_of_records rs.items) i []) ≡ picked (tile_at grid i).rect entries.now) }
    ensures held { IfOk result (λ rs. AreHeld interner.new (joined (keys_of_records rs.items))) }
    ensures counts { IfOk result (λ rs. IsAcquired interner.old interner.new (joined (keys_of_records rs.items))) }
    ensures moves { IfOk result (λ rs. Moves interner.old interner.new [] (joined (keys_of_records rs.items))) }
    ensures err { OnErr result (interner.new ≡ interner.old) }
{
    let records = make(interner, entries, &Tiles::Grid(grid))?;
    Ok(records)
}
