//! Lists of entries: a slice of them, or those that ids stand for.

ghost use Rattle.std.specs.Prelude.{◌≡◌, ◌<◌, length, get_or, All};
ghost use Rattle.primitives.specs.Facts.{IsEntry};
ghost use Rattle.primitives.specs.declared.entry.Entry.{Entry as EntryModel};
ghost use Rattle.tile_records.specs.declared.id.Id.{Id as IdModel};
ghost use Rattle.tile_raster.specs.Lists.{entries_of, IsEntryList};

use primitives::{Entry, know_entry};
use tile_records::{Id, Interner, know_interner};

/// Entries in order.
#[derive(Clone, Copy)]
pub(crate) enum EntryList<'a> {
    All(&'a [Entry]),
    /// Those that an interner holds under these ids.
    Held {
        interner: &'a Interner,
        ids: &'a [Id],
    },
}

impl<'a> EntryList<'a> {
    /// How many there are.
    pub(crate) fn len(self) -> usize
        requires { IsEntryList self }
        ensures { result ≡ length (entries_of self.entry) }
    {
        match self {
            EntryList::All(entries) => entries.len(),
            EntryList::Held { ids, .. } => ids.len(),
        }
    }

    /// The entry at an index.
    pub(crate) fn at(self, i: usize) -> &'a Entry
        requires list { IsEntryList self }
        requires inside { i < length (entries_of self) }
        ensures { (other : EntryModel) → result.now ≡ get_or (entries_of self.entry) i other }
    {
        match self {
            EntryList::All(entries) => &entries[i],
            EntryList::Held { interner, ids } => interner.get(id_at(ids, i)).unwrap(),
        }
    }

    /// What the types of its entries keep. It does nothing.
    pub(crate) fn know_entries(self)
        requires { IsEntryList self }
        ensures { All IsEntry (entries_of self.entry) }
    {
        match self {
            EntryList::All(entries) => know_each(entries),
            EntryList::Held { interner, .. } => know_interner(interner),
        }
    }
}

/// The id at an index.
fn id_at(ids: &[Id], i: usize) -> Id
    requires { i < length ids.now }
    ensures { (other : IdModel) → result ≡ get_or ids.now i other }
{
    ids[i]
}

/// What the types of entries keep. It does nothing.
fn know_each(entries: &[Entry])
    ensures { All IsEntry entries.now }
{
    for entry in entries {
        know_entry(entry);
    }
}
