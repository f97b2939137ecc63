//! Entries under ids, each counted as often as it is held.

ghost use Rattle.std.specs.Prelude.{◌≡◌, ◌≢◌, ◌∷◌, [], ℕ, Some, None, IfSome, IfNone, IfOk, OnErr};
ghost use Rattle.std.specs.Option.{option_copied};
ghost use Rattle.std.specs.FinMap as map;
ghost use Rattle.primitives.specs.Facts.{IsEntry};
ghost use Rattle.tile_records.specs.Interning.{IsInterning, entry_at, count_at};
ghost use Rattle.tile_records.specs.Counts.{recounted, raised, lowered, swept, IsAcquired, IsReleased, Moves};
ghost use Rattle.tile_records.specs.Making.{IsFound};

use crate::Id;
use crate::keys::Keys;
use crate::slots::{Held, Slots};
use primitives::{Entry, entry_order_laws, know_entry};
use std::alloc::Global;
use std::marker::Model;
use wr_geom::NoMemory;

/// An entry's id, and whether it was held before.
#[derive(Clone, Copy, Debug)]
pub(crate) enum Found {
    Old(Id),
    New(Id),
}

/// Entries under ids, each once, with a count of how often it is held.
///
/// An entry whose count stands at the last value of 64 bits stays at that count, and is never given up.
#[derive(Drop)]
pub struct Interner {
    keys: Keys,
    slots: Slots,
    alloc: Global,
}

impl Model for Interner {
    ghost use Rattle.tile_records.specs.Interning.{Interning, interning_code};
    ghost use Rattle.tile_records.specs.Keys.{IsTied};

    ghost Value = { Interning };

    ghost coded = { interning_code };

    ghost view = { λ a. a.slots };

    ghost invariant = { λ a. IsTied a.keys a.slots };
}

impl Interner {
    /// Without an entry. It takes no memory.
    pub fn new(alloc: Global) -> Interner
        ensures { result ≡ map.empty }
    {
        Interner {
            keys: Keys::new(alloc),
            slots: Slots::new(alloc),
            alloc,
        }
    }

    /// Where it takes its memory.
    pub(crate) fn alloc(&self) -> Global {
        self.alloc
    }

    /// The entry of an id, or none where the id isn't held. It takes no memory.
    pub fn get(&self, id: Id) -> Option<&Entry>
        ensures { option_copied result ≡ entry_at self.now id.key }
    {
        match self.slots.get(id.key) {
            Some(held) => Some(&held.entry),
            None => None,
        }
    }

    /// How often an id is held, and 0 where it isn't. It takes no memory.
    pub fn count(&self, id: Id) -> u64
        ensures { result ≡ count_at self.now id.key }
    {
        match self.slots.get(id.key) {
            Some(held) => held.count,
            None => 0,
        }
    }

    /// The id of an entry, if it is held.
    fn find(&self, entry: &Entry) -> Option<Id>
        ensures found { IfSome result (λ id. entry_at self.now id.key ≡ Some entry.now) }
        ensures absent { IfNone result ((k : ℕ) → entry_at self.now k ≢ Some entry.now) }
    {
        match self.keys.get(entry) {
            Some(key) => Some(Id { key }),
            None => None,
        }
    }

    /// A new id of an entry, which is held no times so far. Its twin is kept to look it up.
    fn add(&mut self, entry: Entry, twin: Entry) -> Result<Id, NoMemory>
        requires twins { twin ≡ entry }
        requires entry { IsEntry entry }
        requires absent { (k : ℕ) → entry_at self.old k ≢ Some entry }
        ensures fresh { IfOk result (λ id. map.get self.old id.key ≡ None) }
        ensures ok { IfOk result (λ id. self.new ≡ map.insert self.old id.key (record { entry = entry; count = 0 })) }
        ensures err { OnErr result (self.new ≡ self.old) }
    {
        entry_order_laws();
        let key = self.slots.add(Held { entry, count: 0 })?;
        match self.keys.insert(twin, key) {
            Ok(()) => Ok(Id { key }),
            Err(error) => {
                let _ = self.slots.remove(key);
                Err(error)
            }
        }
    }

    /// The id of an entry, which is held no times if it is new. Where memory runs out, nothing has changed.
    pub(crate) fn find_or_add(&mut self, entry: &Entry) -> Result<Found, NoMemory>
        ensures ok { IfOk result (λ found. IsFound self.old self.new found entry.now) }
        ensures err { OnErr result (self.new ≡ self.old) }
    {
        if let Some(id) = self.find(entry) {
            return Ok(Found::Old(id));
        }
        know_entry(entry);
        let kept = entry.copy()?;
        let twin = entry.copy()?;
        Ok(Found::New(self.add(kept, twin)?))
    }

    /// Another count for an id.
    fn recount(&mut self, id: Id, count: u64)
        ensures { self.new ≡ recounted self.old id.key count }
    {
        self.slots.recount(id.key, count);
    }

    /// Gives an id up.
    pub(crate) fn forget(&mut self, id: Id)
        ensures { self.new ≡ map.remove self.old id.key }
    {
        entry_order_laws();
        if let Some(held) = self.slots.remove(id.key) {
            self.keys.remove(&held.entry);
        }
    }

    /// Holds an id once more.
    pub(crate) fn raise(&mut self, id: Id)
        ensures { self.new ≡ raised self.old id.key }
    {
        let count = self.count(id);
        self.recount(id, count.saturating_add(1));
    }

    /// Gives up an id that is held no times.
    pub(crate) fn sweep(&mut self, id: Id)
        ensures { self.new ≡ swept self.old id.key }
    {
        if self.count(id) == 0 {
            self.forget(id);
        }
    }

    /// Holds an id once less.
    pub(crate) fn lower(&mut self, id: Id)
        ensures { self.new ≡ lowered self.old id.key }
    {
        let count = self.count(id);
        if count == u64::MAX {
            return;
        }
        if count > 1 {
            self.recount(id, count - 1);
        } else {
            self.forget(id);
        }
    }

    /// Holds an entry once more: the first time it gets a new id. Where memory runs out, nothing has changed.
    pub fn acquire(&mut self, entry: &Entry) -> Result<Id, NoMemory>
        ensures entry { IfOk result (λ id. entry_at self.new id.key ≡ Some entry.now) }
        ensures counts { IfOk result (λ id. IsAcquired self.old self.new (id.key ∷ [])) }
        ensures moves { IfOk result (λ id. Moves self.old self.new [] (id.key ∷ [])) }
        ensures err { OnErr result (self.new ≡ self.old) }
    {
        match self.find_or_add(entry)? {
            Found::Old(id) => {
                self.raise(id);
                Ok(id)
            }
            Found::New(id) => {
                self.raise(id);
                Ok(id)
            }
        }
    }

    /// Holds an id once less, and gives its entry up with the last time. An id that isn't held changes nothing. It takes
    /// no memory.
    pub fn release(&mut self, id: Id)
        ensures counts { IsReleased self.old self.new (id.key ∷ []) }
        ensures moves { Moves self.old self.new (id.key ∷ []) [] }
    {
        self.lower(id);
    }
}

/// What the type of an interner keeps: equal ids are those of equal entries. It does nothing.
pub fn know_interner(interner: &Interner)
    ensures { IsInterning interner.now }
{
    let _ = &interner.alloc;
}
