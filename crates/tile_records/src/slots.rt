//! Entries under keys, with their counts.

ghost use Rattle.std.specs.Prelude.{◌≡◌, None, OnErr, IfOk};
ghost use Rattle.std.specs.Option.{option_copied};
ghost use Rattle.std.specs.FinMap as map;
ghost use Rattle.tile_records.specs.Counts.{recounted};

use primitives::Entry;
use slab::Slab;
use std::alloc::Global;
use std::marker::Model;
use wr_geom::NoMemory;

/// An entry, and how often it is held.
#[derive(Drop)]
pub(crate) struct Held {
    pub(crate) entry: Entry,
    pub(crate) count: u64,
}

/// What is held under each key.
#[derive(Drop)]
pub(crate) struct Slots {
    slab: Slab<Held>,
}

impl Model for Slots {
    ghost use Rattle.std.specs.FinMap as map;
    ghost use Rattle.tile_records.specs.Interning.{Interning, interning_code};
    ghost use Rattle.slab.specs.Slab.{entries};

    ghost Value = { Interning };

    ghost coded = { interning_code };

    ghost view = { λ a. map.from_entries (entries a.slab) };
}

impl Slots {
    /// Without an entry. It takes no memory.
    pub(crate) fn new(alloc: Global) -> Slots
        ensures { result ≡ map.empty }
    {
        Slots {
            slab: Slab::new(alloc),
        }
    }

    /// What a key has.
    pub(crate) fn get(&self, key: usize) -> Option<&Held>
        ensures { option_copied result ≡ map.get self.now key }
    {
        self.slab.get(key)
    }

    /// A new key for what is held.
    pub(crate) fn add(&mut self, held: Held) -> Result<usize, NoMemory>
        ensures fresh { IfOk result (λ key. map.get self.old key ≡ None) }
        ensures ok { IfOk result (λ key. self.new ≡ map.insert self.old key held) }
        ensures err { OnErr result (self.new ≡ self.old) }
    {
        Ok(self.slab.insert(held)?)
    }

    /// Another count for what a key has.
    pub(crate) fn recount(&mut self, key: usize, count: u64)
        ensures { self.new ≡ recounted self.old key count }
    {
        if let Some(held) = self.slab.get_mut(key) {
            held.count = count;
        }
    }

    /// Takes what a key has.
    pub(crate) fn remove(&mut self, key: usize) -> Option<Held>
        ensures taken { result ≡ map.get self.old key }
        ensures removed { self.new ≡ map.remove self.old key }
    {
        self.slab.try_remove(key)
    }
}
