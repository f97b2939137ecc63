//! The key of each entry.

ghost use Rattle.std.specs.Prelude.{◌≡◌, OnOk, OnErr};
ghost use Rattle.std.specs.FinMap as map;

use primitives::{Entry, entry_order_laws};
use std::alloc::Global;
use std::collections::BTreeMap;
use std::marker::Model;
use wr_geom::NoMemory;

/// The key of each entry that has one.
#[derive(Drop)]
pub(crate) struct Keys {
    tree: BTreeMap<Entry, usize>,
}

impl Model for Keys {
    ghost use Rattle.tile_records.specs.Keys.{KeyMap, key_map_code};
    ghost use Rattle.std.specs.FinMap as map;

    ghost Value = { KeyMap };

    ghost coded = { key_map_code };

    ghost view = { λ a. map.from_entries a.tree.entries };
}

impl Keys {
    /// Without an entry. It takes no memory.
    pub(crate) fn new(alloc: Global) -> Keys
        ensures { result ≡ map.empty }
    {
        Keys {
            tree: BTreeMap::new(alloc),
        }
    }

    /// The key of an entry.
    pub(crate) fn get(&self, entry: &Entry) -> Option<usize>
        ensures { result ≡ map.get self.now entry.now }
    {
        match self.tree.get(entry) {
            Some(key) => Some(*key),
            None => None,
        }
    }

    /// An entry's key, in the place of what it had.
    pub(crate) fn insert(&mut self, entry: Entry, key: usize) -> Result<(), NoMemory>
        ensures ok { OnOk result (self.new ≡ map.insert self.old entry key) }
        ensures err { OnErr result (self.new ≡ self.old) }
    {
        entry_order_laws();
        self.tree.insert(entry, key)?;
        Ok(())
    }

    /// Takes an entry's key.
    pub(crate) fn remove(&mut self, entry: &Entry)
        ensures { self.new ≡ map.remove self.old entry.now }
    {
        entry_order_laws();
        let _ = self.tree.remove(entry);
    }
}
