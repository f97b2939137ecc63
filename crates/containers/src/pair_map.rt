//! Values by two numbers.

ghost use Rattle.std.specs.Prelude.{◌≡◌, ◌↔◌, ℕ, IsTrue, OnOk, OnErr};
ghost use Rattle.std.specs.Option.{option_copied, option_copied_mut};
ghost use Rattle.containers.specs.PairOrder.{pair_cmp};
ghost use Rattle.std.specs.Borrow.{sem};
ghost use Rattle.std.specs.FinMap as map;
ghost use Rattle.std.specs.Map.Iter.{ShowsInOrder, deref_pair};

use crate::Exact;
use std::alloc::{AllocError, Global};
use std::collections::BTreeMap;
use std::collections::btree_map::Iter;
use std::marker::Model;

/// Values by two numbers: a finite map. It takes memory for what it holds alone.
#[derive(Drop)]
pub struct PairMap<V> {
    tree: BTreeMap<(u32, u32), V>,
}

impl<V> Model for PairMap<V> {
    ghost use Rattle.containers.specs.PairOrder.{pair_cmp};
    ghost use Rattle.std.specs.FinMap as map;
    ghost use Rattle.std.specs.Coded.{coded_ℕ, coded×};

    ghost Value = { map.FinMap pair_cmp V };

    ghost coded = { map.code (coded× coded_ℕ coded_ℕ) V.code };

    ghost view = { λ a. map.from_entries a.tree.entries };
}

impl<V> PairMap<V> {
    /// Without a value. It takes no memory.
    pub fn new(alloc: Global) -> PairMap<V>
        ensures { result ≡ map.empty }
    {
        PairMap {
            tree: BTreeMap::new(alloc),
        }
    }

    /// The value at two numbers, or none where none stands.
    pub fn get(&self, key: (u32, u32)) -> Option<&V>
        ensures { option_copied result ≡ map.get self.now key }
    {
        self.tree.get(&key)
    }

    /// Whether a value stands at two numbers.
    pub fn contains(&self, key: (u32, u32)) -> bool
        ensures { result ≡ map.contains_key self.now key }
    {
        self.tree.contains_key(&key)
    }

    /// The number of values.
    pub fn len(&self) -> usize
        ensures { result ≡ map.len self.now }
    {
        self.tree.len()
    }

    /// Whether no value stands in it.
    pub fn is_empty(&self) -> bool
        ensures { IsTrue result ↔ (self.now ≡ map.empty) }
    {
        self.tree.is_empty()
    }

    /// The pairs of numbers with their values, in rising order of the first numbers, then of the second ones.
    pub fn iter(&self) -> Iter<'_, (u32, u32), V>
        ensures entries { result ≡ map.entries self.now }
        ensures runs { ShowsInOrder (deref_pair {K = ℕ × ℕ} {X = V}) }
    {
        self.tree.iter()
    }
}

impl<V: Drop> PairMap<V> {
    /// Puts a value at two numbers, in the place of what stood there.
    pub fn insert(&mut self, key: (u32, u32), value: V) -> Result<(), AllocError>
        ensures ok { OnOk result (self.new ≡ map.insert self.old key value) }
        ensures err { OnErr result (self.new ≡ self.old) }
    {
        self.tree.insert(key, value)?;
        Ok(())
    }

    /// Takes out the value at two numbers.
    pub fn remove(&mut self, key: (u32, u32)) -> Option<V>
        ensures taken { result ≡ map.get self.old key }
        ensures removed { self.new ≡ map.remove self.old key }
    {
        self.tree.remove(&key)
    }

    /// Drops all values.
    pub fn clear(&mut self)
        ensures { self.new ≡ map.empty }
    {
        self.tree.clear();
    }
}

impl<V: Drop> PairMap<V> {
    ghost use Rattle.containers.specs.LentPairEntry.{LendsEntry};

    /// The value at two numbers, to write to.
    pub fn get_mut(&mut self, key: (u32, u32)) -> Option<&mut V>
        ensures* writes_back { sem 𝓛 (LendsEntry V.row self.entry key result) }
        ensures value { option_copied_mut result ≡ map.get self.old key }
    {
        self.tree.get_mut(&key)
    }
}

impl<V: Exact> Clone for PairMap<V> {
    ghost use Rattle.std.specs.Prelude.{◌≡◌};

    ghost is_clone = { λ m n. n ≡ m };

    fn clone(&self) -> Result<PairMap<V>, AllocError> {
        let tree = self.tree.clone()?;
        Ok(PairMap { tree })
    }
}

impl<V: Exact> Exact for PairMap<V> {
    ghost exact = { λ x y e. e };
}
