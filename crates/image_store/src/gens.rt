//! The counter of generations.

ghost use Rattle.std.specs.Prelude.{◌≡◌};
ghost use Rattle.image_store.specs.Generations.{generation_after};

use std::marker::Model;

/// The counter of generations: the last one that was given.
#[derive(Drop)]
pub struct Gens {
    last: u64,
}

impl Model for Gens {
    ghost use Rattle.std.specs.Prelude.{ℕ};

    ghost Value = { ℕ };

    ghost view = { λ g. g.last };
}

impl Gens {
    /// Before the first generation. It takes no memory.
    pub fn new() -> Gens
        ensures { result ≡ 0 }
    {
        Gens { last: 0 }
    }

    /// Where this generation is the last that was given. It takes no memory.
    pub fn at(last: u64) -> Gens
        ensures { result ≡ last }
    {
        Gens { last }
    }

    /// The last generation that was given, 0 where none was. It takes no memory.
    pub fn last(&self) -> u64
        ensures { result ≡ self.now }
    {
        self.last
    }

    /// The next generation, if there is one.
    pub(crate) fn next(&self) -> Option<u64>
        ensures { result ≡ generation_after self.now }
    {
        if self.last == u64::MAX {
            return None;
        }
        Some(self.last + 1)
    }

    /// Gives a generation.
    pub(crate) fn give(&mut self, generation: u64)
        ensures { self.new ≡ generation }
    {
        self.last = generation;
    }
}
