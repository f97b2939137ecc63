//! Kept tiles with what showing them needs.

ghost use Rattle.std.specs.Prelude.{◌≡◌, IfOk};

use crate::fits::{can_all_be_shown, have_room};
use blend_rules::Px;
use image_store::{Gens, Store, StoreError};
use kept_tiles::KeptTiles;
use picture_slices::Slice;
use std::alloc::Global;
use std::marker::Model;
use tile_grid::TileSides;
use tile_raster::Scratch;
use wr_geom::NoMemory;

/// Tiles of 64 by 64 pixels.
pub const SIDES: TileSides = TileSides {
    width: 64,
    height: 64,
};

/// Tiles that were shown, with the images that they use.
#[derive(Drop)]
pub struct Bench {
    kept: KeptTiles,
    scratch: Scratch,
    store: Store,
    gens: Gens,
    alloc: Global,
}

impl Model for Bench {
    ghost use Rattle.std.specs.Prelude.{◌≤◌};
    ghost use Rattle.kept_tiles.specs.KeptCode.{kept_code};
    ghost use Rattle.kept_tiles.specs.Steps.{ArePlaced};
    ghost use Rattle.kept_tiles.specs.Tiles.{KeptModel, kept_of};
    ghost use Rattle.kept_tiles_tests.specs.Sides.{sides};

    ghost Value = { KeptModel };

    ghost coded = { kept_code };

    ghost view = { λ b. b.kept };

    ghost invariant = { λ b. ArePlaced sides (kept_of b.kept) × (64 ≤ b.scratch.width) };
}

impl Bench {
    /// Without a tile and without an image.
    pub fn new(alloc: Global) -> Result<Bench, NoMemory> {
        Ok(Bench {
            kept: KeptTiles::new(alloc)?,
            scratch: Scratch::new(alloc, 64)?,
            store: Store::new(alloc),
            gens: Gens::new(),
            alloc,
        })
    }

    /// The tiles that are kept.
    pub fn kept(&self) -> &KeptTiles {
        &self.kept
    }

    /// What is stored.
    pub fn store(&self) -> &Store {
        &self.store
    }

    /// The allocator.
    pub fn alloc(&self) -> Global {
        self.alloc
    }

    /// Stores an image of two by two texels at key 8 of pipeline 1, two of them of this colour.
    pub fn store_image(&mut self, colour: Px) -> Result<(), StoreError> {
        let Px { b, g, r, a } = colour;
        let texels = [b, g, r, a, 9, 0, 0, 255, b, g, r, a, 0, 99, 0, 255];
        self.store.add_image(&mut self.gens, 1, 8, 2, 2, &texels)
    }

    /// The generation of that image, if it is stored.
    pub fn generation(&self) -> Option<u64> {
        let image = self.store.image(1, 8)?;
        Some(image.generation())
    }

    /// Shows slices, and answers how many pixels were drawn; None where they can't be shown.
    pub fn show(&mut self, slices: &[Slice]) -> Result<Option<u64>, NoMemory> {
        if !can_all_be_shown(slices, &self.store) {
            return Ok(None);
        }
        if !have_room(&self.kept, slices, SIDES) {
            return Ok(None);
        }
        let drawn = self
            .kept
            .show_slices(slices, SIDES, &self.store, &mut self.scratch)?;
        Ok(Some(drawn))
    }

    /// Keeps at most so many of the most recent tiles.
    pub fn trim(&mut self, budget: u32) {
        self.kept.trim(budget);
    }
}

/// What a check answers on new kept tiles.
pub fn on_a_bench<F: FnOnce(&mut Bench) -> Result<bool, NoMemory>>(
    alloc: Global,
    check: F,
) -> Result<bool, NoMemory>
    requires { F.IsAlwaysCallable check }
{
    let mut bench = Bench::new(alloc)?;
    check(&mut bench)
}
