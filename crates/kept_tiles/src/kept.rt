//! Kept tiles: a store of tiles, and the entries that their records name.

ghost use Rattle.std.specs.Prelude.{◌≡◌, ◌≤◌, ◌+◌, [], OnOk, IfOk, All, AllPairs, length, take};
ghost use Rattle.std.specs.FinMap as map;
ghost use Rattle.tile_grid.specs.Tiles.{AreTileSides};
ghost use Rattle.tile_store.specs.declared.limits.TheConstants.{MAX_TILES};
ghost use Rattle.kept_tiles.specs.Tiles.{kept_of};
ghost use Rattle.kept_tiles.specs.Work.{IsWorkDone, frame_tiles, work_on};
ghost use Rattle.kept_tiles.specs.Progress.{IsWithin, KeepsSound};
ghost use Rattle.kept_tiles.specs.Steps.{ArePlaced, CanBeShown};

use crate::slice::show_slice;
use image_store::Store;
use picture_slices::Slice;
use std::alloc::Global;
use std::marker::Model;
use tile_grid::TileSides;
use tile_raster::Scratch;
use tile_records::{Interner, TileRecord, give_up};
use tile_store::TileStore;
use wr_geom::NoMemory;

/// Tiles kept between frames, each with a record of the entries from which it was drawn.
///
/// Each entry that a record names is held by the interner, as often as records name it.
#[derive(Drop)]
pub struct KeptTiles {
    interner: Interner,
    tiles: TileStore<TileRecord>,
    alloc: Global,
}

impl Model for KeptTiles {
    ghost use Rattle.std.specs.Prelude.{◌≡◌, None};
    ghost use Rattle.tile_records.specs.Counts.{Covers};
    ghost use Rattle.kept_tiles.specs.KeptCode.{kept_code};
    ghost use Rattle.kept_tiles.specs.Tiles.{KeptModel, claims};

    ghost Value = { KeptModel };

    ghost coded = { kept_code };

    ghost view = { λ k. record { interner = k.interner; store = k.tiles } };

    ghost invariant = { λ k. Covers k.interner (claims k.tiles.tiles) × (k.tiles.window ≡ None) };
}

impl KeptTiles {
    /// Without a tile. `NoMemory` where there is none.
    pub fn new(alloc: Global) -> Result<KeptTiles, NoMemory>
        ensures { IfOk result (λ kept. kept ≡ record { interner = map.empty; store = record { tiles = []; window = None; opened = 0 } }) }
    {
        Ok(KeptTiles {
            interner: Interner::new(alloc),
            tiles: TileStore::new(alloc)?,
            alloc,
        })
    }

    /// The tiles, with their records. It takes no memory.
    pub fn tiles(&self) -> &TileStore<TileRecord>
        ensures { result.now ≡ self.now.store }
    {
        &self.tiles
    }

    /// The entries that the records name. It takes no memory.
    pub fn interner(&self) -> &Interner
        ensures { result.now ≡ self.now.interner }
    {
        &self.interner
    }

    /// Shows the visible tiles of slices, back to front, by row and then by column. A tile without an entry is kept no
    /// longer. Another is drawn where its old record and its new one can differ, takes the new one, and is the most recent;
    /// a tile that isn't kept is drawn whole. Answers how many pixels were drawn. Where memory runs out, some tiles have been
    /// shown.
    pub fn show_slices(
        &mut self,
        slices: &[Slice],
        sides: TileSides,
        store: &Store,
        scratch: &mut Scratch,
    ) -> Result<u64, NoMemory>
        requires sides { AreTileSides sides }
        requires slices { All (CanBeShown store.now) slices.now }
        requires room { length self.old.store.tiles + length (frame_tiles sides slices.now) ≤ MAX_TILES }
        requires placed { ArePlaced sides (kept_of self.old) }
        requires wide { sides.width ≤ scratch.old.width }
        ensures work { OnOk result (IsWorkDone self.old self.new (work_on self.old (frame_tiles sides slices.now))) }
        ensures drawn { IfOk result (λ drawn. drawn ≡ (work_on self.old (frame_tiles sides slices.now)).cost) }
        ensures within { IsWithin self.old self.new (frame_tiles sides slices.now) }
        ensures keeps { KeepsSound sides store.now self.old self.new }
        ensures placed { ArePlaced sides (kept_of self.new) }
        ensures scratch { scratch.new ≡ scratch.old }
    {
        let _before = self.tiles.opened();
        let mut drawn: u64 = 0;
        for slice in slices {
            drawn += show_slice(
                &mut self.interner,
                &mut self.tiles,
                self.alloc,
                slice,
                sides,
                store,
                scratch,
            )?;
        }
        Ok(drawn)
    }

    /// Gives up the least recent tiles, until at most `budget` are left. It takes no memory.
    pub fn trim(&mut self, budget: u32)
        ensures kept { kept_of self.new ≡ take budget (kept_of self.old) }
        ensures opened { self.new.store.opened ≡ self.old.store.opened }
    {
        'tiles: while let Some((_, record)) = self.tiles.pop_over(budget) {
            give_up(&mut self.interner, record);
        }
    }
}
