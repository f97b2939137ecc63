//! A renderer as others see it.

ghost use Rattle.std.specs.Prelude.{◌≡◌, IfOk, option_copied};
ghost use Rattle.renderer.specs.Kept.{IsKept};
ghost use Rattle.renderer.specs.Outcome.{Applies};
ghost use Rattle.renderer.specs.RendererModel.{new_renderer};

use crate::answer::Answer;
use crate::parts::{Parts, apply, new_parts};
use image_store::Gens;
use scene_state::{ApplyError, Scene, know_scene};
use std::alloc::Global;
use std::marker::Model;
use tile_compositor::Frame;
use tile_records::{Interner, TileRecord};
use tile_store::{TileStore, know_store};
use txn_format::Txn;
use wr_geom::NoMemory;

/// A scene, the tiles kept between its frames, and its last frame.
#[derive(Drop)]
pub struct Renderer {
    parts: Parts,
}

impl Model for Renderer {
    ghost use Rattle.renderer.specs.RendererModel.{RendererModel, renderer_code};
    ghost use Rattle.renderer.specs.PartsModel.{HasScratch, IsCurrentIn, IsFreshIn, model_of};

    ghost Value = { RendererModel };

    ghost coded = { renderer_code };

    ghost view = { λ s. model_of s.parts };

    ghost invariant = { λ s. IsFreshIn s.parts × (IsCurrentIn s.parts × HasScratch s.parts) };
}

/// What holds of every renderer, for whoever reasons about it. It does nothing.
pub fn know_renderer(renderer: &Renderer)
    ensures { IsKept renderer.now }
{
    know_scene(&renderer.parts.scene);
    know_store(renderer.parts.kept.tiles());
}

impl Renderer {
    /// Before the first transaction: a view of one clear pixel, nothing stored and no tile kept. `NoMemory` where there is
    /// none for it.
    pub fn new(alloc: Global) -> Result<Renderer, NoMemory>
        ensures { IfOk result (λ renderer. renderer ≡ new_renderer) }
    {
        Ok(Renderer {
            parts: new_parts(alloc)?,
        })
    }

    /// Applies a transaction. Where it asks for a frame, the frame shows the new scene, and each tile of it that shows
    /// something is kept, as far as the budget allows. Of a kept tile the part is drawn in which its old record and its
    /// new one can differ, of another all.
    ///
    /// After a fault all stands. Where memory runs out, scene and last frame stand, and no kept tile is stale.
    pub fn apply(&mut self, txn: &Txn<'_>) -> Result<Answer, ApplyError>
        ensures { Applies txn.now self.old self.new result }
    {
        apply(&mut self.parts, txn)
    }

    /// The last frame, or none before the first. It takes no memory.
    pub fn last_frame(&self) -> Option<&Frame>
        ensures { option_copied result ≡ self.now.frame }
    {
        self.parts.frame.as_ref()
    }

    /// What the transactions so far have made. It takes no memory.
    pub fn scene(&self) -> &Scene
        ensures { result.now ≡ self.now.scene }
    {
        &self.parts.scene
    }

    /// The counter of generations. It takes no memory.
    pub fn gens(&self) -> &Gens
        ensures { result.now ≡ self.now.last }
    {
        &self.parts.gens
    }

    /// The kept tiles, the most recent first. It takes no memory.
    pub fn tiles(&self) -> &TileStore<TileRecord>
        ensures { result.now ≡ self.now.kept.store }
    {
        self.parts.kept.tiles()
    }

    /// The entries that the tiles' records name. It takes no memory.
    pub fn interner(&self) -> &Interner
        ensures { result.now ≡ self.now.kept.interner }
    {
        self.parts.kept.interner()
    }

    /// How many pixels of tiles were drawn in all, or the last value of 64 bits where they were more. It takes no memory.
    pub fn opened(&self) -> u64
        ensures { result ≡ self.now.kept.store.opened }
    {
        self.parts.kept.tiles().opened()
    }
}
