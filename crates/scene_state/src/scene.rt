//! A scene, and the next one.

ghost use Rattle.std.specs.Prelude.{◌≡◌, ◌↔◌, ◌≤◌, ℕ, false, IsTrue, OnErr, IfOk};
ghost use Rattle.scene_limits.specs.Drawn.{IsDrawn, is_drawn};
ghost use Rattle.scene_limits.specs.Limits.{scene_fault};
ghost use Rattle.std.specs.Option.{option_copied, option_map};
ghost use Rattle.wr_io.specs.declared.fault.Code.TheVariants as code;
ghost use Rattle.pipelines.specs.Table.{pipeline_at, pipeline_list};
ghost use Rattle.scene_state.specs.SceneModel.{SceneModel, start};
ghost use Rattle.txn_format.specs.Models.{op_model};
ghost use Rattle.scene_state.specs.Operations.{after_ops, touches};
ghost use Rattle.scene_state.specs.Limits.{IsScene, is_full, limit_of, next_scene};
ghost use Rattle.scene_state.specs.Outcome.{Answers};

use crate::draft::Draft;
use crate::limits::MAX_STORED_PIXELS;
use crate::{ApplyError, Policy};
use blend_rules::Px;
use display_list::List;
use image_store::{Gens, Store};
use pipelines::Pipelines;
use scene_limits::{drawn, scene_fault};
use spatial_tree::Moves;
use std::alloc::Global;
use std::marker::Model;
use txn_format::{Op, Txn};
use wr_geom::NoMemory;
use wr_io::{Code, Fault};

/// What the transactions so far have made. It breaks no limit.
#[derive(Drop)]
pub struct Scene {
    draft: Draft,
}

impl Model for Scene {
    ghost use Rattle.std.specs.Prelude.{◌≡◌, None};
    ghost use Rattle.scene_state.specs.SceneModel.{SceneModel, scene_code};
    ghost use Rattle.scene_state.specs.Limits.{limit_of};

    ghost Value = { SceneModel };

    ghost coded = { scene_code };

    ghost view = { λ s. s.draft };

    ghost invariant = { λ s. limit_of s.draft ≡ None };
}

/// Whether more pixels are stored than may be.
fn is_full(store: &Store) -> bool
    ensures { result ≡ is_full store.now }
{
    store.pixels() > MAX_STORED_PIXELS
}

/// Whether an operation changes what a pipeline has.
fn touches(op: Op<'_>) -> bool
    ensures { result ≡ touches (op_model op.entry) }
{
    match op {
        Op::SetList { .. }
        | Op::RemovePipeline
        | Op::Scroll { .. }
        | Op::SetOffset { .. }
        | Op::SetOpacity { .. } => true,
        Op::AddImage { .. }
        | Op::UpdateImage { .. }
        | Op::DeleteImage { .. }
        | Op::AddGlyph { .. }
        | Op::DeleteFont { .. }
        | Op::SetView { .. }
        | Op::TilePolicy { .. }
        | Op::DropTiles => false,
    }
}

impl Scene {
    /// Before the first transaction: a view of one clear pixel, tiles of 256 by 256 pixels of which 512 are
    /// kept, and nothing else. It takes no memory.
    pub fn start(alloc: Global) -> Scene
        ensures { result ≡ start }
    {
        Scene {
            draft: Draft::start(alloc),
        }
    }

    /// The scene after a transaction, or why it is refused: the first fault of its operations in order, and
    /// then the first limit that is broken, at the payload's length. `gens` gives each image and mask that is
    /// added or updated the next generation. After an error it is as before.
    ///
    /// Lists, maps and pixels are shared with this scene.
    pub fn next(&self, txn: &Txn<'_>, gens: &mut Gens) -> Result<Scene, ApplyError>
        ensures made { Answers (λ scene. (scene, gens.new)) result (next_scene txn.now self.now gens.old) }
        ensures counter { OnErr result (gens.new ≡ gens.old) }
    {
        let mut counter = Gens::at(gens.last());
        let (draft, touched) = self.applied(txn, &mut counter)?;
        if let Some(code) = self.broken_limit(&draft, touched)? {
            return Err(ApplyError::Fault(Fault {
                code,
                at: txn.len(),
            }));
        }
        *gens = counter;
        Ok(Scene { draft })
    }

    /// What the operations of a transaction make, in order, and whether they can have changed what a pipeline
    /// has.
    fn applied(&self, txn: &Txn<'_>, gens: &mut Gens) -> Result<(Draft, bool), ApplyError>
        ensures made { Answers (λ made. (made.0, gens.new)) result (after_ops txn.now.pipeline txn.now.ops self.now gens.old) }
        ensures untouched { IfOk result (λ made. made.1 ≡ false → made.0.pipelines ≡ self.now.pipelines) }
    {
        let pipeline = txn.pipeline();
        let len = txn.len();
        let ops = txn.ops();
        let mut draft = self.draft.share()?;
        let mut touched = false;
        for placed in ops {
            draft.apply(gens, pipeline, *placed)?;
            touched = touched || touches(placed.op);
        }
        Ok((draft, touched))
    }

    /// The limit of what is drawn that a draft breaks, if it breaks one. It is only asked for where it can have
    /// changed since this scene.
    fn drawn_limit(&self, draft: &Draft, touched: bool) -> Result<Option<Code>, NoMemory>
        requires { touched ≡ false → draft.now.pipelines ≡ self.now.pipelines }
        ensures { IfOk result (λ code. code ≡ scene_fault draft.now.pipelines) }
    {
        if touched {
            return scene_fault(draft.alloc, &draft.pipelines);
        }
        know_scene(self);
        Ok(None)
    }

    /// The first limit that a draft breaks, if it breaks one.
    fn broken_limit(&self, draft: &Draft, touched: bool) -> Result<Option<Code>, NoMemory>
        requires { touched ≡ false → draft.now.pipelines ≡ self.now.pipelines }
        ensures { IfOk result (λ code. code ≡ limit_of draft.now) }
    {
        if let Some(code) = self.drawn_limit(draft, touched)? {
            return Ok(Some(code));
        }
        if is_full(draft.store.get()) {
            return Ok(Some(Code::TooManyPixels));
        }
        Ok(None)
    }
}

/// What is known of every scene, for whoever reasons about it. It does nothing.
pub fn know_scene(scene: &Scene)
    ensures { IsScene scene.now }
{
    scene.draft.know();
}

impl Scene {
    /// The view's sides, 1 to 4,096 pixels.
    pub fn view(&self) -> (u16, u16)
        ensures { result ≡ self.now.view }
    {
        self.draft.view
    }

    /// The premultiplied colour under all items.
    pub fn clear(&self) -> Px
        ensures { result ≡ self.now.clear }
    {
        self.draft.clear
    }

    /// How tiles are kept.
    pub fn policy(&self) -> Policy
        ensures { result ≡ self.now.policy }
    {
        self.draft.policy
    }

    /// What the pipelines have.
    pub fn pipelines(&self) -> &Pipelines
        ensures { result.now ≡ self.now.pipelines }
    {
        &self.draft.pipelines
    }

    /// The list of a pipeline, at most 63, where it has one.
    pub fn list(&self, pipeline: u8) -> Option<&List>
        ensures { option_copied result ≡ pipeline_list self.now.pipelines pipeline }
    {
        match self.draft.pipelines.get(pipeline).listed() {
            None => None,
            Some(listed) => Some(listed.list()),
        }
    }

    /// The epoch of a pipeline's list, where it has one.
    pub fn epoch(&self, pipeline: u8) -> Option<u32>
        ensures { result ≡ option_map (λ listed. listed.epoch) (pipeline_at self.now.pipelines pipeline).listed }
    {
        match self.draft.pipelines.get(pipeline).listed() {
            None => None,
            Some(listed) => Some(listed.epoch()),
        }
    }

    /// The positions and properties of a pipeline.
    pub fn moves(&self, pipeline: u8) -> &Moves
        ensures { result.now ≡ (pipeline_at self.now.pipelines pipeline).moves }
    {
        self.draft.pipelines.get(pipeline).moves()
    }

    /// Which pipelines are drawn, by number: pipeline 0 where it has a list, and those that have a list and
    /// that an Iframe of one that is drawn names.
    pub fn drawn(&self) -> [bool; 64]
        ensures { (p : ℕ) → IsTrue (is_drawn result p) ↔ IsDrawn self.now.pipelines p }
    {
        drawn(&self.draft.pipelines)
    }

    /// Whether a pipeline is drawn.
    pub fn is_drawn(&self, pipeline: u8) -> bool
        requires { pipeline ≤ 63 }
        ensures { IsTrue result ↔ IsDrawn self.now.pipelines pipeline }
    {
        self.drawn()[usize::from(pipeline)]
    }

    /// The images and masks.
    pub fn store(&self) -> &Store
        ensures { result.now ≡ self.now.store }
    {
        self.draft.store.get()
    }
}
