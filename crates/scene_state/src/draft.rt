//! A scene while operations are applied to it.

ghost use Rattle.std.specs.Prelude.{◌≡◌, ◌≤◌, ◌+◌, ◌*◌, ◌^◌, ℕ, length, IfOk, OnErr};
ghost use Rattle.blend_rules.specs.Colour.{IsPixel};
ghost use Rattle.field_forms.specs.Facts.{IsNear};
ghost use Rattle.display_list.specs.Decoding.{list_at};
ghost use Rattle.image_store.specs.Changes.{image_added, image_updated, image_deleted, glyph_added};
ghost use Rattle.txn_format.specs.Checks.{AreTexels, EndsWithin, IsOp};
ghost use Rattle.txn_format.specs.Models.{op_model, placed_model};
ghost use Rattle.pipelines.specs.Table.{AreFit};
ghost use Rattle.image_store.specs.StoreModel.{IsStore};
ghost use Rattle.scene_state.specs.SceneModel.{HasRanges, start};
ghost use Rattle.scene_state.specs.StoreFaults.{fault_at};
ghost use Rattle.scene_state.specs.Operations.{after_op, where_changed, where_read, where_removed};
ghost use Rattle.scene_state.specs.Outcome.{Leaves};

use crate::error::{ADD_TEXELS, UPDATE_TEXELS, list_error, store_error};
use crate::{ApplyError, Policy};
use blend_rules::Px;
use containers::Shared;
use display_list::{decode, spelling_laws};
use image_store::{Gens, Store, know_store};
use pipelines::{Change, Listed, Pipelines};
use std::alloc::Global;
use std::marker::Model;
use txn_format::{Op, Placed};
use wr_geom::NoMemory;

/// A list's bytes stand so many bytes after the tag of their operation.
const LIST_BYTES: u32 = 9;

/// What the operations so far have made.
#[derive(Drop)]
pub(crate) struct Draft {
    pub(crate) view: (u16, u16),
    pub(crate) clear: Px,
    pub(crate) policy: Policy,
    pub(crate) pipelines: Pipelines,
    pub(crate) store: Shared<Store>,
    pub(crate) alloc: Global,
}

impl Model for Draft {
    ghost use Rattle.scene_state.specs.SceneModel.{SceneModel, scene_code, HasRanges};

    ghost Value = { SceneModel };

    ghost coded = { scene_code };

    ghost view = { λ s. record { view = s.view; clear = s.clear; policy = s.policy; pipelines = s.pipelines; store = s.store } };

    ghost invariant = { λ s. HasRanges (record { view = s.view; clear = s.clear; policy = s.policy; pipelines = s.pipelines; store = s.store }) };
}

impl Draft {
    /// Before the first transaction. It takes no memory.
    pub(crate) fn start(alloc: Global) -> Draft
        ensures { result ≡ start }
    {
        Draft {
            view: (1, 1),
            clear: Px::CLEAR,
            policy: Policy {
                tw: 256,
                th: 256,
                budget: 512,
            },
            pipelines: Pipelines::new(alloc),
            store: Shared::new(alloc, Store::new(alloc)),
            alloc,
        }
    }

    /// What is known of every draft, for whoever reasons about it. It does nothing.
    pub(crate) fn know(&self)
        ensures ranges { HasRanges self.now }
        ensures fit { AreFit self.now.pipelines }
        ensures store { IsStore self.now.store }
    {
        let _pipeline = self.pipelines.get(0);
        know_store(self.store.get());
    }

    /// The same once more. Nothing is copied until one of the two changes it.
    pub(crate) fn share(&self) -> Result<Draft, NoMemory>
        ensures { IfOk result (λ draft. draft ≡ self.now) }
    {
        let pipelines = self.pipelines.share()?;
        let store = self.store.share()?;
        Ok(Draft {
            view: self.view,
            clear: self.clear,
            policy: self.policy,
            pipelines,
            store,
            alloc: self.alloc,
        })
    }

    /// Applies an operation of a pipeline.
    pub(crate) fn apply(
        &mut self,
        gens: &mut Gens,
        pipeline: u8,
        placed: Placed<'_>,
    ) -> Result<(), ApplyError>
        requires pipeline { pipeline ≤ 63 }
        requires op { IsOp pipeline (op_model placed.op) }
        requires within { EndsWithin (2 ^ 26) (placed_model placed) }
        ensures { Leaves result (self.new, gens.new) (after_op pipeline placed.entry.at (op_model placed.entry.op) self.old gens.old) }
    {
        let at = placed.at;
        match placed.op {
            Op::SetList { epoch, bytes } => self.set_list(pipeline, at, epoch, bytes)?,
            Op::RemovePipeline => self.pipelines.remove(pipeline)?,
            Op::Scroll { sid, x, y } => self
                .pipelines
                .change(pipeline, Change::Scroll { sid, x, y })?,
            Op::SetOffset { id, x, y } => self
                .pipelines
                .change(pipeline, Change::Offset { id, x, y })?,
            Op::SetOpacity { id, opacity } => self
                .pipelines
                .change(pipeline, Change::Opacity { id, opacity })?,
            Op::AddImage { key, w, h, pixels } => {
                self.add_image(gens, pipeline, at, key, w, h, pixels)?
            }
            Op::UpdateImage {
                key,
                x,
                y,
                w,
                h,
                pixels,
            } => self.update_image(gens, pipeline, at, key, x, y, w, h, pixels)?,
            Op::DeleteImage { key } => self.delete_image(pipeline, at, key)?,
            Op::AddGlyph {
                font,
                glyph,
                w,
                h,
                mask,
            } => self.add_glyph(gens, pipeline, at, font, glyph, w, h, mask)?,
            Op::DeleteFont { font } => self.store.write()?.delete_font(pipeline, font),
            Op::SetView { w, h, clear } => {
                self.view = (w, h);
                self.clear = clear;
            }
            Op::TilePolicy { tw, th, budget } => self.policy = Policy { tw, th, budget },
            Op::DropTiles => {}
        }
        Ok(())
    }

    fn set_list(
        &mut self,
        pipeline: u8,
        at: u32,
        epoch: u32,
        bytes: &[u8],
    ) -> Result<(), ApplyError>
        requires pipeline { pipeline ≤ 63 }
        requires at { at + 9 + length bytes.now ≤ 2 ^ 26 }
        ensures { (last : ℕ) → Leaves result (self.new, last) (where_read pipeline (at + 9) epoch (list_at pipeline bytes.now) self.old last) }
    {
        spelling_laws();
        match decode(self.alloc, bytes, pipeline) {
            Ok(list) => {
                let listed = Listed::new(self.alloc, list, epoch)?;
                self.pipelines.set_list(pipeline, listed)?;
                Ok(())
            }
            Err(error) => Err(list_error(error, at + LIST_BYTES, bytes.len() as u32)),
        }
    }

    fn add_image(
        &mut self,
        gens: &mut Gens,
        pipeline: u8,
        at: u32,
        key: u32,
        w: u16,
        h: u16,
        pixels: &[u8],
    ) -> Result<(), ApplyError>
        requires at { at ≤ 2 ^ 26 }
        requires texels { AreTexels w h 4 pixels.now }
        ensures { Leaves result (self.new, gens.new) (where_changed (fault_at at (at + 9)) (image_added pipeline key w h pixels.now self.old.store gens.old) self.old) }
    {
        let store = self.store.write()?;
        match store.add_image(gens, pipeline, key, w, h, pixels) {
            Ok(()) => Ok(()),
            Err(error) => Err(store_error(error, at, at + ADD_TEXELS)),
        }
    }

    fn update_image(
        &mut self,
        gens: &mut Gens,
        pipeline: u8,
        at: u32,
        key: u32,
        x: u16,
        y: u16,
        w: u16,
        h: u16,
        pixels: &[u8],
    ) -> Result<(), ApplyError>
        requires at { at ≤ 2 ^ 26 }
        requires texels { AreTexels w h 4 pixels.now }
        ensures { Leaves result (self.new, gens.new) (where_changed (fault_at at (at + 13)) (image_updated pipeline key (record { x = x; y = y; w = w; h = h }) pixels.now self.old.store gens.old) self.old) }
    {
        let store = self.store.write()?;
        match store.update(gens, pipeline, key, x, y, w, h, pixels) {
            Ok(()) => Ok(()),
            Err(error) => Err(store_error(error, at, at + UPDATE_TEXELS)),
        }
    }

    fn delete_image(&mut self, pipeline: u8, at: u32, key: u32) -> Result<(), ApplyError>
        requires { at ≤ 2 ^ 26 }
        ensures { (last : ℕ) → Leaves result (self.new, last) (where_removed (fault_at at at) (image_deleted pipeline key self.old.store) self.old last) }
    {
        let store = self.store.write()?;
        match store.delete(pipeline, key) {
            Ok(()) => Ok(()),
            Err(error) => Err(store_error(error, at, at)),
        }
    }

    fn add_glyph(
        &mut self,
        gens: &mut Gens,
        pipeline: u8,
        at: u32,
        font: u16,
        glyph: u16,
        w: u16,
        h: u16,
        mask: &[u8],
    ) -> Result<(), ApplyError>
        requires at { at ≤ 2 ^ 26 }
        requires texels { AreTexels w h 1 mask.now }
        ensures { Leaves result (self.new, gens.new) (where_changed (fault_at at at) (glyph_added pipeline font glyph w h mask.now self.old.store gens.old) self.old) }
    {
        let store = self.store.write()?;
        match store.add_glyph(gens, pipeline, font, glyph, w, h, mask) {
            Ok(()) => Ok(()),
            Err(error) => Err(store_error(error, at, at)),
        }
    }
}
