//! Images and masks by their keys.

ghost use Rattle.std.specs.Prelude.{◌≡◌, ◌≤◌, ◌+◌, ◌*◌, ◌-◌, ◌^◌, min, length, Ok, IfOk, IfErr, OnErr, OnOk};
ghost use Rattle.std.specs.Option.{option_copied};
ghost use Rattle.image_store.specs.Models.{IsSide};
ghost use Rattle.image_store.specs.StoreModel.{IsStore, empty_store, image_at, glyph_at, pixel_count, without_font};
ghost use Rattle.image_store.specs.Changes.{image_added, image_updated, image_deleted, glyph_added, where_inside};
ghost use Rattle.image_store.specs.Outcome.{Changes, ChangesSurely, NamesTexelBelow};

use crate::groups::{area_of_images, area_of_masks, put_image, put_mask, remove_image};
use crate::keyed_images::KeyedImages;
use crate::keyed_masks::KeyedMasks;
use crate::{Gens, Image, Mask, Patch, StoreError};
use containers::{Exact, NumberMap, PairMap};
use std::alloc::{AllocError, Global};
use std::marker::Model;
use wr_geom::NoMemory;

/// Images by pipeline and key, and glyph masks by pipeline, font and glyph.
///
/// Forks share what they hold. What a pipeline's images or a font's masks are kept in is copied when one of two
/// stores that share it changes there; images and masks themselves are never copied.
#[derive(Drop)]
pub struct Store {
    images: NumberMap<KeyedImages>,
    masks: PairMap<KeyedMasks>,
    alloc: Global,
}

impl Model for Store {
    ghost use Rattle.image_store.specs.StoreModel.{StoreModel, IsStore};
    ghost use Rattle.image_store.specs.StoreCode.{store_code};

    ghost Value = { StoreModel };

    ghost coded = { store_code };

    ghost view = { λ s. record { images = s.images; masks = s.masks } };

    ghost invariant = { λ s. IsStore (record { images = s.images; masks = s.masks }) };
}

impl Store {
    /// Without an image or a mask. It takes no memory.
    pub fn new(alloc: Global) -> Store
        ensures { result ≡ empty_store }
    {
        Store {
            images: NumberMap::new(alloc),
            masks: PairMap::new(alloc),
            alloc,
        }
    }

    /// One more store with the same images and masks, which both share.
    pub fn fork(&self) -> Result<Store, NoMemory>
        ensures { IfOk result (λ store. store ≡ self.now) }
    {
        Ok(self.clone()?)
    }

    /// The image of a pipeline and key, or none where none is stored. It takes no memory.
    pub fn image(&self, pipeline: u8, key: u32) -> Option<&Image>
        ensures { option_copied result ≡ image_at self.now pipeline key }
    {
        match self.images.get(u32::from(pipeline)) {
            Some(images) => images.get(key),
            None => None,
        }
    }

    /// The mask of a pipeline, font and glyph, or none where none is stored. It takes no memory.
    pub fn glyph(&self, pipeline: u8, font: u16, glyph: u16) -> Option<&Mask>
        ensures { option_copied result ≡ glyph_at self.now pipeline font glyph }
    {
        match self.masks.get((u32::from(pipeline), u32::from(font))) {
            Some(masks) => masks.get(u32::from(glyph)),
            None => None,
        }
    }

    /// The pixels of all images and masks, `u64::MAX` where they are more. It takes no memory.
    pub fn pixels(&self) -> u64
        ensures { result ≡ min (2 ^ 64 - 1) (pixel_count self.now) }
    {
        area_of_images(&self.images).saturating_add(area_of_masks(&self.masks))
    }

    /// Adds an image from interleaved bytes, four a texel: blue, green, red, alpha. It replaces an image of that key.
    /// Refused with `Limit`, then with `BadPixels`; then nothing has changed.
    pub fn add_image(
        &mut self,
        gens: &mut Gens,
        pipeline: u8,
        key: u32,
        w: u16,
        h: u16,
        pixels: &[u8],
    ) -> Result<(), StoreError>
        requires wide { IsSide w }
        requires high { IsSide h }
        requires whole { length pixels.now ≡ h * (4 * w) }
        ensures change { Changes result (self.new, gens.new) (image_added pipeline key w h pixels.now self.old gens.old) }
        ensures store { OnErr result (self.new ≡ self.old) }
        ensures counter { OnErr result (gens.new ≡ gens.old) }
        ensures texel { IfErr result (λ e. NamesTexelBelow (h * w) e) }
    {
        let Some(generation) = gens.next() else {
            return Err(StoreError::Limit);
        };
        let image = match Image::new(self.alloc, w, h, generation, pixels) {
            Ok(image) => image,
            Err(error) => return Err(error),
        };
        put_image(
            self.alloc,
            &mut self.images,
            u32::from(pipeline),
            key,
            image,
        )?;
        gens.give(generation);
        Ok(())
    }

    /// Adds a mask from a byte for each pixel, row by row. It replaces a mask of that glyph. Refused with `Limit`;
    /// then nothing has changed.
    pub fn add_glyph(
        &mut self,
        gens: &mut Gens,
        pipeline: u8,
        font: u16,
        glyph: u16,
        w: u16,
        h: u16,
        mask: &[u8],
    ) -> Result<(), StoreError>
        requires wide { IsSide w }
        requires high { IsSide h }
        requires whole { length mask.now ≡ h * w }
        ensures change { Changes result (self.new, gens.new) (glyph_added pipeline font glyph w h mask.now self.old gens.old) }
        ensures store { OnErr result (self.new ≡ self.old) }
        ensures counter { OnErr result (gens.new ≡ gens.old) }
    {
        let Some(generation) = gens.next() else {
            return Err(StoreError::Limit);
        };
        let mask = Mask::new(self.alloc, w, h, generation, mask)?;
        let font = (u32::from(pipeline), u32::from(font));
        put_mask(self.alloc, &mut self.masks, font, u32::from(glyph), mask)?;
        gens.give(generation);
        Ok(())
    }

    /// Replaces a rectangle of an image's texels by interleaved bytes, four a texel. Refused with `UnknownImage`,
    /// `OutOfWidth`, `OutOfHeight`, `Limit`, `BadPixels`, in this order; then nothing has changed.
    pub fn update(
        &mut self,
        gens: &mut Gens,
        pipeline: u8,
        key: u32,
        x: u16,
        y: u16,
        w: u16,
        h: u16,
        pixels: &[u8],
    ) -> Result<(), StoreError>
        requires wide { IsSide w }
        requires high { IsSide h }
        requires whole { length pixels.now ≡ h * (4 * w) }
        ensures change { Changes result (self.new, gens.new) (image_updated pipeline key (record { x = x; y = y; w = w; h = h }) pixels.now self.old gens.old) }
        ensures store { OnErr result (self.new ≡ self.old) }
        ensures counter { OnErr result (gens.new ≡ gens.old) }
        ensures texel { IfErr result (λ e. NamesTexelBelow (h * w) e) }
    {
        let patch = Patch { x, y, w, h };
        let Some(image) = self.image(pipeline, key) else {
            return Err(StoreError::UnknownImage);
        };
        check_patch(image, patch)?;
        let Some(generation) = gens.next() else {
            return Err(StoreError::Limit);
        };
        let next = match image.updated(self.alloc, generation, patch, pixels) {
            Ok(next) => next,
            Err(error) => return Err(error),
        };
        put_image(self.alloc, &mut self.images, u32::from(pipeline), key, next)?;
        gens.give(generation);
        Ok(())
    }

    /// Deletes an image. Refused with `UnknownImage` where none of that key is stored. It takes no memory.
    pub fn delete(&mut self, pipeline: u8, key: u32) -> Result<(), StoreError>
        ensures change { ChangesSurely result self.new (image_deleted pipeline key self.old) }
        ensures store { OnErr result (self.new ≡ self.old) }
    {
        if self.image(pipeline, key).is_none() {
            return Err(StoreError::UnknownImage);
        }
        remove_image(&mut self.images, u32::from(pipeline), key);
        Ok(())
    }

    /// Deletes all masks of a font, perhaps none. It takes no memory.
    pub fn delete_font(&mut self, pipeline: u8, font: u16)
        ensures { self.new ≡ without_font pipeline font self.old }
    {
        self.masks.remove((u32::from(pipeline), u32::from(font)));
    }
}

impl Clone for Store {
    ghost use Rattle.std.specs.Prelude.{◌≡◌};

    ghost is_clone = { λ x y. y ≡ x };

    fn clone(&self) -> Result<Store, AllocError> {
        let images = self.images.clone()?;
        let masks = self.masks.clone()?;
        Ok(Store {
            images,
            masks,
            alloc: self.alloc,
        })
    }
}

impl Exact for Store {
    ghost exact = { λ x y e. e };
}

/// Whether a rectangle lies in an image, across first.
fn check_patch(image: &Image, patch: Patch) -> Result<(), StoreError>
    ensures value { where_inside image.now patch (Ok tt) ≡ result }
    ensures right { OnOk result (patch.x + patch.w ≤ image.now.w) }
    ensures below { OnOk result (patch.y + patch.h ≤ image.now.h) }
    ensures texel { IfErr result (λ e. NamesTexelBelow (patch.h * patch.w) e) }
{
    if u32::from(image.w()) < u32::from(patch.x) + u32::from(patch.w) {
        return Err(StoreError::OutOfWidth);
    }
    if u32::from(image.h()) < u32::from(patch.y) + u32::from(patch.h) {
        return Err(StoreError::OutOfHeight);
    }
    Ok(())
}

/// What the type of a store keeps, for whoever holds one: its images and masks are whole. It does nothing.
pub fn know_store(store: &Store)
    ensures { IsStore store.now }
{
    let _ = &store.alloc;
}
