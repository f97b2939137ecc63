//! An image that is stored.

ghost use Rattle.std.specs.Prelude.{◌≡◌, ◌<◌, ◌≤◌, ◌+◌, ◌*◌, ℕ, length, slice_index, IfErr, IsTrue, ◌↔◌};
ghost use Rattle.blend_rules.specs.Pixels.{pixels, AreOpaque};
ghost use Rattle.blend_rules.specs.Planes.{channel};
ghost use Rattle.image_store.specs.Models.{texel_of, IsSide, IsImage};
ghost use Rattle.image_store.specs.Changes.{image_of, updated_image};
ghost use Rattle.image_store.specs.Outcome.{Makes, NamesTexelBelow};

use crate::image_data::ImageData;
use crate::{Patch, StoreError};
use blend_rules::{Plane, Px};
use containers::Exact;
use std::alloc::{AllocError, Global};
use std::marker::Model;
use std::rc::Rc;

/// An image: sides of 1 to 4,096 pixels, a generation, and premultiplied texels. Several owners may share it.
#[derive(Drop)]
pub struct Image {
    data: Rc<ImageData>,
}

impl Model for Image {
    ghost use Rattle.image_store.specs.Models.{ImageModel};

    ghost Value = { ImageModel };

    ghost view = { λ s. s.data.value };
}

impl Image {
    /// From interleaved bytes, four a texel: blue, green, red, alpha.
    pub(crate) fn new(
        alloc: Global,
        w: u16,
        h: u16,
        generation: u64,
        bytes: &[u8],
    ) -> Result<Image, StoreError>
        requires wide { IsSide w }
        requires high { IsSide h }
        requires whole { length bytes.now ≡ h * (4 * w) }
        ensures image { Makes result (image_of w h generation (pixels bytes.now)) }
        ensures within { IfErr result (λ e. NamesTexelBelow (h * w) e) }
    {
        match ImageData::new(alloc, w, h, generation, bytes) {
            Ok(data) => Ok(Image {
                data: Rc::new(alloc, data)?,
            }),
            Err(error) => Err(error),
        }
    }

    /// The image with a rectangle of its texels replaced. It shares the rows that are far from it.
    pub(crate) fn updated(
        &self,
        alloc: Global,
        generation: u64,
        patch: Patch,
        bytes: &[u8],
    ) -> Result<Image, StoreError>
        requires right { patch.x + patch.w ≤ self.now.w }
        requires below { patch.y + patch.h ≤ self.now.h }
        requires texels { length bytes.now ≡ patch.h * (4 * patch.w) }
        ensures image { Makes result (updated_image generation patch (pixels bytes.now) self.now) }
        ensures within { IfErr result (λ e. NamesTexelBelow (patch.h * patch.w) e) }
    {
        match self.data.updated(alloc, generation, patch, bytes) {
            Ok(data) => Ok(Image {
                data: Rc::new(alloc, data)?,
            }),
            Err(error) => Err(error),
        }
    }

    /// Its width in pixels. It takes no memory.
    pub fn w(&self) -> u16
        ensures value { result ≡ self.now.w }
        ensures image { IsImage self.now }
    {
        self.data.w()
    }

    /// Its height in pixels. It takes no memory.
    pub fn h(&self) -> u16
        ensures { result ≡ self.now.h }
    {
        self.data.h()
    }

    /// Its generation. It takes no memory.
    pub fn generation(&self) -> u64
        ensures { result ≡ self.now.generation }
    {
        self.data.generation()
    }

    /// Whether each texel's alpha is 255. It takes no memory.
    pub fn opaque(&self) -> bool
        ensures { IsTrue result ↔ AreOpaque self.now.texels }
    {
        self.data.opaque()
    }

    /// The colour at a column and row. It takes no memory.
    pub fn texel(&self, x: u16, y: u16) -> Px
        requires column { x < self.now.w }
        requires row { y < self.now.h }
        ensures { result ≡ texel_of self.now x y }
    {
        self.data.texel(x, y)
    }

    /// The bytes of a row in one plane. It takes no memory.
    pub fn row(&self, plane: Plane, y: u16) -> &[u8]
        requires { y < self.now.h }
        ensures len { length result.now ≡ self.now.w }
        ensures bytes { (x : ℕ) → x < self.now.w → slice_index result.now x ≡ channel plane (texel_of self.now x y) }
    {
        self.data.row(plane, y)
    }
}

impl Clone for Image {
    ghost use Rattle.std.specs.Prelude.{◌≡◌};

    ghost is_clone = { λ x y. y ≡ x };

    fn clone(&self) -> Result<Image, AllocError> {
        let data = self.data.clone()?;
        Ok(Image { data })
    }
}

impl Exact for Image {
    ghost exact = { λ x y e. e };
}
