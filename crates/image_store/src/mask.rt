//! A glyph's mask that is stored.

ghost use Rattle.std.specs.Prelude.{◌≡◌, ◌<◌, ◌≤◌, ◌+◌, ◌*◌, ℕ, length, slice_index, IfOk};
ghost use Rattle.image_store.specs.Models.{mask_byte, IsMask};

use containers::Exact;
use std::alloc::{AllocError, Global};
use std::marker::Model;
use std::rc::Rc;

/// A glyph's mask: sides of 1 to 4,096 pixels, a generation, and a byte of coverage for each pixel, which
/// several owners may share.
#[derive(Drop)]
pub struct Mask {
    w: u16,
    h: u16,
    generation: u64,
    bytes: Rc<Vec<u8>>,
}

impl Model for Mask {
    ghost use Rattle.image_store.specs.Models.{MaskModel, IsMask};

    ghost Value = { MaskModel };

    ghost view = { λ s. record { w = s.w; h = s.h; generation = s.generation; bytes = s.bytes.value.items } };

    ghost invariant = { λ s. IsMask (record { w = s.w; h = s.h; generation = s.generation; bytes = s.bytes.value.items }) };
}

impl Mask {
    /// From bytes row by row, which are copied.
    pub(crate) fn new(
        alloc: Global,
        w: u16,
        h: u16,
        generation: u64,
        bytes: &[u8],
    ) -> Result<Mask, AllocError>
        requires { IsMask (record { w = w; h = h; generation = generation; bytes = bytes.now }) }
        ensures { IfOk result (λ mask. mask ≡ record { w = w; h = h; generation = generation; bytes = bytes.now }) }
    {
        let copy = Vec::from_slice(alloc, bytes)?;
        let bytes = Rc::new(alloc, copy)?;
        Ok(Mask {
            w,
            h,
            generation,
            bytes,
        })
    }

    /// Its width in pixels. It takes no memory.
    pub fn w(&self) -> u16
        ensures value { result ≡ self.now.w }
        ensures mask { IsMask self.now }
    {
        self.w
    }

    /// Its height in pixels. It takes no memory.
    pub fn h(&self) -> u16
        ensures value { result ≡ self.now.h }
        ensures mask { IsMask self.now }
    {
        self.h
    }

    /// Its generation. It takes no memory.
    pub fn generation(&self) -> u64
        ensures { result ≡ self.now.generation }
    {
        self.generation
    }

    /// The bytes of a row. It takes no memory.
    pub fn row(&self, y: u16) -> &[u8]
        requires { y < self.now.h }
        ensures len { length result.now ≡ self.now.w }
        ensures bytes { (x : ℕ) → x < self.now.w → slice_index result.now x ≡ mask_byte self.now x y }
    {
        let start = usize::from(y) * usize::from(self.w);
        &self.bytes.as_slice()[start..start + usize::from(self.w)]
    }

    /// The byte at a column and row. It takes no memory.
    pub fn byte(&self, x: u16, y: u16) -> u8
        requires column { x < self.now.w }
        requires row { y < self.now.h }
        ensures { result ≡ mask_byte self.now x y }
    {
        self.row(y)[usize::from(x)]
    }
}

impl Clone for Mask {
    ghost use Rattle.std.specs.Prelude.{◌≡◌};

    ghost is_clone = { λ x y. y ≡ x };

    fn clone(&self) -> Result<Mask, AllocError> {
        let bytes = self.bytes.clone()?;
        Ok(Mask {
            w: self.w,
            h: self.h,
            generation: self.generation,
            bytes,
        })
    }
}

impl Exact for Mask {
    ghost exact = { λ x y e. e };
}
