//! Some rows of an image, by planes.

ghost use Rattle.std.specs.Prelude.{◌≡◌, ◌<◌, ◌≤◌, ◌+◌, ◌*◌, ◌/◌, ◌^◌, None, ℕ, length, replicate, slice_index, IfOk, IfErr, IsTrue, ◌↔◌};
ghost use Rattle.blend_rules.specs.Pixels.{pixels, nth_pixel, written, AreOpaque};
ghost use Rattle.blend_rules.specs.Planes.{channel};
ghost use Rattle.image_store.specs.Bands.{HasPixels, tested};
ghost use Rattle.image_store.specs.Changes.{bad_from};
ghost use Rattle.image_store.specs.Outcome.{Refuses, NamesTexelBelow};

use crate::StoreError;
use crate::check::first_bad_where;
use crate::planes::{count_opaque, split_planes};
use blend_rules::{Plane, Px};
use std::alloc::{AllocError, Global};
use std::marker::Model;

/// Pixels in a row, by planes, and how many of them are opaque.
#[derive(Drop)]
pub(crate) struct Band {
    blue: Vec<u8>,
    green: Vec<u8>,
    red: Vec<u8>,
    alpha: Vec<u8>,
    count: usize,
}

impl Model for Band {
    ghost use Rattle.std.specs.Prelude.{List};
    ghost use Rattle.blend_rules.specs.declared.colour.Px.{Px};
    ghost use Rattle.image_store.specs.Bands.{woven, IsBand};

    ghost Value = { List Px };

    ghost view = { λ s. woven s.blue.items s.green.items s.red.items s.alpha.items };

    ghost invariant = { λ s. IsBand s.blue.items s.green.items s.red.items s.alpha.items s.count };
}

impl Band {
    /// The colours that interleaved bytes spell, the first of which has a number. They are tested and taken apart in one
    /// pass; the first that isn't premultiplied is looked for only where one may be.
    pub(crate) fn new(alloc: Global, bytes: &[u8], number: usize) -> Result<Band, StoreError>
        requires whole { length bytes.now ≡ 4 * (length bytes.now / 4) }
        requires room { number + length bytes.now / 4 ≤ 2 ^ 32 }
        ensures value { IfOk result (λ band. band ≡ pixels bytes.now) }
        ensures pixels { IfOk result (λ band. HasPixels (pixels bytes.now)) }
        ensures sound { IfOk result (λ band. bad_from number (pixels bytes.now) ≡ None) }
        ensures refused { IfErr result (λ e. Refuses e (tested (bad_from number (pixels bytes.now)))) }
        ensures within { IfErr result (λ e. NamesTexelBelow (number + length bytes.now / 4) e) }
    {
        let size = bytes.len() / 4;
        let mut blue = zeros(alloc, size)?;
        let mut green = zeros(alloc, size)?;
        let mut red = zeros(alloc, size)?;
        let mut alpha = zeros(alloc, size)?;
        let tested = split_planes(bytes, 0, &mut blue, &mut green, &mut red, &mut alpha);
        if let Some(i) = first_bad_where(tested.over, bytes, number) {
            return Err(StoreError::BadPixels(i as u32));
        }
        let count = tested.opaque;
        Ok(Band {
            blue,
            green,
            red,
            alpha,
            count,
        })
    }

    /// The colour at an index.

    #[tactic(auto, using(crate::proofs::Weaving::weaving))]
    pub(crate) fn texel(&self, i: usize) -> Px
        requires { i < length self.now }
        ensures { result ≡ nth_pixel self.now i }
    {
        Px {
            b: self.blue[i],
            g: self.green[i],
            r: self.red[i],
            a: self.alpha[i],
        }
    }

    /// The bytes of a plane.

    #[tactic(auto, using(crate::proofs::Weaving::weaving))]
    pub(crate) fn plane(&self, plane: Plane) -> &[u8]
        ensures len { length result.now ≡ length self.now }
        ensures bytes { (i : ℕ) → i < length self.now → slice_index result.now i ≡ channel plane (nth_pixel self.now i) }
    {
        match plane {
            Plane::B => &self.blue,
            Plane::G => &self.green,
            Plane::R => &self.red,
            Plane::A => &self.alpha,
        }
    }

    /// Whether each colour hides what is below it.
    pub(crate) fn opaque(&self) -> bool
        ensures { IsTrue result ↔ AreOpaque self.now }
    {
        self.count == self.alpha.len()
    }

    /// Writes the colours that interleaved bytes spell from an index on, and tests them in the same pass. Gives 0
    /// exactly where all are premultiplied; else each is written with no byte above its alpha.

    #[tactic(auto, using(crate::proofs::Weaving::weaving))]
    pub(crate) fn write(&mut self, at: usize, bytes: &[u8]) -> u8
        requires whole { length bytes.now ≡ 4 * (length bytes.now / 4) }
        requires room { at + length bytes.now / 4 ≤ length self.old }
        ensures written { HasPixels (pixels bytes.now) → self.new ≡ written self.old at (pixels bytes.now) }
        ensures len { length self.new ≡ length self.old }
        ensures pixels { HasPixels self.new }
        ensures over { result ≡ 0 ↔ HasPixels (pixels bytes.now) }
    {
        let old = self.count;
        let end = at + bytes.len() / 4;
        let gone = count_opaque(&self.alpha[at..end]);
        let tested = split_planes(
            bytes,
            at,
            &mut self.blue,
            &mut self.green,
            &mut self.red,
            &mut self.alpha,
        );
        self.count = old - gone + tested.opaque;
        tested.over
    }
}

impl Clone for Band {
    ghost use Rattle.std.specs.Prelude.{◌≡◌};

    ghost is_clone = { λ x y. y ≡ x };

    fn clone(&self) -> Result<Band, AllocError> {
        let blue = self.blue.clone()?;
        let green = self.green.clone()?;
        let red = self.red.clone()?;
        let alpha = self.alpha.clone()?;
        Ok(Band {
            blue,
            green,
            red,
            alpha,
            count: self.count,
        })
    }
}

fn zeros(alloc: Global, size: usize) -> Result<Vec<u8>, AllocError>
    ensures { IfOk result (λ bytes. bytes.items ≡ replicate size 0) }
{
    Ok(vec![in alloc; 0; size]?)
}
