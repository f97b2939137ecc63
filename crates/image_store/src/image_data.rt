//! An image's sides, generation and bands.

ghost use Rattle.std.specs.Prelude.{◌≡◌, ◌<◌, ◌≤◌, ◌+◌, ◌*◌, ◌/◌, ◌%◌, ◌^◌, None, ℕ, length, slice_index, IfOk, IfErr, OnOk, OnErr, IsTrue, ◌↔◌};
ghost use Rattle.blend_rules.specs.Pixels.{pixels, nth_pixel, written, AreOpaque};
ghost use Rattle.blend_rules.specs.Planes.{channel};
ghost use Rattle.image_store.specs.Models.{texel_of, IsSide, IsImage};
ghost use Rattle.image_store.specs.Patches.{patched};
ghost use Rattle.image_store.specs.Bands.{HasPixels, with_row, values, joined};
ghost use Rattle.image_store.specs.Changes.{image_of, updated_image, first_bad};
ghost use Rattle.image_store.specs.Outcome.{Makes, NamesTexelBelow};

use crate::band::Band;
use crate::check::first_bad_where;
use crate::making::bands_of;
use crate::{Patch, StoreError};
use blend_rules::{Plane, Px};
use std::alloc::{AllocError, Global};
use std::marker::Model;
use std::rc::Rc;

/// How many rows a band has, but for the last.
const ROWS: u16 = 64;

/// An image's sides, its generation, and its pixels in bands that several images may share.
#[derive(Drop)]
pub(crate) struct ImageData {
    w: u16,
    h: u16,
    generation: u64,
    bands: Vec<Rc<Band>>,
}

impl Model for ImageData {
    ghost use Rattle.image_store.specs.Models.{ImageModel};
    ghost use Rattle.image_store.specs.Bands.{AreImageBands, values, joined};

    ghost Value = { ImageModel };

    ghost view = { λ s. record { w = s.w; h = s.h; generation = s.generation; texels = joined (values s.bands.items) } };

    ghost invariant = { λ s. AreImageBands s.w s.h (values s.bands.items) };
}

impl ImageData {
    /// From interleaved bytes, four a texel: blue, green, red, alpha.
    pub(crate) fn new(
        alloc: Global,
        w: u16,
        h: u16,
        generation: u64,
        bytes: &[u8],
    ) -> Result<ImageData, StoreError>
        requires wide { IsSide w }
        requires high { IsSide h }
        requires whole { length bytes.now ≡ h * (4 * w) }
        ensures image { Makes result (image_of w h generation (pixels bytes.now)) }
        ensures within { IfErr result (λ e. NamesTexelBelow (h * w) e) }
    {
        match bands_of(alloc, w, h, bytes) {
            Ok(bands) => Ok(ImageData {
                w,
                h,
                generation,
                bands,
            }),
            Err(error) => Err(error),
        }
    }

    /// The image under another generation. The bands are shared.
    fn share(&self, alloc: Global, generation: u64) -> Result<ImageData, AllocError>
        ensures { IfOk result (λ r. r ≡ record self.now { generation = generation }) }
    {
        let bands = shared_bands(alloc, &self.bands)?;
        Ok(ImageData {
            w: self.w,
            h: self.h,
            generation,
            bands,
        })
    }

    /// The image with a rectangle of its texels replaced. Bands without a row of it are shared.
    pub(crate) fn updated(
        &self,
        alloc: Global,
        generation: u64,
        patch: Patch,
        bytes: &[u8],
    ) -> Result<ImageData, StoreError>
        requires right { patch.x + patch.w ≤ self.now.w }
        requires below { patch.y + patch.h ≤ self.now.h }
        requires texels { length bytes.now ≡ patch.h * (4 * patch.w) }
        ensures image { Makes result (updated_image generation patch (pixels bytes.now) self.now) }
        ensures within { IfErr result (λ e. NamesTexelBelow (patch.h * patch.w) e) }
    {
        let _ = self.w();
        let mut next = self.share(alloc, generation)?;
        let over = next.write_rows(patch, bytes)?;
        match first_bad_where(over, bytes, 0) {
            Some(i) => Err(StoreError::BadPixels(i as u32)),
            None => Ok(next),
        }
    }

    /// A rectangle's texels, tested as they are written. Gives 0 exactly where all are premultiplied.
    fn write_rows(&mut self, patch: Patch, bytes: &[u8]) -> Result<u8, AllocError>
        requires right { patch.x + patch.w ≤ self.old.w }
        requires below { patch.y + patch.h ≤ self.old.h }
        requires texels { length bytes.now ≡ patch.h * (4 * patch.w) }
        ensures patched { OnOk result (HasPixels (pixels bytes.now) → self.new ≡ patched patch (pixels bytes.now) self.old) }
        ensures over { IfOk result (λ over. over ≡ 0 ↔ HasPixels (pixels bytes.now)) }
    {
        let _ = self.w();
        let size = 4 * usize::from(patch.w);
        let mut rest = bytes;
        let mut over = 0u8;
        for row in 0..patch.h {
            let (line, below) = rest.split_at(size);
            over = over.max(self.write_row(patch.x, patch.y + row, line)?);
            rest = below;
        }
        Ok(over)
    }

    pub(crate) fn w(&self) -> u16
        ensures value { result ≡ self.now.w }
        ensures image { IsImage self.now }
    {
        self.w
    }

    pub(crate) fn h(&self) -> u16
        ensures { result ≡ self.now.h }
    {
        self.h
    }

    pub(crate) fn generation(&self) -> u64
        ensures { result ≡ self.now.generation }
    {
        self.generation
    }

    /// The colour at a column and row.
    pub(crate) fn texel(&self, x: u16, y: u16) -> Px
        requires column { x < self.now.w }
        requires row { y < self.now.h }
        ensures { result ≡ texel_of self.now x y }
    {
        let start = usize::from(y % ROWS) * usize::from(self.w());
        self.band(y).texel(start + usize::from(x))
    }

    /// A row of one plane.
    pub(crate) fn row(&self, plane: Plane, y: u16) -> &[u8]
        requires { y < self.now.h }
        ensures len { length result.now ≡ self.now.w }
        ensures bytes { (x : ℕ) → x < self.now.w → slice_index result.now x ≡ channel plane (texel_of self.now x y) }
    {
        let width = usize::from(self.w());
        let start = usize::from(y % ROWS) * width;
        let bytes = self.band(y).plane(plane);
        &bytes[start..start + width]
    }

    /// Whether each texel hides what is below it.
    pub(crate) fn opaque(&self) -> bool
        ensures { IsTrue result ↔ AreOpaque self.now.texels }
    {
        are_opaque(&self.bands)
    }

    /// The band of a row.
    fn band(&self, y: u16) -> &Band
        requires { y < self.now.h }
        ensures room { y % 64 * self.now.w + self.now.w ≤ length result.now }
        ensures texels { (x : ℕ) → x < self.now.w → nth_pixel result.now (y % 64 * self.now.w + x) ≡ texel_of self.now x y }
    {
        &self.bands[usize::from(y / ROWS)]
    }

    /// Colours into a row from a column on, tested as they are written. A band that others hold too is copied first.
    fn write_row(&mut self, x: u16, y: u16, bytes: &[u8]) -> Result<u8, AllocError>
        requires whole { length bytes.now ≡ 4 * (length bytes.now / 4) }
        requires row { y < self.old.h }
        requires room { x + length bytes.now / 4 ≤ self.old.w }
        ensures row { OnOk result (HasPixels (pixels bytes.now) → self.new ≡ with_row x y (pixels bytes.now) self.old) }
        ensures wide { self.new.w ≡ self.old.w }
        ensures high { self.new.h ≡ self.old.h }
        ensures over { IfOk result (λ over. over ≡ 0 ↔ HasPixels (pixels bytes.now)) }
    {
        let at = usize::from(y % ROWS) * usize::from(self.w) + usize::from(x);
        let band = &mut self.bands[usize::from(y / ROWS)];
        write_shared(band, at, bytes)
    }
}

/// Other colours into a band, which is copied first if it has other owners.
fn write_shared(band: &mut Rc<Band>, at: usize, bytes: &[u8]) -> Result<u8, AllocError>
    requires whole { length bytes.now ≡ 4 * (length bytes.now / 4) }
    requires room { at + length bytes.now / 4 ≤ length band.old.value }
    requires old { HasPixels band.old.value }
    ensures ok { OnOk result (HasPixels (pixels bytes.now) → band.new.value ≡ written band.old.value at (pixels bytes.now)) }
    ensures err { OnErr result (band.new.value ≡ band.old.value) }
    ensures len { length band.new.value ≡ length band.old.value }
    ensures new { HasPixels band.new.value }
    ensures over { IfOk result (λ over. over ≡ 0 ↔ HasPixels (pixels bytes.now)) }
{
    let own = Rc::make_mut(band)?;
    Ok(own.write(at, bytes))
}

/// More owners of bands.
fn shared_bands(alloc: Global, bands: &[Rc<Band>]) -> Result<Vec<Rc<Band>>, AllocError>
    ensures { IfOk result (λ shared. values shared.items ≡ values bands.now) }
{
    let mut shared = Vec::with_capacity(alloc, bands.len())?;
    for band in bands {
        shared.push(band.clone()?)?;
    }
    Ok(shared)
}

fn are_opaque(bands: &[Rc<Band>]) -> bool
    ensures { IsTrue result ↔ AreOpaque (joined (values bands.now)) }
{
    for band in bands {
        if !band.opaque() {
            return false;
        }
    }
    true
}
