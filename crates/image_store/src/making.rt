//! Bands out of an image's bytes.

ghost use Rattle.std.specs.Prelude.{◌≡◌, ◌<◌, ◌≤◌, ◌+◌, ◌*◌, ◌/◌, ◌^◌, length, IfOk, IfErr, None};
ghost use Rattle.blend_rules.specs.Pixels.{pixels};
ghost use Rattle.image_store.specs.Models.{IsSide};
ghost use Rattle.image_store.specs.Bands.{HasPixels, tested, values, joined, AreImageBands};
ghost use Rattle.image_store.specs.Changes.{bad_from, first_bad};
ghost use Rattle.image_store.specs.Outcome.{Refuses, NamesTexelBelow};

use crate::StoreError;
use crate::band::Band;
use std::alloc::Global;
use std::rc::Rc;

/// A band of texels, the first of which has a number.
fn band_of(alloc: Global, bytes: &[u8], number: usize) -> Result<Rc<Band>, StoreError>
    requires whole { length bytes.now ≡ 4 * (length bytes.now / 4) }
    requires room { number + length bytes.now / 4 ≤ 2 ^ 32 }
    ensures value { IfOk result (λ band. band.value ≡ pixels bytes.now) }
    ensures pixels { IfOk result (λ band. HasPixels (pixels bytes.now)) }
    ensures sound { IfOk result (λ band. bad_from number (pixels bytes.now) ≡ None) }
    ensures refused { IfErr result (λ e. Refuses e (tested (bad_from number (pixels bytes.now)))) }
    ensures within { IfErr result (λ e. NamesTexelBelow (number + length bytes.now / 4) e) }
{
    match Band::new(alloc, bytes, number) {
        Ok(band) => Ok(Rc::new(alloc, band)?),
        Err(error) => Err(error),
    }
}

/// The bands of all rows.
pub(crate) fn bands_of(
    alloc: Global,
    w: u16,
    h: u16,
    bytes: &[u8],
) -> Result<Vec<Rc<Band>>, StoreError>
    requires wide { IsSide w }
    requires high { IsSide h }
    requires whole { length bytes.now ≡ h * (4 * w) }
    ensures image { IfOk result (λ bands. AreImageBands w h (values bands.items)) }
    ensures value { IfOk result (λ bands. joined (values bands.items) ≡ pixels bytes.now) }
    ensures sound { IfOk result (λ bands. first_bad (pixels bytes.now) ≡ None) }
    ensures refused { IfErr result (λ e. Refuses e (tested (first_bad (pixels bytes.now)))) }
    ensures within { IfErr result (λ e. NamesTexelBelow (h * w) e) }
{
    let size = 64 * usize::from(w);
    let count = (usize::from(h) + 63) / 64;
    let mut bands = Vec::with_capacity(alloc, count)?;
    let mut rest = bytes;
    for k in 0..count {
        let (part, below) = rest.split_at(rest.len().min(4 * size));
        let band = match band_of(alloc, part, k * size) {
            Ok(band) => band,
            Err(error) => return Err(error),
        };
        bands.push(band)?;
        rest = below;
    }
    Ok(bands)
}
