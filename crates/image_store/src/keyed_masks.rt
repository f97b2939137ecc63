//! The masks of one font.

ghost use Rattle.std.specs.Prelude.{◌≡◌, IfOk, OnOk, OnErr};
ghost use Rattle.std.specs.Option.{option_copied};
ghost use Rattle.std.specs.FinMap as map;
ghost use Rattle.image_store.specs.Models.{IsMask, mask_area};
ghost use Rattle.image_store.specs.StoreModel.{sum_of};

use crate::Mask;
use containers::{Exact, NumberMap, Shared};
use std::alloc::{AllocError, Global};
use std::marker::Model;

/// The masks of one font by glyph, which several stores may share, and the number of their pixels.
#[derive(Drop)]
pub(crate) struct KeyedMasks {
    masks: Shared<NumberMap<Mask>>,
    area: u64,
}

impl Model for KeyedMasks {
    ghost use Rattle.std.specs.Coded.{coded_ℕ};
    ghost use Rattle.std.specs.FinMap as map;
    ghost use Rattle.image_store.specs.StoreModel.{Masks};
    ghost use Rattle.image_store.specs.Keyed.{AreKeyedMasks};
    ghost use Rattle.image_store.specs.contracts.mask.Mask as a_mask;

    ghost Value = { Masks };

    ghost coded = { map.code coded_ℕ a_mask.the_row.coded };

    ghost view = { λ s. s.masks };

    ghost invariant = { λ s. AreKeyedMasks s.masks s.area };
}

impl KeyedMasks {
    /// Without a mask. It takes no memory.
    pub(crate) fn new(alloc: Global) -> KeyedMasks
        ensures { result ≡ map.empty }
    {
        KeyedMasks {
            masks: Shared::new(alloc, NumberMap::new(alloc)),
            area: 0,
        }
    }

    /// The mask of a glyph.
    pub(crate) fn get(&self, glyph: u32) -> Option<&Mask>
        ensures { option_copied result ≡ map.get self.now glyph }
    {
        self.masks.get().get(glyph)
    }

    /// The pixels of all masks.
    pub(crate) fn area(&self) -> u64
        ensures { result ≡ sum_of mask_area self.now }
    {
        self.area
    }

    /// Puts a mask at a glyph, in the place of what stood there. The map is copied first if it has other owners.
    pub(crate) fn insert(&mut self, glyph: u32, mask: Mask) -> Result<(), AllocError>
        ensures ok { OnOk result (self.new ≡ map.insert self.old glyph mask) }
        ensures err { OnErr result (self.new ≡ self.old) }
    {
        let area = self.area_with(glyph, &mask)?;
        put(&mut self.masks, glyph, mask)?;
        self.area = area;
        Ok(())
    }

    /// The pixels of all masks, with one at a glyph.
    fn area_with(&self, glyph: u32, mask: &Mask) -> Result<u64, AllocError>
        ensures { IfOk result (λ area. area ≡ sum_of mask_area (map.insert self.now glyph mask.now)) }
    {
        match self.area_without(glyph).checked_add(area_of(mask)) {
            Some(area) => Ok(area),
            None => Err(AllocError),
        }
    }

    /// The pixels of all masks, without the one at a glyph.
    fn area_without(&self, glyph: u32) -> u64
        ensures { result ≡ sum_of mask_area (map.remove self.now glyph) }
    {
        match self.get(glyph) {
            Some(mask) => self.area - area_of(mask),
            None => self.area,
        }
    }
}

impl Clone for KeyedMasks {
    ghost use Rattle.std.specs.Prelude.{◌≡◌};

    ghost is_clone = { λ x y. y ≡ x };

    fn clone(&self) -> Result<KeyedMasks, AllocError> {
        let masks = self.masks.share()?;
        Ok(KeyedMasks {
            masks,
            area: self.area,
        })
    }
}

impl Exact for KeyedMasks {
    ghost exact = { λ x y e. e };
}

/// The pixels of a mask.
fn area_of(mask: &Mask) -> u64
    ensures area { result ≡ mask_area mask.now }
    ensures mask { IsMask mask.now }
{
    u64::from(mask.w()) * u64::from(mask.h())
}

/// Puts a mask into the map, which is copied first if it has other owners.
fn put(masks: &mut Shared<NumberMap<Mask>>, glyph: u32, mask: Mask) -> Result<(), AllocError>
    ensures ok { OnOk result (masks.new ≡ map.insert masks.old glyph mask) }
    ensures err { OnErr result (masks.new ≡ masks.old) }
{
    masks.write()?.insert(glyph, mask)?;
    Ok(())
}
