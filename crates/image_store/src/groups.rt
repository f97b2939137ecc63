//! The images of all pipelines, and the masks of all fonts.

ghost use Rattle.std.specs.Prelude.{◌≡◌, ◌-◌, ◌^◌, min, OnOk, OnErr};
ghost use Rattle.std.specs.FinMap as map;
ghost use Rattle.image_store.specs.Models.{IsImage, image_area, mask_area};
ghost use Rattle.image_store.specs.StoreModel.{or_empty, put_group, sum_of};

use crate::keyed_images::KeyedImages;
use crate::keyed_masks::KeyedMasks;
use crate::{Image, Mask};
use containers::{NumberMap, PairMap};
use std::alloc::{AllocError, Global};

/// Puts an image at a pipeline and key, in the place of what stood there.
pub(crate) fn put_image(
    alloc: Global,
    pipelines: &mut NumberMap<KeyedImages>,
    pipeline: u32,
    key: u32,
    image: Image,
) -> Result<(), AllocError>
    ensures ok { OnOk result (pipelines.new ≡ map.insert pipelines.old pipeline (map.insert (or_empty (map.get pipelines.old pipeline)) key image)) }
    ensures err { OnErr result (pipelines.new ≡ pipelines.old) }
    ensures image { OnOk result (IsImage image) }
{
    match pipelines.get_mut(pipeline) {
        Some(images) => {
            images.insert(key, image)?;
            Ok(())
        }
        None => {
            let mut images = KeyedImages::new(alloc);
            images.insert(key, image)?;
            pipelines.insert(pipeline, images)
        }
    }
}

/// Removes the image of a pipeline and key, and the pipeline with its last image.
pub(crate) fn remove_image(pipelines: &mut NumberMap<KeyedImages>, pipeline: u32, key: u32)
    ensures { pipelines.new ≡ put_group pipelines.old pipeline (map.remove (or_empty (map.get pipelines.old pipeline)) key) }
{
    let left = match pipelines.get_mut(pipeline) {
        Some(images) => {
            images.remove(key);
            images.len()
        }
        None => 0,
    };
    if left == 0 {
        pipelines.remove(pipeline);
    }
}

/// Puts a mask at a font and glyph, in the place of what stood there.
pub(crate) fn put_mask(
    alloc: Global,
    fonts: &mut PairMap<KeyedMasks>,
    font: (u32, u32),
    glyph: u32,
    mask: Mask,
) -> Result<(), AllocError>
    ensures ok { OnOk result (fonts.new ≡ map.insert fonts.old font (map.insert (or_empty (map.get fonts.old font)) glyph mask)) }
    ensures err { OnErr result (fonts.new ≡ fonts.old) }
{
    match fonts.get_mut(font) {
        Some(masks) => {
            masks.insert(glyph, mask)?;
            Ok(())
        }
        None => {
            let mut masks = KeyedMasks::new(alloc);
            masks.insert(glyph, mask)?;
            fonts.insert(font, masks)
        }
    }
}

/// The pixels of all images, `u64::MAX` where they are more.
pub(crate) fn area_of_images(pipelines: &NumberMap<KeyedImages>) -> u64
    ensures { result ≡ min (2 ^ 64 - 1) (sum_of (sum_of image_area) pipelines.now) }
{
    let mut area = 0u64;
    for (_, images) in pipelines.iter() {
        area = area.saturating_add(images.area());
    }
    area
}

/// The pixels of all masks, `u64::MAX` where they are more.
pub(crate) fn area_of_masks(fonts: &PairMap<KeyedMasks>) -> u64
    ensures { result ≡ min (2 ^ 64 - 1) (sum_of (sum_of mask_area) fonts.now) }
{
    let mut area = 0u64;
    for (_, masks) in fonts.iter() {
        area = area.saturating_add(masks.area());
    }
    area
}
