//! What the lists are made of.

use blend_rules::Px;
use clip_masks::{Clip, Rounded};
use containers::Sequence;
use image_store::{Gens, Store, StoreError};
use primitives::{GlyphUse, Kind};
use std::alloc::{AllocError, Global};
use wr_geom::{Radii, Rect};

/// The sides of the planes, in pixels.
pub const WIDTH: u16 = 1280;

pub const HEIGHT: u16 = 800;

/// The planes' rectangle.
pub fn whole() -> Rect {
    Rect::new(0, 0, i32::from(WIDTH), i32::from(HEIGHT)).unwrap()
}

pub fn no_clips(alloc: Global) -> Sequence<Clip> {
    Sequence::new(alloc)
}

/// A clip of that rectangle with corners of half its height.
pub fn circle(alloc: Global) -> Result<Sequence<Clip>, AllocError> {
    let corner = (HEIGHT / 2, HEIGHT / 2);
    let radii = Radii {
        tl: corner,
        tr: corner,
        br: corner,
        bl: corner,
    };
    let shape = Rounded::new(whole(), radii).unwrap_or(Rounded::of_rect(whole()));
    let mut clips = Sequence::new(alloc);
    clips.push(Clip { shape, out: false })?;
    Ok(clips)
}

/// The stored image of a key, which has its number as generation.
pub fn image(key: u8) -> Kind {
    Kind::Image {
        pipeline: 1,
        key: u32::from(key),
        generation: Some(u64::from(key)),
        u: 3,
        v: 5,
    }
}

/// The stored glyph, which covers the planes.
pub fn glyph(alloc: Global, colour: Px) -> Result<Kind, AllocError> {
    let mut glyphs = Sequence::new(alloc);
    glyphs.push(GlyphUse {
        glyph: 5,
        x: 0,
        y: 0,
        generation: Some(3),
    })?;
    Ok(Kind::Text {
        pipeline: 1,
        font: 3,
        colour,
        glyphs,
    })
}

/// A store with an opaque image of 256 by 256 texels, key 1, one that isn't opaque, key 2, and a glyph of 1280 by 800
/// pixels.
pub fn stored(alloc: Global) -> Result<Store, StoreError> {
    let mut store = Store::new(alloc);
    let mut gens = Gens::new();
    let opaque = vec![in alloc; 255; 262_144]?;
    let other = vec![in alloc; 128; 262_144]?;
    let mask = vec![in alloc; 200; 1_024_000]?;
    store.add_image(&mut gens, 1, 1, 256, 256, &opaque)?;
    store.add_image(&mut gens, 1, 2, 256, 256, &other)?;
    store.add_glyph(&mut gens, 1, 3, 5, WIDTH, HEIGHT, &mask)?;
    Ok(store)
}
