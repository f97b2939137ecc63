//! Primitives, stores and rows of colours that the tests share.

use blend_rules::Px;
use containers::Sequence;
use image_store::{Gens, Store, StoreError};
use primitives::{Kind, Primitive, colour_at, is_opaque};
use std::alloc::Global;
use wr_geom::Rect;

pub(crate) const RED: Px = Px {
    b: 0,
    g: 0,
    r: 255,
    a: 255,
};

pub(crate) const BLUE: Px = Px {
    b: 255,
    g: 0,
    r: 0,
    a: 255,
};

pub(crate) fn grey(level: u8) -> Px {
    Px {
        b: level,
        g: level,
        r: level,
        a: level,
    }
}

/// What a check answers on a new store. False where it answers nothing.
pub(crate) fn on_a_store<F: FnOnce(Global, &mut Store) -> Option<bool>>(
    alloc: Global,
    check: F,
) -> bool
    requires { F.IsAlwaysCallable check }
{
    let mut store = Store::new(alloc);
    check(alloc, &mut store) == Some(true)
}

/// Adds the images 9 and 8 of pipeline 1: 2 by 2 texels, grey 1 and 2 above 3 and 4, and a white one.
pub(crate) fn add_images(store: &mut Store) -> Result<(), StoreError> {
    let mut gens = Gens::new();
    let bytes = [1, 1, 1, 1, 2, 2, 2, 2, 3, 3, 3, 3, 4, 4, 4, 4];
    store.add_image(&mut gens, 1, 9, 2, 2, &bytes)?;
    store.add_image(&mut gens, 1, 8, 1, 1, &[255, 255, 255, 255])
}

/// Adds the glyphs 5 and 7 of font (1, 3): 2 by 1 pixels of 1 and 200, and one pixel of 128.
pub(crate) fn add_glyphs(store: &mut Store) -> Result<(), StoreError> {
    let mut gens = Gens::new();
    store.add_glyph(&mut gens, 1, 3, 5, 2, 1, &[1, 200])?;
    store.add_glyph(&mut gens, 1, 3, 7, 1, 1, &[128])
}

/// Four colours of a row, from (x, y) on.
pub(crate) fn four(p: &Primitive, store: &Store, x: i8, y: i8) -> [Px; 4] {
    let (x, y) = (x as i32, y as i32);
    [
        colour_at(p, store, x, y),
        colour_at(p, store, x + 1, y),
        colour_at(p, store, x + 2, y),
        colour_at(p, store, x + 3, y),
    ]
}

/// Four colours of a row of a primitive without clips, from (x, y) on. None where the kind doesn't fit the rectangle.
pub(crate) fn four_of(
    alloc: Global,
    kind: Kind,
    rect: Rect,
    store: &Store,
    x: i8,
    y: i8,
) -> Option<[Px; 4]> {
    let p = Primitive::new(kind, rect, Sequence::new(alloc))?;
    Some(four(&p, store, x, y))
}

/// Whether a primitive without clips is opaque. None where the kind doesn't fit the rectangle.
pub(crate) fn opaque(alloc: Global, kind: Kind, rect: Rect, store: &Store) -> Option<bool> {
    let p = Primitive::new(kind, rect, Sequence::new(alloc))?;
    Some(is_opaque(&p, store))
}
