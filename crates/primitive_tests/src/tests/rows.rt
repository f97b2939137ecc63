//! Rows of colours against the colours at their points.

ghost use Rattle.std.specs.Prelude.{◌≤◌, length};

use super::made::{BLUE, RED, grey, on_a_store};
use blend_rules::{Plane, Px};
use containers::Sequence;
use image_store::{Gens, Store, StoreError};
use primitives::{GlyphUse, Kind, Primitive, colour_at, colour_row};
use std::alloc::{AllocError, Global};
use wr_geom::{Radii, Rect, Widths};

const ORANGE: Px = Px {
    b: 10,
    g: 90,
    r: 150,
    a: 200,
};

const TEXELS: [u8; 40] = [
    1, 2, 3, 4, 5, 6, 7, 8, 9, 10, 11, 12, 13, 14, 15, 16, 17, 18, 19, 20, //
    21, 22, 23, 24, 25, 26, 27, 28, 29, 30, 31, 32, 33, 34, 35, 36, 37, 38, 39, 40,
];

const WIDE: [u8; 40] = [
    0, 13, 26, 39, 52, 65, 78, 91, 104, 117, 130, 143, 156, 169, 182, 195, 208, 221, 234, 255, //
    255, 1, 254, 2, 253, 3, 252, 4, 251, 5, 250, 6, 249, 7, 248, 8, 247, 9, 246, 10,
];

/// Adds an image of 5 by 2 texels under the key 9 of pipeline 1, and glyphs of font (1, 3): glyph 5 of 20 by 2 pixels, and
/// glyph 7 of 2 by 3.
fn add_all(store: &mut Store) -> Result<(), StoreError> {
    let mut gens = Gens::new();
    store.add_image(&mut gens, 1, 9, 5, 2, &TEXELS)?;
    store.add_glyph(&mut gens, 1, 3, 5, 20, 2, &WIDE)?;
    store.add_glyph(&mut gens, 1, 3, 7, 2, 3, &[100, 200, 128, 255, 0, 50])
}

/// Whether each byte of a row from (x0, y) on is that of the colour at its point.
fn has_colours(p: &Primitive, store: &Store, plane: Plane, x0: i8, y: i8, row: &[u8]) -> bool
    requires { length row.now ≤ 64 }
{
    for i in 0..row.len() {
        let colour = colour_at(p, store, x0 as i32 + i as i32, y as i32);
        if row[i] != colour.channel(plane) {
            return false;
        }
    }
    true
}

/// Whether the row of 40 pixels from (x0, y) on has the colours of its points, in each plane.
fn is_row(p: &Primitive, store: &Store, x0: i8, y: i8) -> bool {
    for plane in [Plane::B, Plane::G, Plane::R, Plane::A] {
        let mut row = [77; 40];
        colour_row(p, store, plane, y as i32, x0 as i32, &mut row);
        if !has_colours(p, store, plane, x0, y, &row) {
            return false;
        }
    }
    true
}

/// Whether rows above, in and below a primitive in the rectangle from (-3, 2) to (29, 6) have the colours of their points:
/// rows that begin left of it, in it, at its last column and beyond it.
fn are_rows(p: &Primitive, store: &Store) -> bool {
    for y in [1, 2, 3, 4, 5, 6] {
        for x0 in [-50, -20, -7, -3, -2, 1, 4, 28, 29, 60] {
            if !is_row(p, store, x0, y) {
                return false;
            }
        }
    }
    true
}

/// Whether the rows of a kind in that rectangle do. None where it doesn't fit.
fn agree(alloc: Global, kind: Kind, rect: Rect, store: &Store) -> Option<bool> {
    let p = Primitive::new(kind, rect, Sequence::new(alloc))?;
    Some(are_rows(&p, store))
}

/// An image of pipeline 1 from its texel (13, 3) on.
fn image(key: u32, generation: Option<u64>) -> Kind {
    Kind::Image {
        pipeline: 1,
        key,
        generation,
        u: 13,
        v: 3,
    }
}

/// Whether the rows of images do, of one without a generation, and of one that is absent.
fn image_rows(alloc: Global, store: &mut Store) -> Option<bool> {
    add_all(store).ok()?;
    let place = Rect::new(-3, 2, 29, 6)?;
    let used = agree(alloc, image(9, Some(1)), place, store)?;
    let unset = agree(alloc, image(9, None), place, store)?;
    Some(used && unset && agree(alloc, image(8, Some(1)), place, store)?)
}

#[test]
fn image_rows_have_their_colours(rt: HostRuntime) {
    assert!(rt; on_a_store(rt.alloc(), image_rows));
}

/// A border with four colours and two round corners.
fn border() -> Kind {
    Kind::Border {
        widths: Widths {
            top: 1,
            right: 3,
            bottom: 1,
            left: 2,
        },
        top: RED,
        right: ORANGE,
        bottom: BLUE,
        left: grey(9),
        radii: Radii {
            tl: (4, 2),
            br: (7, 3),
            ..Radii::SQUARE
        },
    }
}

/// Whether the rows of a solid do, and those of a border.
fn shape_rows(alloc: Global, store: &mut Store) -> Option<bool> {
    let place = Rect::new(-3, 2, 29, 6)?;
    let solid = agree(alloc, Kind::Solid(ORANGE), place, store)?;
    Some(solid && agree(alloc, border(), place, store)?)
}

#[test]
fn solid_and_border_rows_have_their_colours(rt: HostRuntime) {
    assert!(rt; on_a_store(rt.alloc(), shape_rows));
}

fn glyph(glyph: u16, x: i32, y: i32, generation: Option<u64>) -> GlyphUse {
    GlyphUse {
        glyph,
        x,
        y,
        generation,
    }
}

/// A text with glyphs that overlap, that are absent or without a generation, and that lie outside.
fn text(alloc: Global) -> Result<Kind, AllocError> {
    let glyphs = [
        glyph(5, -15, 1, Some(2)),
        glyph(6, 0, 3, Some(9)),
        glyph(5, -2, 3, Some(2)),
        glyph(7, 3, 2, Some(3)),
        glyph(7, 4, 3, None),
        glyph(5, 20, 5, Some(2)),
        glyph(7, 400_000_000, 3, Some(3)),
    ];
    Ok(Kind::Text {
        pipeline: 1,
        font: 3,
        colour: ORANGE,
        glyphs: Sequence::from_vec(Vec::from_slice(alloc, &glyphs)?),
    })
}

/// Whether its rows do.
fn text_rows(alloc: Global, store: &mut Store) -> Option<bool> {
    add_all(store).ok()?;
    let place = Rect::new(-3, 2, 29, 6)?;
    agree(alloc, text(alloc).ok()?, place, store)
}

#[test]
fn text_rows_have_their_colours(rt: HostRuntime) {
    assert!(rt; on_a_store(rt.alloc(), text_rows));
}
