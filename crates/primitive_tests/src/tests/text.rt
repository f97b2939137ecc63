//! Glyphs of a text.

use super::made::{RED, add_glyphs, four_of, grey, on_a_store, opaque};
use blend_rules::Px;
use containers::Sequence;
use image_store::Store;
use primitives::{GlyphUse, Kind, glyph_over};
use std::alloc::{AllocError, Global};
use wr_geom::{Point, Rect};

fn glyph(glyph: u16, x: i32, generation: Option<u64>) -> GlyphUse {
    GlyphUse {
        glyph,
        x,
        y: 0,
        generation,
    }
}

/// White text of three glyphs.
fn text(alloc: Global, glyphs: &[GlyphUse; 3]) -> Result<Kind, AllocError> {
    Ok(Kind::Text {
        pipeline: 1,
        font: 3,
        colour: grey(255),
        glyphs: Sequence::from_vec(Vec::from_slice(alloc, glyphs)?),
    })
}

/// Four pixels from (x, 0) on of such text in the rectangle from (0, 0) to (8, 1).
fn row(alloc: Global, glyphs: &[GlyphUse; 3], store: &Store, x: i8) -> Option<[Px; 4]> {
    let place = Rect::new(0, 0, 8, 1)?;
    four_of(alloc, text(alloc, glyphs).ok()?, place, store, x, 0)
}

/// Whether glyphs are blended in order: 1, and 128 over it. The other order would give 128.
fn blends_in_order(alloc: Global, store: &mut Store) -> Option<bool> {
    add_glyphs(store).ok()?;
    let glyphs = [
        glyph(5, 2, Some(1)),
        glyph(6, 2, Some(1)),
        glyph(7, 2, Some(2)),
    ];
    let blended = row(alloc, &glyphs, store, 1)? == [Px::CLEAR, grey(129), grey(200), Px::CLEAR];
    let place = Rect::new(0, 0, 8, 1)?;
    Some(blended && !opaque(alloc, text(alloc, &glyphs).ok()?, place, store)?)
}

#[test]
fn glyphs_are_blended_in_order(rt: HostRuntime) {
    assert!(rt; on_a_store(rt.alloc(), blends_in_order));
}

/// Whether a glyph without a generation is not drawn, and one that is absent.
fn draws_the_last(alloc: Global, store: &mut Store) -> Option<bool> {
    add_glyphs(store).ok()?;
    let glyphs = [
        glyph(7, 0, None),
        glyph(8, 1, Some(1)),
        glyph(7, 3, Some(9)),
    ];
    Some(row(alloc, &glyphs, store, 0)? == [Px::CLEAR, Px::CLEAR, Px::CLEAR, grey(128)])
}

#[test]
fn a_glyph_without_a_generation_is_not_drawn(rt: HostRuntime) {
    assert!(rt; on_a_store(rt.alloc(), draws_the_last));
}

/// Red of this alpha.
fn red(alpha: u8) -> Px {
    Px {
        r: alpha,
        a: alpha,
        ..Px::CLEAR
    }
}

/// Whether stored glyphs are blended one by one.
fn blends_one_by_one(_alloc: Global, store: &mut Store) -> Option<bool> {
    add_glyphs(store).ok()?;
    let at = Point { x: 2, y: 0 };
    let first = glyph_over(store, 1, 3, RED, 5, at, Px::CLEAR, 2, 0);
    let second = glyph_over(store, 1, 3, RED, 6, at, first, 2, 0);
    let third = glyph_over(store, 1, 3, RED, 7, at, second, 2, 0);
    Some([first, second, third] == [red(1), red(1), red(129)])
}

#[test]
fn stored_glyphs_are_blended_one_by_one(rt: HostRuntime) {
    assert!(rt; on_a_store(rt.alloc(), blends_one_by_one));
}
