//! Solid primitives: colours, opacity, and the visible rectangle.

use super::made::{BLUE, RED, four_of, grey, on_a_store, opaque};
use blend_rules::Px;
use clip_masks::Clip;
use containers::Sequence;
use image_store::Store;
use primitives::{Kind, Primitive, colour_laws, visible};
use std::alloc::Global;
use wr_geom::Rect;

/// Whether a solid ends at its rectangle.
fn ends(alloc: Global, store: &mut Store) -> Option<bool> {
    let row = four_of(
        alloc,
        Kind::Solid(RED),
        Rect::new(-2, 3, 0, 5)?,
        store,
        -3,
        4,
    )?;
    Some(row == [Px::CLEAR, RED, RED, Px::CLEAR])
}

#[test]
fn a_solid_ends_at_its_rectangle(rt: HostRuntime) {
    assert!(rt; on_a_store(rt.alloc(), ends));
}

/// Whether a colour that is not premultiplied doesn't fit, and makes no primitive.
fn refuses_bright(alloc: Global, store: &mut Store) -> Option<bool> {
    let place = Rect::new(0, 0, 1, 1)?;
    let bright = Px { a: 254, ..RED };
    let made = opaque(alloc, Kind::Solid(bright), place, store);
    Some(made.is_none() && !Kind::Solid(bright).fits(place))
}

#[test]
fn colours_must_be_premultiplied(rt: HostRuntime) {
    assert!(rt; on_a_store(rt.alloc(), refuses_bright));
    colour_laws();
}

/// Whether a solid of full alpha is opaque, and one of less is not.
fn tells_opaque_solids(alloc: Global, store: &mut Store) -> Option<bool> {
    let place = Rect::new(0, 0, 1, 1)?;
    let full = opaque(alloc, Kind::Solid(BLUE), place, store)?;
    Some(full && !opaque(alloc, Kind::Solid(grey(254)), place, store)?)
}

#[test]
fn a_solid_of_full_alpha_is_opaque(rt: HostRuntime) {
    assert!(rt; on_a_store(rt.alloc(), tells_opaque_solids));
}

/// What is visible of a solid under clips.
fn visible_under(alloc: Global, place: Rect, clips: &[Clip]) -> Option<Rect> {
    let clips = Sequence::from_vec(Vec::from_slice(alloc, clips).ok()?);
    let p = Primitive::new(Kind::Solid(RED), place, clips)?;
    Some(visible(&p))
}

/// Whether a clip of mode in cuts, and one of mode out does not.
fn cuts(alloc: Global) -> Option<bool> {
    let inwards = Clip::of_rect(Rect::new(2, -1, 20, 5)?);
    let outwards = Clip {
        out: true,
        ..Clip::of_rect(Rect::new(4, 4, 6, 6)?)
    };
    let cut = visible_under(alloc, Rect::new(0, 0, 8, 8)?, &[inwards, outwards])?;
    Some(cut == Rect::new(2, 0, 8, 5)?)
}

#[test]
fn clips_of_mode_in_cut(rt: HostRuntime) {
    assert!(rt; cuts(rt.alloc()) == Some(true));
}
