//! Images that repeat, and uses that draw nothing.

use super::made::{add_images, four_of, grey, on_a_store, opaque};
use blend_rules::Px;
use image_store::Store;
use primitives::{Kind, image_colour_at};
use std::alloc::Global;
use wr_geom::Rect;

/// An image of pipeline 1, from its texel (3, 4) on.
fn image(key: u32, generation: Option<u64>) -> Kind {
    Kind::Image {
        pipeline: 1,
        key,
        generation,
        u: 3,
        v: 4,
    }
}

/// Whether the texels of image 9 repeat within the rectangle.
fn repeats(alloc: Global, store: &mut Store) -> Option<bool> {
    add_images(store).ok()?;
    let place = Rect::new(-1, -1, 3, 3)?;
    let first = four_of(alloc, image(9, Some(1)), place, store, -1, -1)?;
    let last = four_of(alloc, image(9, Some(1)), place, store, 0, 2)?;
    Some(
        first == [grey(2), grey(1), grey(2), grey(1)]
            && last == [grey(3), grey(4), grey(3), Px::CLEAR],
    )
}

#[test]
fn an_image_repeats(rt: HostRuntime) {
    assert!(rt; on_a_store(rt.alloc(), repeats));
}

/// Whether a use without a generation is clear, and one of an absent image.
fn is_clear(alloc: Global, store: &mut Store) -> Option<bool> {
    add_images(store).ok()?;
    let place = Rect::new(-1, -1, 3, 3)?;
    let unset = four_of(alloc, image(9, None), place, store, -1, 0)?;
    let missing = four_of(alloc, image(7, Some(1)), place, store, -1, 0)?;
    Some(unset == [Px::CLEAR; 4] && missing == [Px::CLEAR; 4])
}

#[test]
fn a_use_without_a_generation_is_clear(rt: HostRuntime) {
    assert!(rt; on_a_store(rt.alloc(), is_clear));
}

/// Whether the white image is opaque where it is used, and neither where it isn't nor another.
fn tells_opaque_images(alloc: Global, store: &mut Store) -> Option<bool> {
    add_images(store).ok()?;
    let place = Rect::new(-1, -1, 3, 3)?;
    let used = opaque(alloc, image(8, Some(7)), place, store)?;
    let unset = opaque(alloc, image(8, None), place, store)?;
    Some(used && !unset && !opaque(alloc, image(9, Some(1)), place, store)?)
}

#[test]
fn an_opaque_image_is_opaque_where_it_is_used(rt: HostRuntime) {
    assert!(rt; on_a_store(rt.alloc(), tells_opaque_images));
}

/// Whether a stored image has its colours, and an absent one none.
fn has_colours(_alloc: Global, store: &mut Store) -> Option<bool> {
    add_images(store).ok()?;
    let place = Rect::new(-1, -1, 3, 3)?;
    let first = image_colour_at(store, 1, 9, place, 3, 4, -1, -1) == grey(2);
    let last = image_colour_at(store, 1, 9, place, 3, 4, 0, 2) == grey(3);
    Some(first && last && image_colour_at(store, 1, 7, place, 3, 4, 0, 2) == Px::CLEAR)
}

#[test]
fn a_stored_image_has_colours(rt: HostRuntime) {
    assert!(rt; on_a_store(rt.alloc(), has_colours));
}
