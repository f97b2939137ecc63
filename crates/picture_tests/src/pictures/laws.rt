//! Laws of frames that hold whatever is drawn, tried on scenes by a generator.

use super::colours::{BLUE, GREEN, RED, WHITE, grey};
use super::frames::frame_at;
use super::operations::{add_glyph, add_image, list, scroll, shift, tiles, view};
use super::parts::Part::Solid;
use super::parts::{NONE, Part, ROOT};
use super::replayed;
use super::scenes::{Extra, VIEW, scene};
use super::transactions::{file_of, sent, shown, transaction};
use std::alloc::Global;
use std::process::Abort;
use std::test::Fail;

/// How many scenes are tried.
const SCENES: u64 = 300;

/// The list of the pipeline that scenes show in Iframes.
const INNER: [Part<'static>; 2] = [
    Solid(ROOT, NONE, [1, 1, 5, 5], [0, 90, 0, 100]),
    Solid(ROOT, NONE, [3, 0, 6, 4], [20, 0, 60, 200]),
];

/// What is sent before the list of a scene: a view, small tiles, an image, a glyph, positions and an offset.
fn resources(alloc: Global) -> Result<Vec<u8>, Fail> {
    let texels = [RED, GREEN, BLUE, [9, 9, 9, 90]];
    let image = add_image(alloc, 9, [2, 2], &texels)?;
    let glyph = add_glyph(alloc, 5, [2, 2], &[50, 100, 200, 255])?;
    let (down, aside) = (scroll(1, [0, 3]), scroll(2, [2, 0]));
    let (view, small) = (view([8, 8], WHITE), tiles(64, 255));
    let moved = shift(7, [-1, 1]);
    sent(
        alloc,
        &[&view, &small, &image, &glyph, &down, &aside, &moved],
    )
}

/// The pixels of a frame of these parts.
fn pixels(rt: &(impl Abort + AllocGlobal), parts: &[Part<'_>]) -> Result<Vec<u8>, Fail> {
    let inner = list(rt.alloc(), 2, &INNER)?;
    let inner = transaction(rt.alloc(), 2, false, &[&inner])?;
    let outer = list(rt.alloc(), 1, parts)?;
    let outer = shown(rt.alloc(), &[&outer])?;
    let input = file_of(rt.alloc(), &[&inner, &resources(rt.alloc())?, &outer])?;
    let told = replayed(rt, input, 4096)?;
    let frame = frame_at(&told, 2).ok_or("a frame")?;
    Ok(frame.bytes().to_vec(rt.alloc())?)
}

/// The frames of the scenes stay as they are with something after each item.
fn changes_nothing(rt: &(impl Abort + AllocGlobal), extra: Extra) -> Result<(), Fail> {
    for seed in 0..SCENES {
        let plain = scene(rt.alloc(), seed, Extra::Nothing)?;
        let more = scene(rt.alloc(), seed, extra)?;
        assert_eq!(rt; pixels(rt, &more)?, pixels(rt, &plain)?, "scene {seed}");
    }
    Ok(())
}

#[test]
fn an_empty_context_changes_nothing(rt: HostRuntime) -> Result<(), Fail> {
    changes_nothing(&rt, Extra::Context)
}

#[test]
fn a_hit_area_changes_nothing(rt: HostRuntime) -> Result<(), Fail> {
    changes_nothing(&rt, Extra::Area)
}

#[test]
fn an_item_outside_of_the_view_changes_nothing(rt: HostRuntime) -> Result<(), Fail> {
    changes_nothing(&rt, Extra::Outside)
}

#[test]
fn an_iframe_without_a_list_changes_nothing(rt: HostRuntime) -> Result<(), Fail> {
    changes_nothing(&rt, Extra::Iframe)
}

#[test]
fn an_opaque_solid_hides_all_before_it(rt: HostRuntime) -> Result<(), Fail> {
    let colour = grey(77);
    let want = vec![in rt.alloc(); colour; 64]?;
    for seed in 0..SCENES {
        let mut list = scene(rt.alloc(), seed, Extra::Nothing)?;
        list.push(Solid(ROOT, NONE, VIEW, colour))?;
        let told = pixels(&rt, &list)?;
        assert_eq!(rt; told.as_slice(), want.as_flattened(), "scene {seed}");
    }
    Ok(())
}
