//! What top items a scene has.

use crate::expected::{Expected, Step, has_tops};
use crate::parts::{ListBytes, NONE};
use crate::stage::{Stage, on_a_stage};
use picture_slices::Slice;
use primitives::{Entry, Kind};
use scene_flatten::{entry_laws, flat_laws, tops};
use scene_slices::scene_slices;
use wr_geom::NoMemory;

/// Whether all was applied, and these are the top items.
fn shows(stage: &Stage, all: &[Expected]) -> Result<bool, NoMemory> {
    Ok(stage.is_whole && has_tops(stage.alloc, &stage.scene, all)?)
}

/// Of no home and without clips.
const LONE: Expected = Expected {
    home: None,
    origin: (0, 0),
    homes: &[],
    steps: &[],
};

const KINDS: [Expected; 4] = [
    Expected {
        steps: &[Step::Draw(1, 5, &[])],
        ..LONE
    },
    Expected {
        steps: &[Step::Draw(2, 0, &[])],
        ..LONE
    },
    Expected {
        steps: &[Step::Draw(3, 0, &[])],
        ..LONE
    },
    Expected {
        steps: &[Step::Draw(4, 0, &[])],
        ..LONE
    },
];

fn kinds(stage: &mut Stage) -> Result<bool, NoMemory> {
    let alloc = stage.alloc;
    let mut list = ListBytes::new(alloc);
    list.solid(0, NONE, 1, 5)?;
    list.image(2, 9)?;
    list.hit_area()?;
    list.border(3)?;
    list.text(0, 4, 5)?;
    list.iframe(0, NONE, 8, 1)?;
    stage.set_list(0, list)?;
    shows(stage, &KINDS)
}

#[test]
fn primitives_are_top_items_and_hit_areas_none(rt: HostRuntime) {
    assert_eq!(rt; on_a_stage(rt.alloc(), kinds), Ok(true));
}

const INSIDE: [Expected; 3] = [
    Expected {
        home: Some((0, 1)),
        origin: (100, -7),
        homes: &[Some((0, 1)), None, Some((0, 1)), Some((0, 1)), Some((0, 1))],
        steps: &[Step::Draw(122, -15, &[110, 30, 120, 121, 123])],
    },
    Expected {
        home: Some((0, 1)),
        origin: (100, -7),
        homes: &[Some((0, 1)), None, Some((0, 1))],
        steps: &[Step::Draw(125, -7, &[110, 30, 120])],
    },
    Expected {
        steps: &[Step::Draw(9, 0, &[])],
        ..LONE
    },
];

/// Pipeline 1 in an Iframe under two clips, of which the scroll frame moves one.
fn around(stage: &mut Stage) -> Result<bool, NoMemory> {
    let alloc = stage.alloc;
    let mut outer = ListBytes::new(alloc);
    outer.frame(0, 100)?;
    outer.scroll_frame(1, 1)?;
    outer.clip(2, 10)?;
    outer.clip(0, 30)?;
    outer.chain(NONE, 0)?;
    outer.chain(0, 1)?;
    outer.iframe(2, 1, 20, 1)?;
    outer.solid(1, NONE, -91, 0)?;
    stage.set_list(0, outer)?;
    let mut inner = ListBytes::new(alloc);
    inner.scroll_frame(0, 2)?;
    inner.clip(0, 1)?;
    inner.clip(1, 3)?;
    inner.chain(NONE, 0)?;
    inner.chain(0, 1)?;
    inner.solid(1, 1, 2, 0)?;
    inner.solid(0, NONE, 5, 0)?;
    stage.set_list(1, inner)?;
    stage.scroll(0, 1, 7)?;
    stage.scroll(1, 2, 8)?;
    shows(stage, &INSIDE)
}

#[test]
fn an_iframe_puts_its_clips_and_home_around(rt: HostRuntime) {
    assert_eq!(rt; on_a_stage(rt.alloc(), around), Ok(true));
}

const TWICE: [Expected; 2] = [
    Expected {
        home: Some((1, 2)),
        origin: (10, -8),
        homes: &[None],
        steps: &[Step::Draw(10, -8, &[10])],
    },
    Expected {
        home: Some((1, 2)),
        origin: (20, -8),
        homes: &[None],
        steps: &[Step::Draw(20, -8, &[20])],
    },
];

/// Pipeline 1, which scrolls, in two Iframes.
fn twice(stage: &mut Stage) -> Result<bool, NoMemory> {
    let alloc = stage.alloc;
    let mut outer = ListBytes::new(alloc);
    outer.iframe(0, NONE, 10, 1)?;
    outer.iframe(0, NONE, 20, 1)?;
    stage.set_list(0, outer)?;
    let mut inner = ListBytes::new(alloc);
    inner.scroll_frame(0, 2)?;
    inner.solid(1, NONE, 0, 0)?;
    stage.set_list(1, inner)?;
    stage.scroll(1, 2, 8)?;
    shows(stage, &TWICE)
}

#[test]
fn a_home_is_where_its_item_meets_it(rt: HostRuntime) {
    assert_eq!(rt; on_a_stage(rt.alloc(), twice), Ok(true));
}

const GROUPED: [Expected; 1] = [Expected {
    home: Some((0, 1)),
    origin: (0, 0),
    homes: &[None],
    steps: &[
        Step::Open(255, &[10]),
        Step::Draw(1, 0, &[]),
        Step::Draw(2, 0, &[10]),
        Step::Open(128, &[]),
        Step::Draw(33, 0, &[10, 30, 31]),
        Step::Close,
        Step::Close,
    ],
}];

/// A group of a chain, with a plain context, and in a second group an Iframe.
fn groups(stage: &mut Stage) -> Result<bool, NoMemory> {
    let alloc = stage.alloc;
    let mut outer = ListBytes::new(alloc);
    outer.scroll_frame(0, 1)?;
    outer.clip(0, 10)?;
    outer.chain(NONE, 0)?;
    outer.push(1, 0, 255, NONE)?;
    outer.push(0, NONE, 255, NONE)?;
    outer.solid(0, NONE, 1, 0)?;
    outer.solid(0, 0, 2, 0)?;
    outer.pop()?;
    outer.push(0, NONE, 128, NONE)?;
    outer.iframe(0, 0, 30, 1)?;
    outer.pop()?;
    outer.pop()?;
    stage.set_list(0, outer)?;
    let mut inner = ListBytes::new(alloc);
    inner.clip(0, 1)?;
    inner.chain(NONE, 0)?;
    inner.solid(0, 0, 3, 0)?;
    stage.set_list(1, inner)?;
    shows(stage, &GROUPED)
}

#[test]
fn a_group_is_one_top_item(rt: HostRuntime) {
    assert_eq!(rt; on_a_stage(rt.alloc(), groups), Ok(true));
}

const PLAIN: [Expected; 1] = [Expected {
    steps: &[Step::Draw(1, 0, &[])],
    ..LONE
}];

const FADED: [Expected; 1] = [Expected {
    steps: &[Step::Open(0, &[]), Step::Draw(1, 0, &[]), Step::Close],
    ..LONE
}];

/// A context whose property isn't set at first, and then is 0.
fn opacities(stage: &mut Stage) -> Result<bool, NoMemory> {
    let alloc = stage.alloc;
    let mut list = ListBytes::new(alloc);
    list.push(0, NONE, 255, 4)?;
    list.solid(0, NONE, 1, 0)?;
    list.pop()?;
    stage.set_list(0, list)?;
    let plain = shows(stage, &PLAIN)?;
    stage.set_opacity(0, 4, 0)?;
    Ok(plain && shows(stage, &FADED)?)
}

#[test]
fn a_property_makes_a_group(rt: HostRuntime) {
    assert_eq!(rt; on_a_stage(rt.alloc(), opacities), Ok(true));
}

/// An image of key 9 and one pixel.
const ADD_IMAGE: [u8; 13] = [5, 9, 0, 0, 0, 1, 0, 1, 0, 1, 2, 3, 255];

/// The mask of glyph 5 in font 1, of one pixel.
const ADD_GLYPH: [u8; 10] = [8, 1, 0, 5, 0, 1, 0, 1, 0, 200];

/// The generations of the image and the glyph of the first two entries, and where the glyph is.
fn uses(stage: &Stage) -> Result<Option<(Option<u64>, Option<u64>, i32)>, NoMemory> {
    let found = tops(stage.alloc, &stage.scene)?;
    let [first, second] = found.as_slice() else {
        return Ok(None);
    };
    let ([Entry::Primitive(image)], [Entry::Primitive(text)]) = (
        first.entries.as_slice(),
        second.entries.as_slice(),
    ) else {
        return Ok(None);
    };
    match (image.kind(), text.kind()) {
        (Kind::Image { generation, .. }, Kind::Text { glyphs, .. }) => match glyphs.as_slice() {
            [glyph] => Ok(Some((*generation, glyph.generation, glyph.x))),
            _ => Ok(None),
        },
        _ => Ok(None),
    }
}

/// An image and a glyph before and after they are stored.
fn resources(stage: &mut Stage) -> Result<bool, NoMemory> {
    let alloc = stage.alloc;
    let mut list = ListBytes::new(alloc);
    list.frame(0, 40)?;
    list.image(0, 9)?;
    list.text(1, 0, 5)?;
    stage.set_list(0, list)?;
    let absent = uses(stage)? == Some((None, None, 43));
    stage.apply(0, &ADD_IMAGE)?;
    stage.apply(0, &ADD_GLYPH)?;
    let stored = uses(stage)? == Some((Some(1), Some(2), 43));
    Ok(stage.is_whole && absent && stored)
}

#[test]
fn resources_have_their_generation(rt: HostRuntime) {
    assert_eq!(rt; on_a_stage(rt.alloc(), resources), Ok(true));
}

#[test]
fn laws_of_entries() {
    entry_laws();
    flat_laws();
}

/// Whether a slice is the one of this number of its home, from a column and row on.
fn is_slice(slice: &Slice, scroll: Option<(u8, u16)>, nth: u8, origin: (i32, i32)) -> bool {
    slice.key.scroll == scroll
        && slice.key.nth == nth
        && (slice.origin.x, slice.origin.y) == origin
        && slice.entries.len() == 1
}

/// Solids of a scroll frame, of none, and of the scroll frame again.
fn sliced(stage: &mut Stage) -> Result<bool, NoMemory> {
    let alloc = stage.alloc;
    let mut list = ListBytes::new(alloc);
    list.scroll_frame(0, 1)?;
    list.solid(1, NONE, 0, 0)?;
    list.solid(0, NONE, 3, 0)?;
    list.solid(1, NONE, 6, 0)?;
    stage.set_list(0, list)?;
    stage.scroll(0, 1, 7)?;
    let slices = scene_slices(alloc, &stage.scene)?;
    let found = match slices.as_slice() {
        [a, b, c] => {
            is_slice(a, Some((0, 1)), 0, (0, -7))
                && is_slice(b, None, 0, (0, 0))
                && is_slice(c, Some((0, 1)), 1, (0, -7))
        }
        _ => false,
    };
    Ok(stage.is_whole && found)
}

#[test]
fn a_scene_is_cut_into_slices(rt: HostRuntime) {
    assert_eq!(rt; on_a_stage(rt.alloc(), sliced), Ok(true));
}
