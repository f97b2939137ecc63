//! Lists made from a seed, drawn and painted.

ghost use Rattle.std.specs.Prelude.{◌<◌};

use crate::fits::can_draw;
use crate::made::{Entries, colour, mode, rect, round, stored};
use crate::painted::are_painted;
use crate::rolls::Rolls;
use blend_rules::Px;
use containers::Sequence;
use image_store::{Store, StoreError};
use primitives::{GlyphUse, Kind};
use span_kernels::Planes;
use std::alloc::{AllocError, Global};
use std::test::Fail;
use tile_raster::{Scratch, draw};
use wr_geom::{NoMemory, Point, Rect, Widths};

/// How many lists are made.
const LISTS: u8 = 200;

/// A rolled colour, opaque half the time.
fn rolled_colour(rolls: &mut Rolls) -> Px {
    let [b, g, r, a] = rolls.colour();
    colour(b, g, r, a)
}

/// A rectangle near the planes, sometimes beyond their edges, sometimes without a point.
fn rolled_rect(rolls: &mut Rolls) -> Option<Rect> {
    let x = rolls.below(26) as i8 - 9;
    let y = rolls.below(12) as i8 - 4;
    let (width, height) = (rolls.below(24), rolls.below(9));
    rect(x, y, width, height)
}

/// Up to three clips for the next entry.
fn rolled_clips(entries: &mut Entries, rolls: &mut Rolls) -> Result<(), AllocError> {
    for _ in 0..rolls.below(4) {
        let radius = rolls.one_of([0, 0, 2, 3]);
        let place = rolled_rect(rolls);
        let is_out = rolls.below(4) == 0;
        entries.clip(place, radius, is_out)?;
    }
    Ok(())
}

/// An image, opaque or not, stored or not.
fn rolled_image(rolls: &mut Rolls) -> Kind {
    Kind::Image {
        pipeline: 1,
        key: u32::from(rolls.one_of([8, 8, 9, 7])),
        generation: if rolls.below(8) == 0 { None } else { Some(1) },
        u: rolls.one_of([0, 1, 5, 2]),
        v: rolls.one_of([0, 1, 3, 2]),
    }
}

/// A border of small widths.
fn rolled_border(rolls: &mut Rolls) -> Kind {
    let (width, radius) = (rolls.one_of([0, 1, 1, 2]), rolls.one_of([0, 0, 1, 2]));
    Kind::Border {
        widths: Widths {
            top: width,
            right: 1,
            bottom: 1,
            left: width,
        },
        top: rolled_colour(rolls),
        right: rolled_colour(rolls),
        bottom: rolled_colour(rolls),
        left: rolled_colour(rolls),
        radii: round(radius),
    }
}

/// A glyph twice, some pixels apart.
fn rolled_text(alloc: Global, rolls: &mut Rolls) -> Result<Kind, AllocError> {
    let mut glyphs = Sequence::new(alloc);
    for _ in 0..2 {
        glyphs.push(GlyphUse {
            glyph: 5,
            x: i32::from(rolls.below(16)) - 2,
            y: i32::from(rolls.below(6)) - 1,
            generation: Some(3),
        })?;
    }
    Ok(Kind::Text {
        pipeline: 1,
        font: 3,
        colour: rolled_colour(rolls),
        glyphs,
    })
}

/// A primitive of any kind.
fn rolled_primitive(
    alloc: Global,
    entries: &mut Entries,
    rolls: &mut Rolls,
) -> Result<(), AllocError> {
    let kind = match rolls.below(7) {
        0 => rolled_border(rolls),
        1 => rolled_text(alloc, rolls)?,
        2 => rolled_image(rolls),
        3 => rolled_image(rolls),
        _ => Kind::Solid(rolled_colour(rolls)),
    };
    rolled_clips(entries, rolls)?;
    let place = rolled_rect(rolls);
    entries.primitive(kind, place)
}

/// So many entries, groups in groups, each of which ends.
fn rolled_entries(alloc: Global, rolls: &mut Rolls, count: u8) -> Result<Entries, AllocError> {
    let mut entries = Entries::new(alloc);
    let mut opened: u8 = 0;
    for _ in 0..count {
        match rolls.below(5) {
            0 => {
                rolled_clips(&mut entries, rolls)?;
                let opacity = if rolls.below(2) == 0 {
                    255
                } else {
                    rolls.below(255)
                };
                entries.push(opacity, mode(rolls.below(9)))?;
                opened = opened.saturating_add(1);
            }
            1 => {
                if opened > 0 {
                    entries.pop()?;
                    opened -= 1;
                }
            }
            _ => rolled_primitive(alloc, &mut entries, rolls)?,
        }
    }
    for _ in 0..opened {
        entries.pop()?;
    }
    Ok(entries)
}

/// Whether a list of a seed is drawn as it is painted, in planes of one of five widths.
fn is_drawn(
    alloc: Global,
    seed: u8,
    store: &Store,
    scratch: &mut Scratch,
) -> Result<bool, NoMemory> {
    let mut rolls = Rolls::new(u64::from(seed));
    let count = rolls.below(14);
    let made = rolled_entries(alloc, &mut rolls, count)?;
    let entries = made.all.as_slice();
    let width = [1, 15, 16, 17, 8][usize::from(seed % 5)];
    let mut planes = Planes::new(alloc, width, 5)?;
    if !can_draw(entries) || planes.width() > scratch.width() {
        return Ok(false);
    }
    let corner = Point {
        x: i32::from(rolls.below(5)) - 2,
        y: i32::from(rolls.below(5)) - 2,
    };
    if seed % 3 > 0 {
        scratch.reserve(usize::from(seed % 16))?;
    }
    draw(entries, store, corner, &mut planes, scratch);
    Ok(are_painted(alloc, entries, store, corner, &planes)?)
}

/// How many lists are drawn as they are painted.
fn drawn_count(alloc: Global, store: &Store) -> Result<u8, NoMemory> {
    let mut scratch = Scratch::new(alloc, 17)?;
    let mut count = 0u8;
    for seed in 0..LISTS {
        if is_drawn(alloc, seed, store, &mut scratch)? {
            count = count.saturating_add(1);
        }
    }
    Ok(count)
}

#[test]
fn lists_of_all_kinds_are_drawn_as_they_are_painted(rt: HostRuntime) -> Result<(), Fail> {
    let store = stored(rt.alloc())?;
    let drawn = drawn_count(rt.alloc(), &store)?;
    assert_eq!(rt; drawn, LISTS);
    Ok(())
}
