//! Slices made from seeds.

ghost use Rattle.std.specs.Prelude.{◌<◌};

use crate::made::{Entries, colour, rect, round};
use crate::rolls::Rolls;
use blend_rules::{Mode, Px};
use picture_slices::Slice;
use primitives::Kind;
use std::alloc::{AllocError, Global};
use wr_geom::{Point, Rect, Widths};

/// What a slice is made of: a seed for each entry, where it lies, and how much of the view it shows.
#[derive(Clone, Copy)]
pub struct Plan {
    pub seeds: [u8; 12],
    pub origin: (u8, u8),
    pub left: u8,
    pub bottom: u8,
}

/// A rolled colour, opaque half the time.
fn rolled_colour(rolls: &mut Rolls) -> Px {
    let [b, g, r, a] = rolls.colour();
    colour(b, g, r, a)
}

/// A rectangle on a few tiles, sometimes without a point.
fn rolled_rect(rolls: &mut Rolls) -> Option<Rect> {
    let x = i16::from(rolls.below(160)) - 30;
    let y = i16::from(rolls.below(160)) - 30;
    let (width, height) = (rolls.below(90), rolls.below(90));
    rect(x, y, width, height)
}

/// Up to two clips for the next entry.
fn rolled_clips(entries: &mut Entries, rolls: &mut Rolls) -> Result<(), AllocError> {
    for _ in 0..rolls.below(3) {
        let radius = rolls.one_of([0, 0, 7, 20]);
        let place = rolled_rect(rolls);
        let is_out = rolls.below(4) == 0;
        entries.clip(place, radius, is_out)?;
    }
    Ok(())
}

/// The stored image, or one that isn't stored.
fn rolled_image(rolls: &mut Rolls, generation: Option<u64>) -> Kind {
    Kind::Image {
        pipeline: 1,
        key: 8,
        generation: if rolls.below(4) == 0 {
            None
        } else {
            generation
        },
        u: rolls.one_of([0, 1, 0, 1]),
        v: rolls.one_of([0, 0, 1, 1]),
    }
}

/// A border of small widths.
fn rolled_border(rolls: &mut Rolls) -> Kind {
    let (width, radius) = (rolls.one_of([0, 1, 3, 9]), rolls.one_of([0, 1, 5, 20]));
    Kind::Border {
        widths: Widths {
            top: width,
            right: 4,
            bottom: 2,
            left: width,
        },
        top: rolled_colour(rolls),
        right: rolled_colour(rolls),
        bottom: rolled_colour(rolls),
        left: rolled_colour(rolls),
        radii: round(radius),
    }
}

/// A mode that changes what a group shows where it is clear, or one that doesn't.
fn rolled_mode(rolls: &mut Rolls) -> Mode {
    match rolls.below(4) {
        0 => Mode::Multiply,
        1 => Mode::Difference,
        2 => Mode::HardLight,
        _ => Mode::Normal,
    }
}

/// A primitive of any kind but text.
fn rolled_primitive(
    entries: &mut Entries,
    rolls: &mut Rolls,
    generation: Option<u64>,
) -> Result<(), AllocError> {
    rolled_clips(entries, rolls)?;
    let kind = match rolls.below(5) {
        0 => rolled_border(rolls),
        1 => rolled_image(rolls, generation),
        2 => rolled_image(rolls, generation),
        _ => Kind::Solid(rolled_colour(rolls)),
    };
    let place = rolled_rect(rolls);
    entries.primitive(kind, place)
}

/// The beginning of a group.
fn rolled_push(entries: &mut Entries, rolls: &mut Rolls) -> Result<(), AllocError> {
    rolled_clips(entries, rolls)?;
    let opacity = if rolls.below(2) == 0 {
        255
    } else {
        rolls.below(255)
    };
    let mode = rolled_mode(rolls);
    entries.push(opacity, mode)
}

/// The entry of a seed, where so many groups are open, and how many are open then. A seed of 0 has none.
fn planned_entry(
    entries: &mut Entries,
    seed: u8,
    opened: u8,
    generation: Option<u64>,
) -> Result<u8, AllocError> {
    let mut rolls = Rolls::new(u64::from(seed));
    match (seed % 5, opened) {
        (0, _) => Ok(opened),
        (1, _) => {
            rolled_push(entries, &mut rolls)?;
            Ok(opened.saturating_add(1))
        }
        (2, 1..) => {
            entries.pop()?;
            Ok(opened - 1)
        }
        _ => {
            rolled_primitive(entries, &mut rolls, generation)?;
            Ok(opened)
        }
    }
}

/// The entries of a plan, groups in groups, each of which ends.
fn planned_entries(
    alloc: Global,
    plan: &Plan,
    generation: Option<u64>,
) -> Result<Entries, AllocError> {
    let mut entries = Entries::new(alloc);
    let mut opened = 0;
    for seed in plan.seeds {
        opened = planned_entry(&mut entries, seed, opened, generation)?;
    }
    for _ in 0..opened {
        entries.pop()?;
    }
    Ok(entries)
}

/// The part of a view of 150 by 100 pixels that a plan shows.
fn planned_part(plan: &Plan) -> Rect {
    let (left, bottom) = (i32::from(plan.left % 100), i32::from(plan.bottom % 101));
    Rect::new(left, 0, 150, bottom).unwrap()
}

/// The slice of a plan, whose images have this generation.
pub fn planned(
    alloc: Global,
    plan: &Plan,
    nth: u8,
    generation: Option<u64>,
) -> Result<Slice, AllocError> {
    let entries = planned_entries(alloc, plan, generation)?;
    let origin = Point {
        x: i32::from(plan.origin.0) - 100,
        y: i32::from(plan.origin.1) - 100,
    };
    Ok(entries.slice(nth, origin, planned_part(plan)))
}
