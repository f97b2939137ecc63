//! What top items are expected to be.

use clip_masks::Clip;
use primitives::{Entry, Top};
use scene_flatten::tops;
use scene_state::Scene;
use std::alloc::Global;
use wr_geom::NoMemory;

pub type Home = Option<(u8, u16)>;

/// An entry: for each of its clips, outermost first, the column of its first corner.
#[derive(Clone, Copy)]
pub enum Step {
    /// A primitive whose first corner is at this column and row.
    Draw(i32, i32, &'static [i32]),
    /// The beginning of a group of this opacity.
    Open(u8, &'static [i32]),
    Close,
}

/// A top item: its home, the column and row of its origin, the homes of its clips, and its entries.
#[derive(Clone, Copy)]
pub struct Expected {
    pub home: Home,
    pub origin: (i32, i32),
    pub homes: &'static [Home],
    pub steps: &'static [Step],
}

/// Whether clips begin at these columns.
fn begin_at(clips: &[Clip], columns: &[i32]) -> bool {
    if clips.len() != columns.len() {
        return false;
    }
    for (clip, column) in clips.iter().zip(columns) {
        if clip.shape.rect().x0() != *column {
            return false;
        }
    }
    true
}

/// Whether an entry is the expected one.
fn is_step(entry: &Entry, step: Step) -> bool {
    match (entry, step) {
        (Entry::Primitive(primitive), Step::Draw(x, y, columns)) => {
            let rect = primitive.rect();
            rect.x0() == x && rect.y0() == y && begin_at(primitive.clips(), columns)
        }
        (Entry::Push { opacity, clips, .. }, Step::Open(expected, columns)) => {
            *opacity == expected && begin_at(clips.as_slice(), columns)
        }
        (Entry::Pop, Step::Close) => true,
        _ => false,
    }
}

/// Whether entries are the expected ones.
fn are_steps(entries: &[Entry], steps: &[Step]) -> bool {
    if entries.len() != steps.len() {
        return false;
    }
    for (entry, step) in entries.iter().zip(steps) {
        if !is_step(entry, *step) {
            return false;
        }
    }
    true
}

/// Whether a top item is the expected one.
fn is_expected(top: &Top, expected: &Expected) -> bool {
    let at = (top.origin.x, top.origin.y);
    top.scroll == expected.home
        && at == expected.origin
        && top.homes.as_slice() == expected.homes
        && are_steps(top.entries.as_slice(), expected.steps)
}

/// Whether a scene has these top items.
pub fn has_tops(alloc: Global, scene: &Scene, all: &[Expected]) -> Result<bool, NoMemory> {
    let found = tops(alloc, scene)?;
    if found.len() != all.len() {
        return Ok(false);
    }
    for (top, expected) in found.as_slice().iter().zip(all) {
        if !is_expected(top, expected) {
            return Ok(false);
        }
    }
    Ok(true)
}
