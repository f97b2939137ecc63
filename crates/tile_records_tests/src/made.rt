//! Entries for tests.

use blend_rules::{Mode, Px};
use containers::Sequence;
use primitives::{Entry, GlyphUse, Kind, Primitive};
use std::alloc::{AllocError, Global};
use wr_geom::Rect;

/// An entry in few words, without clips.
#[derive(Clone, Copy)]
pub(crate) enum Step {
    /// A red rectangle.
    Solid(Rect),
    /// An image of this generation.
    Image(Rect, u64),
    /// A text of one glyph, at this column and row 0.
    Text(Rect, i32),
    /// A group of this opacity.
    Push(u8),
    Pop,
}

const RED: Px = Px {
    b: 0,
    g: 0,
    r: 255,
    a: 255,
};

/// A rectangle by its edges, and an empty one where they are out of order.
pub(crate) fn rect(x0: i32, y0: i32, x1: i32, y1: i32) -> Rect {
    match Rect::new(x0, y0, x1, y1) {
        Some(rect) => rect,
        None => Rect::new(0, 0, 0, 0).unwrap(),
    }
}

/// A text of one glyph at (x, 0).
fn text(alloc: Global, x: i32) -> Result<Kind, AllocError> {
    let mut glyphs = Sequence::new(alloc);
    glyphs.push(GlyphUse {
        glyph: 1,
        x,
        y: 0,
        generation: Some(1),
    })?;
    Ok(Kind::Text {
        pipeline: 0,
        font: 0,
        colour: RED,
        glyphs,
    })
}

/// An image of this generation.
fn image(generation: u64) -> Kind {
    Kind::Image {
        pipeline: 0,
        key: 7,
        generation: Some(generation),
        u: 0,
        v: 0,
    }
}

/// Something of this kind in a rectangle, if it fits.
fn primitive(alloc: Global, kind: Kind, rect: Rect) -> Option<Entry> {
    match Primitive::new(kind, rect, Sequence::new(alloc)) {
        Some(primitive) => Some(Entry::Primitive(primitive)),
        None => None,
    }
}

/// The entry of a step, if it fits its rectangle.
fn entry(alloc: Global, step: &Step) -> Result<Option<Entry>, AllocError> {
    Ok(match step {
        Step::Solid(rect) => primitive(alloc, Kind::Solid(RED), *rect),
        Step::Image(rect, generation) => primitive(alloc, image(*generation), *rect),
        Step::Text(rect, x) => primitive(alloc, text(alloc, *x)?, *rect),
        Step::Push(opacity) => Some(Entry::Push {
            opacity: *opacity,
            mode: Mode::Normal,
            clips: Sequence::new(alloc),
        }),
        Step::Pop => Some(Entry::Pop),
    })
}

/// The entries of steps.
pub(crate) fn entries(alloc: Global, steps: &[Step]) -> Result<Vec<Entry>, AllocError> {
    let mut all = Vec::new(alloc);
    for step in steps {
        if let Some(entry) = entry(alloc, step)? {
            all.push(entry)?;
        }
    }
    Ok(all)
}
