//! What slices show at one pixel, entry by entry.

use blend_rules::{Mode, Px, blend, scale};
use clip_masks::{Clip, cover_row};
use image_store::Store;
use picture_slices::Slice;
use primitives::{Entry, Primitive, colour_at};
use std::alloc::{AllocError, Global};
use wr_geom::Point;

/// An open group: its opacity, its mode, how much its clips cover the pixel, and the colour that is under it.
#[derive(Clone, Copy)]
struct Group {
    opacity: u8,
    mode: Mode,
    cover: u8,
    under: Px,
}

/// How much clips cover a pixel, of 255.
fn cover(clips: &[Clip], x: i32, y: i32) -> u8 {
    let mut row = [0];
    cover_row(clips, 255, y, x, &mut row);
    row[0]
}

/// A colour over another. A pixel is premultiplied; of what isn't one nothing is shown.
fn over(mode: Mode, source: Px, under: Px) -> Px {
    if source.is_premultiplied() && under.is_premultiplied() {
        blend(mode, source, under)
    } else {
        Px::CLEAR
    }
}

/// The colour on top and the groups that are open.
#[derive(Drop)]
struct Painting {
    top: Px,
    groups: Vec<Group>,
}

impl Painting {
    fn draw(&mut self, primitive: &Primitive, store: &Store, x: i32, y: i32) {
        let colour = colour_at(primitive, store, x, y);
        let covered = scale(colour, cover(primitive.clips(), x, y));
        self.top = over(Mode::Normal, covered, self.top);
    }

    fn open(&mut self, opacity: u8, mode: Mode, cover: u8) -> Result<(), AllocError> {
        let under = self.top;
        self.groups.push(Group {
            opacity,
            mode,
            cover,
            under,
        })?;
        self.top = Px::CLEAR;
        Ok(())
    }

    fn close(&mut self) {
        if let Some(group) = self.groups.pop() {
            let faded = scale(scale(self.top, group.opacity), group.cover);
            self.top = over(group.mode, faded, group.under);
        }
    }

    fn take(&mut self, entry: &Entry, store: &Store, x: i32, y: i32) -> Result<(), AllocError> {
        match entry {
            Entry::Primitive(primitive) => self.draw(primitive, store, x, y),
            Entry::Push {
                opacity,
                mode,
                clips,
            } => self.open(*opacity, *mode, cover(clips.as_slice(), x, y))?,
            Entry::Pop => self.close(),
        }
        Ok(())
    }
}

/// What a slice shows at a pixel of the view.
fn slice_colour(
    alloc: Global,
    slice: &Slice,
    store: &Store,
    x: i32,
    y: i32,
) -> Result<Px, AllocError> {
    if !slice.shown.contains(Point { x, y }) {
        return Ok(Px::CLEAR);
    }
    let across = x.saturating_sub(slice.origin.x);
    let down = y.saturating_sub(slice.origin.y);
    let mut painting = Painting {
        top: Px::CLEAR,
        groups: Vec::new(alloc),
    };
    for entry in slice.entries.as_slice() {
        painting.take(entry, store, across, down)?;
    }
    Ok(painting.top)
}

/// What slices show at a pixel of the view, one over another from a colour behind all.
pub fn slices_colour(
    alloc: Global,
    slices: &[Slice],
    store: &Store,
    behind: Px,
    x: i32,
    y: i32,
) -> Result<Px, AllocError> {
    let mut colour = behind;
    for slice in slices {
        let shown = slice_colour(alloc, slice, store, x, y)?;
        colour = over(Mode::Normal, shown, colour);
    }
    Ok(colour)
}
