//! What entries give at one pixel, entry by entry.

ghost use Rattle.std.specs.Prelude.{◌<◌};

use blend_rules::{Mode, Px, blend, scale};
use clip_masks::{Clip, cover_row};
use image_store::Store;
use primitives::{Entry, Primitive, colour_at};
use span_kernels::Planes;
use std::alloc::{AllocError, Global};
use wr_geom::Point;

/// An open group: its opacity, its mode, how much its clips cover the pixel, and the colour that is under it.
#[derive(Clone, Copy)]
struct Group {
    opacity: u8,
    mode: Mode,
    cover: u8,
    under: Px,
}

/// How much clips cover a pixel, of 255.
fn cover(clips: &[Clip], x: i32, y: i32) -> u8 {
    let mut row = [0];
    cover_row(clips, 255, y, x, &mut row);
    row[0]
}

/// A colour over another. A pixel is premultiplied; of what isn't one nothing is shown.
fn over(mode: Mode, source: Px, under: Px) -> Px {
    if source.is_premultiplied() && under.is_premultiplied() {
        blend(mode, source, under)
    } else {
        Px::CLEAR
    }
}

/// The colour on top and the groups that are open.
#[derive(Drop)]
struct Painting {
    top: Px,
    groups: Vec<Group>,
}

impl Painting {
    fn paint(&mut self, primitive: &Primitive, store: &Store, x: i32, y: i32) {
        let colour = colour_at(primitive, store, x, y);
        let covered = scale(colour, cover(primitive.clips(), x, y));
        self.top = over(Mode::Normal, covered, self.top);
    }

    fn enter(&mut self, opacity: u8, mode: Mode, cover: u8) -> Result<(), AllocError> {
        let under = self.top;
        self.groups.push(Group {
            opacity,
            mode,
            cover,
            under,
        })?;
        self.top = Px::CLEAR;
        Ok(())
    }

    fn leave(&mut self) {
        if let Some(group) = self.groups.pop() {
            let faded = scale(scale(self.top, group.opacity), group.cover);
            self.top = over(group.mode, faded, group.under);
        }
    }

    fn take(&mut self, entry: &Entry, store: &Store, x: i32, y: i32) -> Result<(), AllocError> {
        match entry {
            Entry::Primitive(primitive) => self.paint(primitive, store, x, y),
            Entry::Push {
                opacity,
                mode,
                clips,
            } => self.enter(*opacity, *mode, cover(clips.as_slice(), x, y))?,
            Entry::Pop => self.leave(),
        }
        Ok(())
    }
}

/// What entries give at a pixel.
pub(crate) fn painted_at(
    alloc: Global,
    entries: &[Entry],
    store: &Store,
    x: i32,
    y: i32,
) -> Result<Px, AllocError> {
    let mut painting = Painting {
        top: Px::CLEAR,
        groups: Vec::new(alloc),
    };
    for entry in entries {
        painting.take(entry, store, x, y)?;
    }
    Ok(painting.top)
}

/// Whether a row of planes has what entries give at each pixel; the first lies at `first`.
fn is_row_painted(
    alloc: Global,
    entries: &[Entry],
    store: &Store,
    first: Point,
    y: u16,
    planes: &Planes,
) -> Result<bool, AllocError>
    requires { y < planes.now.height }
{
    for x in 0..planes.width() {
        let at = first.x.wrapping_add(i32::from(x));
        if planes.pixel(x, y) != painted_at(alloc, entries, store, at, first.y)? {
            return Ok(false);
        }
    }
    Ok(true)
}

/// Whether planes have what entries give at each pixel; the first lies at `corner`.
pub(crate) fn are_painted(
    alloc: Global,
    entries: &[Entry],
    store: &Store,
    corner: Point,
    planes: &Planes,
) -> Result<bool, AllocError> {
    for y in 0..planes.height() {
        let first = Point {
            x: corner.x,
            y: corner.y.wrapping_add(i32::from(y)),
        };
        if !is_row_painted(alloc, entries, store, first, y, planes)? {
            return Ok(false);
        }
    }
    Ok(true)
}
