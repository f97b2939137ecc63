//! Parts of lists that the tests share.

use blend_rules::{Mode, Px};
use clip_masks::{Clip, Rounded};
use containers::Sequence;
use image_store::{Gens, Store, StoreError};
use primitives::{Entry, Kind, Primitive};
use std::alloc::{AllocError, Global};
use wr_geom::{Radii, Rect};

/// A list of entries that is being made.
#[derive(Drop)]
pub(crate) struct Entries {
    alloc: Global,
    pub(crate) all: Vec<Entry>,
    /// The clips of the next entry.
    pub(crate) clips: Sequence<Clip>,
}

/// A colour of four channels, each at most the alpha.
pub(crate) fn colour(b: u8, g: u8, r: u8, a: u8) -> Px {
    Px {
        b: b.min(a),
        g: g.min(a),
        r: r.min(a),
        a,
    }
}

/// A rectangle of this place and these sides.
pub(crate) fn rect(x: i8, y: i8, width: u8, height: u8) -> Option<Rect> {
    let (x, y) = (i32::from(x), i32::from(y));
    Rect::new(x, y, x + i32::from(width), y + i32::from(height))
}

/// The mode of a number.
pub(crate) fn mode(number: u8) -> Mode {
    match number {
        0 => Mode::Normal,
        1 => Mode::Multiply,
        2 => Mode::Screen,
        3 => Mode::Overlay,
        4 => Mode::Darken,
        5 => Mode::Lighten,
        6 => Mode::HardLight,
        7 => Mode::Difference,
        _ => Mode::Exclusion,
    }
}

/// Four corners of the same radius.
pub(crate) fn round(radius: u16) -> Radii {
    let corner = (radius, radius);
    Radii {
        tl: corner,
        tr: corner,
        br: corner,
        bl: corner,
    }
}

impl Entries {
    pub(crate) fn new(alloc: Global) -> Entries {
        Entries {
            alloc,
            all: Vec::new(alloc),
            clips: Sequence::new(alloc),
        }
    }

    /// The clips, of which none is left.
    fn take_clips(&mut self) -> Sequence<Clip> {
        std::mem::replace(&mut self.clips, Sequence::new(self.alloc))
    }

    /// A clip for the next entry, with round corners where they fit.
    pub(crate) fn clip(
        &mut self,
        rect: Option<Rect>,
        radius: u16,
        out: bool,
    ) -> Result<(), AllocError> {
        let Some(rect) = rect else {
            return Ok(());
        };
        let shape = Rounded::new(rect, round(radius)).unwrap_or(Rounded::of_rect(rect));
        self.clips.push(Clip { shape, out })
    }

    /// A primitive under those clips, where its kind fits the rectangle.
    pub(crate) fn primitive(&mut self, kind: Kind, rect: Option<Rect>) -> Result<(), AllocError> {
        let clips = self.take_clips();
        let Some(rect) = rect else {
            return Ok(());
        };
        if let Some(primitive) = Primitive::new(kind, rect, clips) {
            self.all.push(Entry::Primitive(primitive))?;
        }
        Ok(())
    }

    /// A group under those clips.
    pub(crate) fn push(&mut self, opacity: u8, mode: Mode) -> Result<(), AllocError> {
        let clips = self.take_clips();
        self.all.push(Entry::Push {
            opacity,
            mode,
            clips,
        })?;
        Ok(())
    }

    /// Its end.
    pub(crate) fn pop(&mut self) -> Result<(), AllocError> {
        self.all.push(Entry::Pop)?;
        Ok(())
    }
}

/// A store with an opaque image, key 8, and one that isn't, key 9, both of 2 by 2 texels and of pipeline 1, and glyph 5 of
/// its font 3, of 3 by 2 pixels.
pub(crate) fn stored(alloc: Global) -> Result<Store, StoreError> {
    let mut store = Store::new(alloc);
    let mut gens = Gens::new();
    let opaque = [9, 0, 0, 255, 0, 99, 0, 255, 0, 0, 250, 255, 7, 77, 0, 255];
    let other = [1, 1, 1, 1, 90, 2, 2, 200, 3, 3, 3, 254, 0, 0, 0, 0];
    store.add_image(&mut gens, 1, 8, 2, 2, &opaque)?;
    store.add_image(&mut gens, 1, 9, 2, 2, &other)?;
    store.add_glyph(&mut gens, 1, 3, 5, 3, 2, &[255, 9, 200, 0, 128, 255])?;
    Ok(store)
}
