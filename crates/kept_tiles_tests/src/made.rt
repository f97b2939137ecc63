//! Slices that the tests show.

use blend_rules::{Mode, Px};
use clip_masks::{Clip, Rounded};
use containers::Sequence;
use picture_slices::Slice;
use primitives::{Entry, Kind, Primitive};
use std::alloc::{AllocError, Global};
use wr_geom::{Point, Radii, Rect, SliceKey};

/// A list of entries that is being made.
#[derive(Drop)]
pub struct Entries {
    alloc: Global,
    pub all: Sequence<Entry>,
    /// The clips of the next entry.
    clips: Sequence<Clip>,
}

/// A rectangle of this place and these sides.
pub fn rect(x: i16, y: i16, width: u8, height: u8) -> Option<Rect> {
    let (x, y) = (i32::from(x), i32::from(y));
    Rect::new(x, y, x + i32::from(width), y + i32::from(height))
}

/// A colour of four channels, each at most the alpha.
pub fn colour(b: u8, g: u8, r: u8, a: u8) -> Px {
    Px {
        b: b.min(a),
        g: g.min(a),
        r: r.min(a),
        a,
    }
}

/// Four corners of the same radius.
pub fn round(radius: u16) -> Radii {
    let corner = (radius, radius);
    Radii {
        tl: corner,
        tr: corner,
        br: corner,
        bl: corner,
    }
}

/// The key of a slice that doesn't scroll.
pub fn slice_key(nth: u8) -> SliceKey {
    SliceKey { scroll: None, nth }
}

impl Entries {
    pub fn new(alloc: Global) -> Entries {
        Entries {
            alloc,
            all: Sequence::new(alloc),
            clips: Sequence::new(alloc),
        }
    }

    /// The clips, of which none is left.
    fn take_clips(&mut self) -> Sequence<Clip> {
        std::mem::replace(&mut self.clips, Sequence::new(self.alloc))
    }

    /// A clip for the next entry, with round corners where they fit.
    pub fn clip(&mut self, rect: Option<Rect>, radius: u16, out: bool) -> Result<(), AllocError> {
        let Some(rect) = rect else {
            return Ok(());
        };
        let shape = Rounded::new(rect, round(radius)).unwrap_or(Rounded::of_rect(rect));
        self.clips.push(Clip { shape, out })
    }

    /// A primitive under those clips, where its kind fits the rectangle.
    pub fn primitive(&mut self, kind: Kind, rect: Option<Rect>) -> Result<(), AllocError> {
        let clips = self.take_clips();
        let Some(rect) = rect else {
            return Ok(());
        };
        if let Some(primitive) = Primitive::new(kind, rect, clips) {
            self.all.push(Entry::Primitive(primitive))?;
        }
        Ok(())
    }

    /// A group under those clips.
    pub fn push(&mut self, opacity: u8, mode: Mode) -> Result<(), AllocError> {
        let clips = self.take_clips();
        self.all.push(Entry::Push {
            opacity,
            mode,
            clips,
        })
    }

    /// Its end.
    pub fn pop(&mut self) -> Result<(), AllocError> {
        self.all.push(Entry::Pop)
    }

    /// A slice of all entries, in this part of the view.
    pub fn slice(self, nth: u8, origin: Point, shown: Rect) -> Slice {
        Slice {
            key: slice_key(nth),
            origin,
            shown,
            entries: self.all,
        }
    }
}
