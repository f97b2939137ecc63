//! Entries drawn plainly at one pixel.

use blend_rules::{Mode, Px, blend, mul, scale};
use clip_masks::Clip;
use image_store::Store;
use primitives::{Entry, colour_at};
use std::alloc::{AllocError, Global};
use wr_geom::Point;

/// A colour over another, clear where one of them is no premultiplied colour.
pub(crate) fn over(mode: Mode, source: Px, backdrop: Px) -> Px {
    if !source.is_premultiplied() || !backdrop.is_premultiplied() {
        return Px::CLEAR;
    }
    blend(mode, source, backdrop)
}

/// What clips leave of 255.
fn cover(clips: &[Clip], at: Point) -> u8 {
    let mut left = 255;
    for clip in clips {
        left = mul(left, clip.cover(at.x, at.y));
    }
    left
}

/// An open group: the colour below it, its opacity, its mode and what its clips leave.
type Open = (Px, u8, Mode, u8);

/// What entries paint over a backdrop.
pub(crate) fn drawn(
    alloc: Global,
    entries: &[Entry],
    store: &Store,
    at: Point,
    backdrop: Px,
) -> Result<Px, AllocError> {
    let mut top = backdrop;
    let mut open: Vec<Open> = Vec::new(alloc);
    for entry in entries {
        let left = cover(entry.clips(), at);
        match entry {
            Entry::Primitive(p) => {
                let colour = scale(colour_at(p, store, at.x, at.y), left);
                top = over(Mode::Normal, colour, top);
            }
            Entry::Push { opacity, mode, .. } => {
                open.push((top, *opacity, *mode, left))?;
                top = Px::CLEAR;
            }
            Entry::Pop => {
                if let Some((below, opacity, mode, cover)) = open.pop() {
                    top = over(mode, scale(scale(top, opacity), cover), below);
                }
            }
        }
    }
    Ok(top)
}
