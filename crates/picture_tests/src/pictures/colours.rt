//! Colours that many pictures have.

use super::parts::Colour;

pub(super) const CLEAR: Colour = [0, 0, 0, 0];

pub(super) const BLACK: Colour = [0, 0, 0, 255];

pub(super) const WHITE: Colour = [255, 255, 255, 255];

pub(super) const RED: Colour = [0, 0, 255, 255];

pub(super) const GREEN: Colour = [0, 255, 0, 255];

pub(super) const BLUE: Colour = [255, 0, 0, 255];

/// Black of alpha 128.
pub(super) const HALF: Colour = [0, 0, 0, 128];

/// An opaque grey.
pub(super) const fn grey(level: u8) -> Colour {
    [level, level, level, 255]
}
