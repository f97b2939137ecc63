//! Numbers, keys and rectangles for tests.

use wr_geom::{Rect, SliceKey, TileKey};

/// Numbers by a linear congruential generator.
#[derive(Drop)]
pub(crate) struct Draws {
    pub(crate) state: u64,
}

impl Draws {
    /// A number below a limit, 0 for the limit 0.
    pub(crate) fn below(&mut self, limit: u8) -> u8 {
        let next = self.state.wrapping_mul(6_364_136_223_846_793_005);
        self.state = next.wrapping_add(1_442_695_040_888_963_407);
        let drawn = (self.state >> 33) % u64::from(limit.max(1));
        u8::try_from(drawn).unwrap_or(0)
    }

    /// A rectangle of at most 6 pixels a side, which may be empty.
    pub(crate) fn rect(&mut self) -> Rect {
        let (x, y) = (self.below(6), self.below(6));
        let (width, height) = (self.below(7), self.below(7));
        rect(x, y, width, height)
    }
}

/// A rectangle from a corner near (-3, -3).
pub(crate) fn rect(x: u8, y: u8, width: u8, height: u8) -> Rect {
    let (left, top) = (i32::from(x) - 3, i32::from(y) - 3);
    let (right, bottom) = (left + i32::from(width), top + i32::from(height));
    Rect::new(left, top, right, bottom).unwrap()
}

/// One of 256 different keys: keys of slices with and without a scroll frame, and columns and rows on both sides of 0.
pub(crate) fn key(number: u8) -> TileKey {
    let scroll = match number % 3 {
        0 => None,
        1 => Some((number / 9, 7)),
        _ => Some((7, u16::from(number / 9))),
    };
    TileKey {
        slice: SliceKey {
            scroll,
            nth: number / 128,
        },
        col: i32::from(number) - 100,
        row: 100 - i32::from(number),
    }
}
