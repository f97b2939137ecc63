//! What the records are made of.

use blend_rules::{Mode, Px};
use containers::Sequence;
use primitives::{Entry, Kind, Primitive};
use std::alloc::{AllocError, Global};
use tile_grid::{TileGrid, TileSides};
use wr_geom::{Point, Rect};

/// The tiles of a view of 1280 by 800 pixels.
pub fn grid() -> TileGrid {
    let sides = TileSides {
        width: 64,
        height: 64,
    };
    let view = Rect::new(0, 0, 1280, 800).unwrap();
    TileGrid::visible(sides, view, Point { x: 0, y: 0 })
}

/// The entry of a number: of eight, the first begins a group, the last ends it, as the last of all does, and the others are
/// solids of 90 by 20 pixels all over the view.
fn entry(alloc: Global, number: u32, is_last: bool) -> Option<Entry> {
    if number % 8 == 0 {
        return Some(Entry::Push {
            opacity: 128,
            mode: Mode::Normal,
            clips: Sequence::new(alloc),
        });
    }
    if number % 8 == 7 || is_last {
        return Some(Entry::Pop);
    }
    let x = (number.wrapping_mul(2_654_435_761) >> 12) as i32 % 1280;
    let y = (number.wrapping_mul(2_246_822_519) >> 12) as i32 % 800;
    let rect = Rect::new(x, y, x + 90, y + 20)?;
    let primitive = Primitive::new(Kind::Solid(Px::CLEAR), rect, Sequence::new(alloc))?;
    Some(Entry::Primitive(primitive))
}

/// So many entries, in groups of eight.
pub fn entries(alloc: Global, count: u32) -> Result<Vec<Entry>, AllocError> {
    let mut entries = Vec::new(alloc);
    for number in 0..count {
        if let Some(entry) = entry(alloc, number, number == count - 1) {
            entries.push(entry)?;
        }
    }
    Ok(entries)
}
