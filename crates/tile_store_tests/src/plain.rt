//! A plain list of tiles, the most recent last.

use blend_rules::Plane;
use std::alloc::{AllocError, Global};
use wr_geom::{Point, Rect, TileKey};

/// The planes in the order in which a tile keeps their bytes here.
pub(crate) const PLANES: [Plane; 4] = [Plane::B, Plane::G, Plane::R, Plane::A];

/// A tile with the bytes of its planes one after the other, each row by row.
#[derive(Drop)]
pub(crate) struct PlainTile {
    pub(crate) key: TileKey,
    pub(crate) rect: Rect,
    pub(crate) note: u32,
    pub(crate) bytes: Vec<u8>,
}

impl PlainTile {
    /// A tile of zeros.
    pub(crate) fn new(
        alloc: Global,
        key: TileKey,
        rect: Rect,
        note: u32,
    ) -> Result<PlainTile, AllocError> {
        let mut bytes = Vec::new(alloc);
        for _ in 0..4 * (rect.area() % 256) {
            bytes.push(0)?;
        }
        Ok(PlainTile {
            key,
            rect,
            note,
            bytes,
        })
    }

    /// Sets the bytes of one plane, by its number, at the points that lie in a part.
    pub(crate) fn fill(&mut self, part: Rect, plane: u64, byte: u8) {
        let area = self.rect.area();
        let width = u64::from(self.rect.width());
        for at in 0..self.bytes.len() {
            let at_point = at as u64 % area.max(1);
            let column = (at_point % width.max(1) % 256) as i32;
            let row = (at_point / width.max(1) % 256) as i32;
            let point = Point {
                x: self.rect.x0() + column,
                y: self.rect.y0() + row,
            };
            if at as u64 / area.max(1) == plane && part.contains(point) {
                if let Some(place) = self.bytes.get_mut(at) {
                    *place = byte;
                }
            }
        }
    }

    /// The bytes of a row of one plane, by its number, if there are some.
    pub(crate) fn row(&self, plane: usize, y: i32) -> Option<&[u8]> {
        let width = self.rect.width() as usize;
        let row = usize::try_from(i64::from(y) - i64::from(self.rect.y0())).ok()?;
        let above = plane
            .checked_mul(self.rect.height() as usize)?
            .checked_add(row)?;
        let start = above.checked_mul(width)?;
        self.bytes.get(start..start.checked_add(width)?)
    }
}

/// The index of the tile with a key.
pub(crate) fn index_of(tiles: &[PlainTile], key: TileKey) -> Option<usize> {
    for at in 0..tiles.len() {
        if tiles[at].key == key {
            return Some(at);
        }
    }
    None
}
