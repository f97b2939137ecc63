//! Levels of entries, and the rows that they are drawn with.

ghost use Rattle.std.specs.Prelude.{◌≡◌, IfOk};
ghost use Rattle.tile_raster.specs.Rasters.{IsFit, IsWide};

use crate::line::Line;
use batching::Cover;
use std::alloc::Global;
use wr_geom::NoMemory;

/// The entries from `from` to before `to`, inside so many groups and without the end of one of those.
#[derive(Clone, Copy, Debug)]
pub(crate) struct Level {
    pub(crate) depth: usize,
    pub(crate) from: usize,
    pub(crate) to: usize,
}

/// What a level is drawn with: what covers its row, and the row of a group in it.
#[derive(Drop)]
pub(crate) struct LevelRows {
    pub(crate) cover: Cover,
    pub(crate) inner: Line,
}

/// What any level works with: how much clips leave of a row, and the colours of a primitive.
#[derive(Drop)]
pub(crate) struct Tools {
    pub(crate) mask: Vec<u8>,
    pub(crate) tint: Line,
}

impl LevelRows {
    /// For rows of so many pixels.
    pub(crate) fn new(alloc: Global, width: u16) -> Result<LevelRows, NoMemory>
        ensures { IfOk result (λ rows. IsWide width rows) }
    {
        Ok(LevelRows {
            cover: Cover::new(alloc, width)?,
            inner: Line::new(alloc, usize::from(width))?,
        })
    }
}

impl Tools {
    /// For rows of so many pixels.
    pub(crate) fn new(alloc: Global, width: u16) -> Result<Tools, NoMemory>
        ensures { IfOk result (λ tools. IsFit width tools) }
    {
        Ok(Tools {
            mask: vec![in alloc; 0; usize::from(width)]?,
            tint: Line::new(alloc, usize::from(width))?,
        })
    }
}
