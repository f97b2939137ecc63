//! What drawing works with.

ghost use Rattle.std.specs.Prelude.{◌≡◌, ◌≤◌, length, IfOk, OnOk};
ghost use Rattle.tile_raster.specs.Rasters.{AreWide};

use crate::level::{LevelRows, Tools};
use crate::line::Line;
use crate::note::{Note, blank_note};
use std::alloc::Global;
use std::marker::Model;
use wr_geom::NoMemory;

/// How many levels are drawn inside each other: the list itself and 64 groups.
const LEVELS: usize = 65;

/// Rows that drawing works with, which it leaves as wide.
#[derive(Drop)]
pub struct Scratch {
    pub(crate) width: u16,
    pub(crate) row: Line,
    pub(crate) levels: Vec<LevelRows>,
    pub(crate) tools: Tools,
    pub(crate) notes: Vec<Note>,
}

impl Model for Scratch {
    ghost use Rattle.std.specs.Prelude.{◌≡◌, length};
    ghost use Rattle.tile_raster.specs.Drawing.{ScratchModel};
    ghost use Rattle.tile_raster.specs.Rasters.{AreWide, IsFit};

    ghost Value = { ScratchModel };

    ghost view = { λ s. record { width = s.width; room = length s.notes.items } };

    ghost invariant = { λ s. (length s.row.alpha ≡ s.width) × (length s.levels.items ≡ 65) × AreWide s.width s.levels.items × IsFit s.width s.tools };
}

/// Rows for each level.
fn new_levels(alloc: Global, width: u16) -> Result<Vec<LevelRows>, NoMemory>
    ensures count { IfOk result (λ levels. length levels.items ≡ 65) }
    ensures wide { IfOk result (λ levels. AreWide width levels.items) }
{
    let mut levels = Vec::with_capacity(alloc, LEVELS)?;
    for _ in 0..LEVELS {
        levels.push(LevelRows::new(alloc, width)?)?;
    }
    Ok(levels)
}

impl Scratch {
    /// Rows of so many pixels, for a list and 64 groups in each other. It takes all the memory that drawing works with;
    /// `NoMemory` where there is none.
    pub fn new(alloc: Global, width: u16) -> Result<Scratch, NoMemory>
        ensures { IfOk result (λ scratch. scratch ≡ record { width = width; room = 0 }) }
    {
        Ok(Scratch {
            width,
            row: Line::new(alloc, usize::from(width))?,
            levels: new_levels(alloc, width)?,
            tools: Tools::new(alloc, width)?,
            notes: Vec::new(alloc),
        })
    }

    /// The pixels of a row. It takes no memory.
    pub fn width(&self) -> u16
        ensures { result ≡ self.now.width }
    {
        self.width
    }

    /// Takes memory for notes on at least so many entries, so that a group's end and what of an entry is visible are found
    /// once in a drawing and not in each row. Drawing gives the same pixels without them. `NoMemory` where there is none.
    pub fn reserve(&mut self, count: usize) -> Result<(), NoMemory>
        ensures width { self.new.width ≡ self.old.width }
        ensures room { OnOk result (count ≤ self.new.room) }
    {
        if self.notes.len() < count {
            self.notes.resize(count, blank_note())?;
        }
        Ok(())
    }
}
