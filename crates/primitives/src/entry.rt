ghost use Rattle.std.specs.Prelude.{◌≡◌, ◌≤◌, length, IfOk};
ghost use Rattle.primitives.specs.Clipping.{entry_clips, without_clips};
ghost use Rattle.primitives.specs.Moves.{CanShiftEntry, shifted_entry};

use crate::Primitive;
use crate::lists::{copied_clips, shifted_clips};
use blend_rules::Mode;
use clip_masks::Clip;
use containers::Sequence;
use wr_geom::{NoMemory, Point};

/// A step of painting over a stack of colours.
#[derive(Debug, PartialEq, Eq, PartialOrd, Ord, Drop)]
pub enum Entry {
    /// Paints over the colour on top.
    Primitive(Primitive),
    /// Opens a group: a clear colour on top.
    Push {
        opacity: u8,
        mode: Mode,
        clips: Sequence<Clip>,
    },
    /// Ends the group that was opened last: its colour is blended over the one below.
    Pop,
}

impl Entry {
    /// Its own clips, the outermost first.
    pub fn clips(&self) -> &[Clip]
        ensures { result.now ≡ entry_clips self.now }
    {
        match self {
            Entry::Primitive(primitive) => primitive.clips(),
            Entry::Push { clips, .. } => clips.as_slice(),
            Entry::Pop => &[],
        }
    }

    /// Without its first `count` clips. It takes no memory.
    pub fn without_clips(self, count: usize) -> Entry
        requires { count ≤ length (entry_clips self) }
        ensures { result ≡ without_clips self count }
    {
        match self {
            Entry::Primitive(primitive) => Entry::Primitive(primitive.without_clips(count)),
            Entry::Push {
                opacity,
                mode,
                mut clips,
            } => {
                clips.remove_front(count);
                Entry::Push {
                    opacity,
                    mode,
                    clips,
                }
            }
            Entry::Pop => Entry::Pop,
        }
    }

    /// An equal entry.
    pub fn copy(&self) -> Result<Entry, NoMemory>
        ensures { IfOk result (λ entry. entry ≡ self.now) }
    {
        Ok(match self {
            Entry::Primitive(primitive) => Entry::Primitive(primitive.copy()?),
            Entry::Push {
                opacity,
                mode,
                clips,
            } => Entry::Push {
                opacity: *opacity,
                mode: *mode,
                clips: copied_clips(clips)?,
            },
            Entry::Pop => Entry::Pop,
        })
    }

    /// Moved by whole pixels, with its clips and glyphs, which must stay in range. It takes no memory.
    pub fn shift(self, by: Point) -> Entry
        requires { CanShiftEntry by self }
        ensures { result ≡ shifted_entry self by }
    {
        match self {
            Entry::Primitive(primitive) => Entry::Primitive(primitive.shift(by)),
            Entry::Push {
                opacity,
                mode,
                clips,
            } => Entry::Push {
                opacity,
                mode,
                clips: shifted_clips(clips, by),
            },
            Entry::Pop => Entry::Pop,
        }
    }
}

/// One primitive, or one group from its Push to its Pop.
#[derive(Debug, Drop)]
pub struct Top {
    /// The pipeline and the scroll number of the scroll frame with which it moves, if any.
    pub scroll: Option<(u8, u16)>,
    /// Where that scroll frame stands, in pixels.
    pub origin: Point,
    /// For each clip of the first entry, the scroll frame with which that moves.
    pub homes: Sequence<Option<(u8, u16)>>,
    pub entries: Sequence<Entry>,
}
