use containers::Sequence;
use wr_geom::{Radii, Rect};

/// What positions are relative to. Node 0 is the root; those of a list are numbered from 1 in order.
#[derive(Clone, Copy, Debug, PartialEq, Eq, Hash)]
pub enum Node {
    /// Moved by whole pixels against its parent, and by the offset property `prop` where it has one.
    Reference {
        parent: u16,
        x: i32,
        y: i32,
        prop: Option<u16>,
    },
    /// Scrolled by the position of the scroll number `sid`, as far as the content of these sides exceeds
    /// the viewport, in pixels.
    Scroll {
        parent: u16,
        sid: u16,
        view_w: u32,
        view_h: u32,
        content_w: u32,
        content_h: u32,
    },
}

impl Node {
    ghost use Rattle.std.specs.Prelude.{◌≡◌};
    ghost use Rattle.display_list.specs.Levels.{parent_of};

    /// The number of its parent.
    pub fn parent(self) -> u16
        ensures { result ≡ parent_of self }
    {
        match self {
            Node::Reference { parent, .. } => parent,
            Node::Scroll { parent, .. } => parent,
        }
    }
}

/// A clip, numbered from 0 in order: its rectangle is relative to its node. A clip that isn't `round` has
/// radii 0. An `out` clip keeps what lies outside.
#[derive(Clone, Copy, Debug, PartialEq, Eq, Hash)]
pub struct ClipDef {
    pub node: u16,
    pub out: bool,
    pub round: bool,
    pub rect: Rect,
    pub radii: Radii,
}

/// A chain of clips, numbered from 0 in order: those of its parent chain, then its own.
#[derive(Debug, Drop)]
pub struct ChainDef {
    pub parent: Option<u16>,
    pub clips: Sequence<u16>,
}
