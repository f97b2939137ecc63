//! A pipeline's list where it is drawn.

ghost use Rattle.std.specs.Prelude.{◌≡◌, ◌<◌, ◌+◌, ◌^◌, length};
ghost use Rattle.display_list.specs.Facts.{IsSpot};
ghost use Rattle.spatial_tree.specs.Homes.{root_scroll_of};
ghost use Rattle.spatial_tree.specs.Offsets.{IsWithin};
ghost use Rattle.painter.specs.PlacedList.{bound_opacity, first_corner, item_rect, node_point, stands_around};

use blend_rules::Mode;
use display_list::{List, Spot};
use spatial_tree::{Moves, node_offset, root_scroll};
use std::marker::Model;
use wr_geom::{Point, Rect};

/// A pipeline's list, what moves its nodes, and where its root is, in pixels. Each of its nodes is within
/// 2^27 pixels of (0, 0) on each axis.
#[derive(Drop)]
pub(crate) struct PlacedList<'a> {
    pub(crate) pipeline: u8,
    pub(crate) list: &'a List,
    pub(crate) moves: &'a Moves,
    pub(crate) origin: Point,
}

impl<'a> Model for PlacedList<'a> {
    ghost use Rattle.painter.specs.PlacedList.{PlacedList, placed_code};
    ghost use Rattle.painter.specs.Facts.{IsPlaced};

    ghost Value = { PlacedList };

    ghost coded = { placed_code };

    ghost view = { λ l. record { pipeline = l.pipeline; list = l.list.now; moves = l.moves.now; origin = l.origin } };

    ghost invariant = { λ l. IsPlaced (record { pipeline = l.pipeline; list = l.list.now; moves = l.moves.now; origin = l.origin }) };
}

impl PlacedList<'_> {
    /// Where a node is.
    pub(crate) fn node_point(&self, node: u16) -> Point
        requires { node < length self.now.list.nodes + 1 }
        ensures value { result ≡ node_point self.now node }
        ensures reach { IsWithin (2 ^ 27) result }
    {
        node_offset(self.list, self.moves, self.origin, node)
    }

    /// Where an item is.
    pub(crate) fn item_rect(&self, spot: Spot) -> Rect
        requires { IsSpot (length self.now.list.nodes + 1) (length self.now.list.chains) spot }
        ensures { result ≡ item_rect self.now spot }
    {
        let (node, rect) = (spot.node, spot.rect);
        rect.shift(self.node_point(node))
    }

    /// A context's opacity: that of its property where it is set, else its own.
    pub(crate) fn opacity(&self, prop: Option<u16>, own: u8) -> u8
        ensures { result ≡ bound_opacity self.now.moves prop own }
    {
        match prop {
            None => own,
            Some(id) => self.moves.opacity(id).unwrap_or(own),
        }
    }

    /// The number of the outermost scroll frame that moves a node.
    pub(crate) fn root_scroll(&self, node: u16) -> Option<u16>
        requires { node < length self.now.list.nodes + 1 }
        ensures { result ≡ root_scroll_of self.now.list.nodes node }
    {
        root_scroll(self.list, node)
    }
}

/// Whether a context of this opacity, mode, isolation and chain only stands around its items, and is no group
/// that is drawn by itself. It takes no memory.
#[tactic(auto, unfolding(crate::specs::PlacedList::stands_around))]
pub fn stands_around(opacity: u8, mode: Mode, isolate: bool, chain: Option<u16>) -> bool
    ensures { result ≡ stands_around opacity mode isolate chain }
{
    if opacity != 255 || isolate {
        return false;
    }
    if chain.is_some() {
        return false;
    }
    matches!(mode, Mode::Normal)
}

/// The first corner of a rectangle, in pixels. It takes no memory.
pub fn first_corner(rect: Rect) -> Point
    ensures { result ≡ first_corner rect }
{
    Point {
        x: rect.x0(),
        y: rect.y0(),
    }
}
