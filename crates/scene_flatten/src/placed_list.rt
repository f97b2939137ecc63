//! A pipeline's list where it is drawn.

ghost use Rattle.std.specs.Prelude.{◌≡◌, ◌<◌, ◌+◌, ◌^◌, length, IfOk, Option};
ghost use Rattle.std.specs.Option.{option_map};
ghost use Rattle.display_list.specs.Facts.{IsSpot};
ghost use Rattle.spatial_tree.specs.Homes.{root_scroll_of, scroll_of};
ghost use Rattle.spatial_tree.specs.Offsets.{IsWithin};
ghost use Rattle.pipelines.specs.Table.{AreFit};
ghost use Rattle.painter.specs.Facts.{Reaches};
ghost use Rattle.painter.specs.Frames.{root_frame_of, own_frame};
ghost use Rattle.painter.specs.PlacedList.{bound_opacity, item_rect, node_point, placed_at};

use display_list::{List, Node, Spot};
use pipelines::Pipelines;
use spatial_tree::{Moves, offsets};
use std::alloc::Global;
use std::marker::Model;
use wr_geom::{NoMemory, Point, Rect};

/// A pipeline's list, what moves its nodes, and where they are, in pixels: within 2^27 pixels of (0, 0) on each
/// axis.
#[derive(Drop)]
pub(crate) struct PlacedList<'a> {
    pub(crate) pipeline: u8,
    pub(crate) list: &'a List,
    pub(crate) moves: &'a Moves,
    pub(crate) origin: Point,
    /// The root's point, and then each node's by its number.
    pub(crate) points: Vec<Point>,
}

impl<'a> Model for PlacedList<'a> {
    ghost use Rattle.painter.specs.PlacedList.{PlacedList, placed_code};
    ghost use Rattle.scene_flatten.specs.Facts.{IsNearList, HasPoints};

    ghost Value = { PlacedList };

    ghost coded = { placed_code };

    ghost view = { λ l. record { pipeline = l.pipeline; list = l.list.now; moves = l.moves.now; origin = l.origin } };

    ghost invariant = { λ l. IsNearList (record { pipeline = l.pipeline; list = l.list.now; moves = l.moves.now; origin = l.origin })
        × HasPoints (record { pipeline = l.pipeline; list = l.list.now; moves = l.moves.now; origin = l.origin }) l.points.items };
}

/// A scroll frame of a list: its number as a node, and its scroll number.
#[derive(Clone, Copy)]
pub(crate) struct Frame {
    pub(crate) node: u16,
    pub(crate) scroll: u16,
}

/// The list of a pipeline whose root is at a point, where it has one.
pub(crate) fn placed_list(
    alloc: Global,
    pipelines: &Pipelines,
    pipeline: u8,
    origin: Point,
) -> Result<Option<PlacedList<'_>>, NoMemory>
    requires { Reaches pipelines.now pipeline origin }
    ensures value { IfOk result (λ placed. placed ≡ placed_at pipelines.now pipeline origin) }
    ensures fit { AreFit pipelines.now }
{
    let has = pipelines.get(pipeline);
    let Some(listed) = has.listed() else {
        return Ok(None);
    };
    let list = listed.list();
    let moves = has.moves();
    let points = offsets(alloc, list, moves, origin)?;
    Ok(Some(PlacedList {
        pipeline,
        list,
        moves,
        origin,
        points,
    }))
}

/// A node as a scroll frame, where it is one.
fn own_frame(number: u16, node: Node) -> Option<Frame>
    ensures node { option_map (λ f. f.node) result ≡ own_frame number node }
    ensures scroll { option_map (λ f. f.scroll) result ≡ scroll_of node }
{
    match node {
        Node::Reference { .. } => None,
        Node::Scroll { sid, .. } => Some(Frame {
            node: number,
            scroll: sid,
        }),
    }
}

impl PlacedList<'_> {
    /// Where a node is.
    pub(crate) fn node_point(&self, node: u16) -> Point
        requires { node < length self.now.list.nodes + 1 }
        ensures value { result ≡ node_point self.now node }
        ensures reach { IsWithin (2 ^ 27) result }
    {
        let points = self.points.as_slice();
        points[node as usize]
    }

    /// Where an item is.
    pub(crate) fn item_rect(&self, spot: Spot) -> Rect
        requires { IsSpot (length self.now.list.nodes + 1) (length self.now.list.chains) spot }
        ensures { result ≡ item_rect self.now spot }
    {
        let (node, rect) = (spot.node, spot.rect);
        rect.shift(self.node_point(node))
    }

    /// A context's opacity: that of its property where it is set, else its own.
    pub(crate) fn opacity(&self, prop: Option<u16>, own: u8) -> u8
        ensures { result ≡ bound_opacity self.now.moves prop own }
    {
        match prop {
            None => own,
            Some(id) => self.moves.opacity(id).unwrap_or(own),
        }
    }

    /// The outermost scroll frame on the way from the root to a node.
    pub(crate) fn root_frame(&self, node: u16) -> Option<Frame>
        requires { node < length self.now.list.nodes + 1 }
        ensures node { option_map (λ f. f.node) result ≡ root_frame_of self.now.list.nodes node }
        ensures scroll { option_map (λ f. f.scroll) result ≡ root_scroll_of self.now.list.nodes node }
    {
        let nodes = self.list.nodes();
        let mut outermost = None;
        let mut at = node;
        'up: while at > 0 {
            let own = nodes[at as usize - 1];
            outermost = own_frame(at, own).or(outermost);
            at = own.parent();
        }
        outermost
    }
}
