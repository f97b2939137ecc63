//! Small scenes by a generator, for a view of eight by eight pixels.

use super::colours::{BLACK, BLUE, GREEN, RED, WHITE};
use super::parts::Part::{
    Border, Chain, Frame, HitArea, Iframe, Image, Pop, Push, RectClip, Reference, RoundClip, Solid,
    Text,
};
use super::parts::{Colour, Edges, INSIDE, NONE, OUTSIDE, Part, ROOT};
use std::alloc::{AllocError, Global};

/// The whole view.
pub(super) const VIEW: Edges = [0, 0, 8, 8];

/// The pipeline whose list is there, and one that has none.
const LISTED: u8 = 2;

const UNLISTED: u8 = 9;

/// What all scenes define: nodes 1 to 4, of two scroll frames, and chains 0 to 3.
const DEFINITIONS: [Part<'static>; 12] = [
    Frame(ROOT, 1, [8, 8], [8, 64]),
    Frame(ROOT, 2, [8, 8], [32, 8]),
    Reference(1, [1, 2], NONE),
    Reference(ROOT, [2, 1], 7),
    RectClip(ROOT, [0, 0, 8, 6]),
    RectClip(1, [1, 1, 7, 20]),
    RoundClip(1, INSIDE, [0, 0, 8, 9], [3, 3, 2, 2, 1, 1, 0, 0]),
    RoundClip(ROOT, OUTSIDE, [2, 2, 6, 6], [2, 2, 2, 2, 2, 2, 2, 2]),
    Chain(NONE, &[0]),
    Chain(0, &[2]),
    Chain(NONE, &[1, 3]),
    Chain(2, &[0]),
];

/// What is put after each item of a scene.
#[derive(Clone, Copy)]
pub(super) enum Extra {
    /// Nothing.
    Nothing,
    /// A plain context without items.
    Context,
    /// A hit area.
    Area,
    /// A solid outside of the view, of the item's node.
    Outside,
    /// An Iframe of a pipeline without a list.
    Iframe,
}

/// Numbers by a linear congruential generator.
#[derive(Drop)]
struct Draws {
    state: u64,
}

impl Draws {
    /// A number below a limit, 0 for the limit 0.
    fn below(&mut self, limit: u16) -> u16 {
        let next = self.state.wrapping_mul(6_364_136_223_846_793_005);
        self.state = next.wrapping_add(1_442_695_040_888_963_407);
        let drawn = (self.state >> 33) % u64::from(limit.max(1));
        u16::try_from(drawn).unwrap_or(0)
    }

    /// A byte of at most this value.
    fn byte(&mut self, most: u8) -> u8 {
        let drawn = self.below(u16::from(most).saturating_add(1));
        u8::try_from(drawn).unwrap_or(0)
    }

    /// A premultiplied colour, opaque every other time.
    fn colour(&mut self) -> Colour {
        let alpha = match self.below(2) {
            0 => 255,
            _ => self.byte(255),
        };
        [self.byte(alpha), self.byte(alpha), self.byte(alpha), alpha]
    }

    /// A chain, or none.
    fn chain(&mut self) -> u16 {
        match self.below(6) {
            0 | 1 => NONE,
            number => number.saturating_sub(2),
        }
    }

    /// A rectangle with at least four pixels a side, so that a border fits.
    fn edges(&mut self) -> Edges {
        let x = i32::from(self.below(8)).saturating_sub(2);
        let y = i32::from(self.below(8)).saturating_sub(2);
        let width = i32::from(self.below(5)).saturating_add(4);
        let height = i32::from(self.below(5)).saturating_add(4);
        [x, y, x.saturating_add(width), y.saturating_add(height)]
    }

    /// A solid, an image, a border, a text or an Iframe, of this node.
    fn shape(&mut self, node: u16) -> Part<'static> {
        let (chain, edges) = (self.chain(), self.edges());
        match self.below(6) {
            0 => Image(node, chain, edges, 9, [1, 0]),
            1 => Border(
                node,
                chain,
                edges,
                [1, 2, 1, 2],
                [RED, GREEN, BLUE, WHITE],
                [2; 8],
            ),
            2 => Text(
                node,
                chain,
                edges,
                1,
                self.colour(),
                &[(5, [1, 1]), (5, [2, 3])],
            ),
            3 => Iframe(node, chain, edges, LISTED),
            _ => Solid(node, chain, edges, self.colour()),
        }
    }

    /// The begin of a context of this node.
    fn context(&mut self, node: u16) -> Part<'static> {
        let (chain, opacity) = (self.chain(), self.byte(255));
        let mode = self.byte(8);
        Push(node, chain, opacity, NONE, mode, 0)
    }
}

/// Appends what is put after an item of this node.
fn put_extra(list: &mut Vec<Part<'static>>, extra: Extra, node: u16) -> Result<(), AllocError> {
    match extra {
        Extra::Nothing => Ok(()),
        Extra::Context => {
            list.push(Push(node, NONE, 255, NONE, 0, 0))?;
            Ok(list.push(Pop)?)
        }
        Extra::Area => Ok(list.push(HitArea(node, NONE, VIEW, 3))?),
        Extra::Outside => Ok(list.push(Solid(node, NONE, [900, 900, 910, 910], WHITE))?),
        Extra::Iframe => Ok(list.push(Iframe(node, NONE, VIEW, UNLISTED))?),
    }
}

/// Appends an item of this node, or a context with two.
fn put_item(
    list: &mut Vec<Part<'static>>,
    draws: &mut Draws,
    extra: Extra,
    node: u16,
) -> Result<(), AllocError> {
    if draws.below(3) > 0 {
        list.push(draws.shape(node))?;
        return put_extra(list, extra, node);
    }
    list.push(draws.context(node))?;
    let child = draws.below(5);
    list.push(draws.shape(child))?;
    put_extra(list, extra, child)?;
    list.push(draws.shape(node))?;
    list.push(Pop)?;
    put_extra(list, extra, node)
}

/// The list of a scene with one to eight items or contexts, and something after each.
pub(super) fn scene(
    alloc: Global,
    seed: u64,
    extra: Extra,
) -> Result<Vec<Part<'static>>, AllocError> {
    let mut list = DEFINITIONS.to_vec(alloc)?;
    let mut draws = Draws { state: seed };
    let count = draws.below(8).saturating_add(1);
    for _ in 0..count {
        let node = draws.below(5);
        put_item(&mut list, &mut draws, extra, node)?;
    }
    Ok(list)
}
