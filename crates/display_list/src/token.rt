use crate::{ChainDef, ClipDef, GlyphAt, Node, Spot};
use blend_rules::{Mode, Px};
use containers::Sequence;
use wr_geom::{Radii, Widths};

/// An item as it stands in the bytes: a context is a push, its items and a pop.
#[derive(Debug, Drop)]
pub enum Token {
    Solid {
        spot: Spot,
        colour: Px,
    },
    Image {
        spot: Spot,
        key: u32,
        u: u16,
        v: u16,
    },
    Border {
        spot: Spot,
        widths: Widths,
        top: Px,
        right: Px,
        bottom: Px,
        left: Px,
        radii: Radii,
    },
    Text {
        spot: Spot,
        font: u16,
        colour: Px,
        glyphs: Sequence<GlyphAt>,
    },
    Push(Push),
    Pop,
    Iframe {
        spot: Spot,
        pipeline: u8,
    },
    HitArea {
        spot: Spot,
        tag: u32,
    },
}

/// How a context is drawn.
#[derive(Clone, Copy, Debug, PartialEq, Eq, Hash)]
pub struct Push {
    pub node: u16,
    pub chain: Option<u16>,
    pub opacity: u8,
    pub prop: Option<u16>,
    pub mode: Mode,
    pub isolate: bool,
}

/// One part of a list.
#[derive(Debug, Drop)]
pub enum Part {
    Node(Node),
    Clip(ClipDef),
    Chain(ChainDef),
    Item(Token),
}

/// The section of a list that its latest part stands in.
#[derive(Clone, Copy, Debug, PartialEq, Eq)]
pub enum Section {
    Nodes,
    Clips,
    Chains,
    Items,
}
