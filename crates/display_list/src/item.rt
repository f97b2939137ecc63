use blend_rules::{Mode, Px};
use containers::Sequence;
use wr_geom::{Radii, Rect, Widths};

/// Where an item stands: its rectangle is relative to its node.
#[derive(Clone, Copy, Debug, PartialEq, Eq, Hash)]
pub struct Spot {
    pub node: u16,
    pub chain: Option<u16>,
    pub rect: Rect,
}

/// A glyph and its position in pixels, relative to the item's node.
#[derive(Clone, Copy, Debug, PartialEq, Eq, Hash)]
pub struct GlyphAt {
    pub glyph: u16,
    pub x: i32,
    pub y: i32,
}

/// What is drawn, back to front.
#[derive(Debug, Drop)]
pub enum Item {
    Solid {
        spot: Spot,
        colour: Px,
    },
    /// The image `key`, whose texel (`u`, `v`) lies in the rectangle's first corner.
    Image {
        spot: Spot,
        key: u32,
        u: u16,
        v: u16,
    },
    Border {
        spot: Spot,
        widths: Widths,
        top: Px,
        right: Px,
        bottom: Px,
        left: Px,
        radii: Radii,
    },
    Text {
        spot: Spot,
        font: u16,
        colour: Px,
        glyphs: Sequence<GlyphAt>,
    },
    Context {
        node: u16,
        chain: Option<u16>,
        opacity: u8,
        prop: Option<u16>,
        mode: Mode,
        isolate: bool,
        children: Vec<Item>,
    },
    /// The items of another pipeline.
    Iframe {
        spot: Spot,
        pipeline: u8,
    },
    HitArea {
        spot: Spot,
        tag: u32,
    },
}
