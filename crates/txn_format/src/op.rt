//! The operations of a transaction.

use blend_rules::Px;

/// An operation. What it holds of a list, an image or a glyph is borrowed from the payload.
///
/// An image's bytes are texels row by row, each blue, green, red and alpha, premultiplied or not; a
/// glyph's are masks row by row. Sides are 1 to 4,096 texels.
#[derive(Clone, Copy, Debug, PartialEq, Eq)]
pub enum Op<'a> {
    /// A display list in place of the pipeline's, as its bytes.
    SetList {
        epoch: u32,
        bytes: &'a [u8],
    },
    /// The pipeline loses its list and its positions.
    RemovePipeline,
    /// A scroll position, in pixels within 2^20 of 0.
    Scroll {
        sid: u16,
        x: i32,
        y: i32,
    },
    /// A property that is an offset, in pixels within 2^20 of 0. The id is below 65535.
    SetOffset {
        id: u16,
        x: i32,
        y: i32,
    },
    /// A property that is an opacity. The id is below 65535.
    SetOpacity {
        id: u16,
        opacity: u8,
    },
    /// An image, in place of one of its key.
    AddImage {
        key: u32,
        w: u16,
        h: u16,
        pixels: &'a [u8],
    },
    /// A rectangle of texels in an image.
    UpdateImage {
        key: u32,
        x: u16,
        y: u16,
        w: u16,
        h: u16,
        pixels: &'a [u8],
    },
    /// An image leaves.
    DeleteImage {
        key: u32,
    },
    /// A glyph's mask, in place of one of its numbers.
    AddGlyph {
        font: u16,
        glyph: u16,
        w: u16,
        h: u16,
        mask: &'a [u8],
    },
    /// All glyphs of a font leave.
    DeleteFont {
        font: u16,
    },
    /// The view's sides, 1 to 4,096 pixels, and the premultiplied colour under all items. Of pipeline 0 alone.
    SetView {
        w: u16,
        h: u16,
        clear: Px,
    },
    /// A tile's sides, 64 to 1,024 pixels, and how many tiles are kept: 1 to 65,536, of at most 2^28
    /// pixels. Of pipeline 0 alone.
    TilePolicy {
        tw: u16,
        th: u16,
        budget: u32,
    },
    /// All kept tiles are dropped. Of pipeline 0 alone.
    DropTiles,
}

/// An operation and the position of its tag, an offset in the payload in bytes.
#[derive(Clone, Copy, Debug, PartialEq, Eq)]
pub struct Placed<'a> {
    pub at: u32,
    pub op: Op<'a>,
}
