ghost use Rattle.std.specs.Prelude.{◌≡◌, ◌↔◌, IsTrue, IfOk, All};
ghost use Rattle.wr_geom.specs.Bounds.{IsCoordinate};
ghost use Rattle.blend_rules.specs.Colour.{IsPixel};
ghost use Rattle.display_list.specs.Facts.{IsBorder};
ghost use Rattle.primitives.specs.PrimitiveModel.{IsGlyphUse, IsKind};
ghost use Rattle.primitives.specs.Moves.{CanShiftKind, shifted_kind};

use crate::lists::{copied_glyphs, shifted_glyphs};
use blend_rules::{Px, know_bytes};
use containers::Sequence;
use wr_geom::{MAX_RECT_COORDINATE, NoMemory, Point, Radii, Rect, Widths};

/// A glyph's mask and the position of its first corner, in pixels within -2^29 and 2^29.
///
/// The generation is that of the stored mask, and none where none was stored: then nothing is drawn,
/// whatever is stored later.
#[derive(Clone, Copy, Debug, PartialEq, Eq, PartialOrd, Ord, Hash)]
pub struct GlyphUse {
    pub glyph: u16,
    pub x: i32,
    pub y: i32,
    pub generation: Option<u64>,
}

/// What a primitive shows in its rectangle.
#[derive(Debug, PartialEq, Eq, PartialOrd, Ord, Drop)]
pub enum Kind {
    /// One colour.
    Solid(Px),
    /// A stored image, repeated on both axes: its texel at column `u` and row `v` lies in the rectangle's
    /// first corner. The generation is that of the image, and none where none was stored: then nothing is
    /// drawn, whatever is stored later.
    Image {
        pipeline: u8,
        key: u32,
        generation: Option<u64>,
        u: u16,
        v: u16,
    },
    /// Four sides of a colour each, round a shape that stays clear.
    Border {
        widths: Widths,
        top: Px,
        right: Px,
        bottom: Px,
        left: Px,
        radii: Radii,
    },
    /// Glyphs of one font and colour, in order.
    Text {
        pipeline: u8,
        font: u16,
        colour: Px,
        glyphs: Sequence<GlyphUse>,
    },
}

impl Kind {
    /// Whether it can stand in a rectangle: its colours are premultiplied, glyphs stand within -2^29 and
    /// 2^29 pixels, and a border's widths and radii are at most 4,096 pixels and fit.
    pub fn fits(&self, rect: Rect) -> bool
        ensures { IsTrue result ↔ IsKind rect self.now }
    {
        match self {
            Kind::Solid(colour) => is_pixel(*colour),
            Kind::Image { .. } => true,
            Kind::Border {
                widths,
                top,
                right,
                bottom,
                left,
                radii,
            } => {
                is_border(rect, *widths, *radii)
                    && is_pixel(*top)
                    && is_pixel(*right)
                    && is_pixel(*bottom)
                    && is_pixel(*left)
            }
            Kind::Text { colour, glyphs, .. } => {
                is_pixel(*colour) && are_near(glyphs.as_slice())
            }
        }
    }

    /// An equal kind.
    pub fn copy(&self) -> Result<Kind, NoMemory>
        ensures { IfOk result (λ kind. kind ≡ self.now) }
    {
        Ok(match self {
            Kind::Solid(colour) => Kind::Solid(*colour),
            Kind::Image {
                pipeline,
                key,
                generation,
                u,
                v,
            } => Kind::Image {
                pipeline: *pipeline,
                key: *key,
                generation: *generation,
                u: *u,
                v: *v,
            },
            Kind::Border {
                widths,
                top,
                right,
                bottom,
                left,
                radii,
            } => Kind::Border {
                widths: *widths,
                top: *top,
                right: *right,
                bottom: *bottom,
                left: *left,
                radii: *radii,
            },
            Kind::Text {
                pipeline,
                font,
                colour,
                glyphs,
            } => Kind::Text {
                pipeline: *pipeline,
                font: *font,
                colour: *colour,
                glyphs: copied_glyphs(glyphs)?,
            },
        })
    }

    /// Moved with its rectangle by whole pixels; moved glyphs must stand in range. It takes no memory.
    pub(crate) fn shift(self, by: Point) -> Kind
        requires { CanShiftKind by self }
        ensures { result ≡ shifted_kind self by }
    {
        match self {
            Kind::Text {
                pipeline,
                font,
                colour,
                glyphs,
            } => Kind::Text {
                pipeline,
                font,
                colour,
                glyphs: shifted_glyphs(glyphs, by),
            },
            kind => kind,
        }
    }
}

/// Whether a colour is premultiplied.
fn is_pixel(colour: Px) -> bool
    ensures { IsTrue result ↔ IsPixel colour }
{
    know_bytes(colour);
    colour.is_premultiplied()
}

/// Whether a border of these widths and radii fits a rectangle.
fn is_border(rect: Rect, widths: Widths, radii: Radii) -> bool
    ensures { IsTrue result ↔ IsBorder rect widths radii }
{
    widths.are_small() && widths.fit(rect) && radii.are_small() && radii.fit(rect)
}

/// Whether a coordinate lies within -2^29 and 2^29 pixels.
fn is_coordinate(z: i32) -> bool
    ensures { IsTrue result ↔ IsCoordinate z }
{
    if z < -MAX_RECT_COORDINATE {
        return false;
    }
    z <= MAX_RECT_COORDINATE
}

/// Whether a glyph stands within -2^29 and 2^29 pixels on both axes.
fn is_near(g: GlyphUse) -> bool
    ensures { IsTrue result ↔ IsGlyphUse g }
{
    is_coordinate(g.x) && is_coordinate(g.y)
}

/// Whether each glyph does.
fn are_near(glyphs: &[GlyphUse]) -> bool
    ensures { IsTrue result ↔ All IsGlyphUse glyphs.now }
{
    for g in glyphs {
        if !is_near(*g) {
            return false;
        }
    }
    true
}
