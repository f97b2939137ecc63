//! What an item shows at a pixel, under its chain and over a backdrop.

ghost use Rattle.std.specs.Prelude.{◌≡◌, ◌+◌, ◌+ℤ◌, ◌^◌, All, length, map};
ghost use Rattle.blend_rules.specs.Colour.{IsPremultiplied, IsPixel};
ghost use Rattle.display_list.specs.Facts.{IsBorder, IsGlyph, IsSpot};
ghost use Rattle.primitives.specs.Borders.{HasPixelColours};
ghost use Rattle.primitives.specs.Colours.{glyph_use_over, text_colour};
ghost use Rattle.primitives.specs.declared.kind.Kind.TheVariants as kind;
ghost use Rattle.spatial_tree.specs.Offsets.{IsWithin};
ghost use Rattle.painter.specs.Painter.{glyph_use, image_kind, paint_primitive, primitive_of, text_kind};

use crate::pixel::ScenePixel;
use crate::placed_list::PlacedList;
use blend_rules::{Px, know_bytes};
use display_list::{GlyphAt, Spot};
use primitives::{BorderColours, border_colour, glyph_over, image_colour_at};
use wr_geom::{Point, Radii, Widths};

/// Where the first corner of a glyph's mask lies, in pixels, where its item's node is at a point. It takes no
/// memory.
pub fn glyph_corner(at: Point, g: GlyphAt) -> Point
    requires glyph { IsGlyph g }
    requires reach { IsWithin (2 ^ 27) at }
    ensures { result ≡ record { x = at.x +ℤ g.x; y = at.y +ℤ g.y } }
{
    Point {
        x: at.x + g.x,
        y: at.y + g.y,
    }
}

impl ScenePixel<'_> {
    /// A solid.
    pub(crate) fn solid(
        &self,
        placed: &PlacedList<'_>,
        spot: Spot,
        colour: Px,
        cover: u8,
        backdrop: Px,
    ) -> Px
        requires spot { IsSpot (length placed.now.list.nodes + 1) (length placed.now.list.chains) spot }
        requires colour { IsPixel colour }
        requires backdrop { IsPremultiplied backdrop }
        ensures value { result ≡ paint_primitive self.now (primitive_of placed.now spot (kind.Solid colour)) cover backdrop }
        ensures premultiplied { IsPremultiplied result }
    {
        know_bytes(backdrop);
        let chain = spot.chain;
        match self.rect_here(placed, spot) {
            None => backdrop,
            Some(_) => self.lay(placed, chain, colour, cover, backdrop),
        }
    }

    /// An image, clear where none is stored.
    pub(crate) fn image(
        &self,
        placed: &PlacedList<'_>,
        spot: Spot,
        key: u32,
        u: u16,
        v: u16,
        cover: u8,
        backdrop: Px,
    ) -> Px
        requires spot { IsSpot (length placed.now.list.nodes + 1) (length placed.now.list.chains) spot }
        requires backdrop { IsPremultiplied backdrop }
        ensures value { result ≡ paint_primitive self.now (primitive_of placed.now spot (image_kind self.now.store placed.now key u v)) cover backdrop }
        ensures premultiplied { IsPremultiplied result }
    {
        know_bytes(backdrop);
        let chain = spot.chain;
        match self.rect_here(placed, spot) {
            None => backdrop,
            Some(rect) => {
                let at = self.at();
                let colour = image_colour_at(
                    self.store,
                    placed.pipeline,
                    key,
                    rect,
                    u,
                    v,
                    at.x,
                    at.y,
                );
                self.lay(placed, chain, colour, cover, backdrop)
            }
        }
    }

    /// A border.
    pub(crate) fn border(
        &self,
        placed: &PlacedList<'_>,
        spot: Spot,
        widths: Widths,
        colours: BorderColours,
        radii: Radii,
        cover: u8,
        backdrop: Px,
    ) -> Px
        requires spot { IsSpot (length placed.now.list.nodes + 1) (length placed.now.list.chains) spot }
        requires border { IsBorder spot.rect widths radii }
        requires colours { HasPixelColours colours }
        requires backdrop { IsPremultiplied backdrop }
        ensures value { result ≡ paint_primitive self.now (primitive_of placed.now spot (kind.Border widths colours.top colours.right colours.bottom colours.left radii)) cover backdrop }
        ensures premultiplied { IsPremultiplied result }
    {
        know_bytes(backdrop);
        let chain = spot.chain;
        match self.rect_here(placed, spot) {
            None => backdrop,
            Some(rect) => {
                let at = self.at();
                let colour = border_colour(rect, widths, colours, radii, at.x, at.y);
                self.lay(placed, chain, colour, cover, backdrop)
            }
        }
    }

    /// One glyph more over what is so far, where its item's node is at a point.
    fn with_glyph(
        &self,
        pipeline: u8,
        font: u16,
        colour: Px,
        at: Point,
        so_far: Px,
        g: GlyphAt,
    ) -> Px
        requires colour { IsPixel colour }
        requires so_far { IsPixel so_far }
        requires glyph { IsGlyph g }
        requires reach { IsWithin (2 ^ 27) at }
        ensures value { result ≡ glyph_use_over self.now.store pipeline font colour self.now.x self.now.y so_far (glyph_use self.now.store pipeline font at g) }
        ensures pixel { IsPixel result }
    {
        let here = self.at();
        let corner = glyph_corner(at, g);
        glyph_over(
            self.store, pipeline, font, colour, g.glyph, corner, so_far, here.x, here.y,
        )
    }

    /// The glyphs of a text in order, from clear.
    fn text_colour(&self, pipeline: u8, font: u16, colour: Px, at: Point, glyphs: &[GlyphAt]) -> Px
        requires colour { IsPixel colour }
        requires glyphs { All IsGlyph glyphs.now }
        requires reach { IsWithin (2 ^ 27) at }
        ensures value { result ≡ text_colour self.now.store pipeline font colour (map (glyph_use self.now.store pipeline font at) glyphs.now) self.now.x self.now.y }
        ensures pixel { IsPixel result }
    {
        let mut so_far = Px::CLEAR;
        for g in glyphs {
            so_far = self.with_glyph(pipeline, font, colour, at, so_far, *g);
        }
        so_far
    }

    /// A text.
    pub(crate) fn text(
        &self,
        placed: &PlacedList<'_>,
        spot: Spot,
        font: u16,
        colour: Px,
        glyphs: &[GlyphAt],
        cover: u8,
        backdrop: Px,
    ) -> Px
        requires spot { IsSpot (length placed.now.list.nodes + 1) (length placed.now.list.chains) spot }
        requires colour { IsPixel colour }
        requires glyphs { All IsGlyph glyphs.now }
        requires backdrop { IsPremultiplied backdrop }
        ensures value { result ≡ paint_primitive self.now (primitive_of placed.now spot (text_kind self.now.store placed.now spot.node font colour glyphs.now)) cover backdrop }
        ensures premultiplied { IsPremultiplied result }
    {
        know_bytes(backdrop);
        let (node, chain) = (spot.node, spot.chain);
        match self.rect_here(placed, spot) {
            None => backdrop,
            Some(_) => {
                let at = placed.node_point(node);
                let shown = self.text_colour(placed.pipeline, font, colour, at, glyphs);
                self.lay(placed, chain, shown, cover, backdrop)
            }
        }
    }
}
