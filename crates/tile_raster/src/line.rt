//! Rows of pixels.

ghost use Rattle.std.specs.Prelude.{◌≡◌, ◌≤◌, ◌<◌, ◌+ℤ◌, pos, ℕ, length, slice_index, IfOk};
ghost use Rattle.blend_rules.specs.Colour.{IsPixel, scaled, blended};
ghost use Rattle.blend_rules.specs.declared.mode.Mode.TheVariants.{Normal};
ghost use Rattle.primitives.specs.Colours.{primitive_colour};
ghost use Rattle.tile_raster.specs.Rows.{LineModel, width, pixel, line_plane, HasPixels, IsLine, IsSpan, IsPainted};
ghost use Rattle.tile_raster.specs.Spans.{IsFirst, x_of};

use crate::plane::{
    blend_plane, colour_plane, fill_plane, mask_plane, masked_over_plane, row_over_plane,
    scale_plane, solid_over_plane,
};
use crate::span::Span;
use blend_rules::{Mode, Plane, Px};
use image_store::{Store, know_store};
use primitives::Primitive;
use std::alloc::{AllocError, Global};
use std::marker::Model;
use wr_geom::Point;

/// A row of premultiplied colours, plane by plane.
#[derive(Drop)]
pub(crate) struct Line {
    blue: Vec<u8>,
    green: Vec<u8>,
    red: Vec<u8>,
    alpha: Vec<u8>,
}

impl Model for Line {
    ghost use Rattle.tile_raster.specs.Rows.{LineModel, IsLine};

    ghost Value = { LineModel };

    ghost view = { λ s. record { blue = s.blue.items; green = s.green.items; red = s.red.items; alpha = s.alpha.items } };

    ghost invariant = { λ s. IsLine (record { blue = s.blue.items; green = s.green.items; red = s.red.items; alpha = s.alpha.items }) };
}

impl Line {
    /// So many clear pixels.
    pub(crate) fn new(alloc: Global, width: usize) -> Result<Line, AllocError>
        ensures { IfOk result (λ line. length line.alpha ≡ width) }
    {
        Ok(Line {
            blue: vec![in alloc; 0; width]?,
            green: vec![in alloc; 0; width]?,
            red: vec![in alloc; 0; width]?,
            alpha: vec![in alloc; 0; width]?,
        })
    }

    /// What its type keeps. It does nothing.
    pub(crate) fn know_pixels(&self)
        ensures { HasPixels self.now }
    {
        let _ = self.alpha.len();
    }

    /// What its type keeps of its planes. It does nothing.
    pub(crate) fn know_line(&self)
        ensures { IsLine self.now }
    {
        let _ = self.alpha.len();
    }

    /// The bytes of a plane.
    pub(crate) fn plane(&self, p: Plane) -> &[u8]
        ensures value { result.now ≡ line_plane p self.now }
        ensures len { length result.now ≡ width self.now }
    {
        match p {
            Plane::B => self.blue.as_slice(),
            Plane::G => self.green.as_slice(),
            Plane::R => self.red.as_slice(),
            Plane::A => self.alpha.as_slice(),
        }
    }

    /// Gives one colour to a span.
    pub(crate) fn fill(&mut self, span: Span, colour: Px)
        requires span { IsSpan span (width self.old) }
        requires colour { IsPixel colour }
        ensures { IsPainted (λ _ _. colour) span self.old self.new }
    {
        fill_plane(&mut self.blue, span, colour.b);
        fill_plane(&mut self.green, span, colour.g);
        fill_plane(&mut self.red, span, colour.r);
        fill_plane(&mut self.alpha, span, colour.a);
    }

    /// Lays one colour over a span.
    pub(crate) fn over_solid(&mut self, span: Span, colour: Px)
        requires span { IsSpan span (width self.old) }
        requires colour { IsPixel colour }
        ensures { IsPainted (λ _ d. blended Normal colour d) span self.old self.new }
    {
        solid_over_plane(&mut self.blue, span, colour.b, colour.a);
        solid_over_plane(&mut self.green, span, colour.g, colour.a);
        solid_over_plane(&mut self.red, span, colour.r, colour.a);
        solid_over_plane(&mut self.alpha, span, colour.a, colour.a);
    }

    /// Lays one colour over a span, as far as a mask lets it through.
    pub(crate) fn over_masked(&mut self, span: Span, colour: Px, mask: &[u8])
        requires span { IsSpan span (width self.old) }
        requires colour { IsPixel colour }
        requires mask { length mask.now ≡ width self.old }
        ensures { IsPainted (λ k d. blended Normal (scaled colour (slice_index mask.now k)) d) span self.old self.new }
    {
        masked_over_plane(&mut self.blue, span, colour.b, colour.a, mask);
        masked_over_plane(&mut self.green, span, colour.g, colour.a, mask);
        masked_over_plane(&mut self.red, span, colour.r, colour.a, mask);
        masked_over_plane(&mut self.alpha, span, colour.a, colour.a, mask);
    }

    /// Scales the colours of a span by a share of 255.
    pub(crate) fn scale(&mut self, span: Span, share: u8)
        requires { IsSpan span (width self.old) }
        ensures { IsPainted (λ _ d. scaled d share) span self.old self.new }
    {
        scale_plane(&mut self.blue, span, share);
        scale_plane(&mut self.green, span, share);
        scale_plane(&mut self.red, span, share);
        scale_plane(&mut self.alpha, span, share);
    }

    /// Scales the colours of a span by a mask's bytes, of 255.
    pub(crate) fn mask(&mut self, span: Span, mask: &[u8])
        requires span { IsSpan span (width self.old) }
        requires mask { length mask.now ≡ width self.old }
        ensures { IsPainted (λ k d. scaled d (slice_index mask.now k)) span self.old self.new }
    {
        mask_plane(&mut self.blue, span, mask);
        mask_plane(&mut self.green, span, mask);
        mask_plane(&mut self.red, span, mask);
        mask_plane(&mut self.alpha, span, mask);
    }

    /// Blends a span of a row over that of this one in a mode.
    pub(crate) fn blend(&mut self, span: Span, mode: Mode, source: &Line)
        requires span { IsSpan span (width self.old) }
        requires source { width source.now ≡ width self.old }
        ensures { IsPainted (λ k d. blended mode (pixel source.now k) d) span self.old self.new }
    {
        let alphas = source.alpha.as_slice();
        blend_plane(
            mode,
            &mut self.blue,
            span,
            &source.blue,
            alphas,
            &self.alpha,
        );
        blend_plane(
            mode,
            &mut self.green,
            span,
            &source.green,
            alphas,
            &self.alpha,
        );
        blend_plane(mode, &mut self.red, span, &source.red, alphas, &self.alpha);
        row_over_plane(&mut self.alpha, span, alphas, alphas);
    }

    /// Gives a span the colours of a primitive; the row's first pixel lies at `first`.
    pub(crate) fn paint(&mut self, span: Span, first: Point, primitive: &Primitive, store: &Store)
        requires span { IsSpan span (width self.old) }
        requires first { IsFirst first }
        ensures { IsPainted (λ k _. primitive_colour store.now primitive.now (x_of first k) first.y) span self.old self.new }
    {
        know_store(store);
        let _kind = primitive.kind();
        colour_plane(&mut self.blue, span, Plane::B, first, primitive, store);
        colour_plane(&mut self.green, span, Plane::G, first, primitive, store);
        colour_plane(&mut self.red, span, Plane::R, first, primitive, store);
        colour_plane(&mut self.alpha, span, Plane::A, first, primitive, store);
    }
}
