//! Single rows of a frame.

ghost use Rattle.std.specs.Prelude.{◌≡◌, ◌≤◌, ◌<◌, ◌-◌, ℕ, length, EachIndex, slice_index};
ghost use Rattle.blend_rules.specs.Colour.{IsPixel};
ghost use Rattle.span_kernels.specs.Bytes.{over_byte};
ghost use Rattle.span_kernels.specs.PlanesModel.{byte_at, pixel_at};
ghost use Rattle.tile_compositor.specs.Laid.{IsSpanIn, IsRowOf, IsPlaneLaid, IsSpanLaid, span_byte, span_colour, span_over};

use crate::alphas::range_of;
use blend_rules::{Px, blend_laws};
use span_kernels::{Plane, Planes, Row, copy, fill, know_planes, over_row, part_laws};

/// Some columns of a row of a frame, from one to before another.
#[derive(Clone, Copy, Debug)]
pub(crate) struct Span {
    pub(crate) y: u16,
    pub(crate) from: u16,
    pub(crate) to: u16,
}

/// Gives one byte to a plane of a span.
fn fill_plane(planes: &mut Planes, p: Plane, span: Span, value: u8)
    requires { IsSpanIn planes.old span }
    ensures { IsPlaneLaid (λ _. value) p span planes.old planes.new }
{
    know_planes(planes);
    part_laws();
    fill(planes.row_mut(p, span.y, span.from, span.to), value);
}

/// Gives one colour to a span.
pub(crate) fn fill_span(planes: &mut Planes, span: Span, colour: Px)
    requires { IsSpanIn planes.old span }
    ensures { IsSpanLaid (λ _. colour) span planes.old planes.new }
{
    fill_plane(planes, Plane::B, span, colour.b);
    fill_plane(planes, Plane::G, span, colour.g);
    fill_plane(planes, Plane::R, span, colour.r);
    fill_plane(planes, Plane::A, span, colour.a);
}

/// Gives a row's bytes to a plane of a span of the same length.
fn copy_plane(planes: &mut Planes, p: Plane, span: Span, source: &[u8])
    requires span { IsSpanIn planes.old span }
    requires source { length source.now ≡ span.to - span.from }
    ensures { IsPlaneLaid (span_byte source.now span) p span planes.old planes.new }
{
    know_planes(planes);
    part_laws();
    copy(planes.row_mut(p, span.y, span.from, span.to), source);
}

/// Gives a row's colours to a span of the same length.
fn copy_span(planes: &mut Planes, span: Span, source: Row<'_>)
    requires span { IsSpanIn planes.old span }
    requires source { IsRowOf (span.to - span.from) source }
    ensures { IsSpanLaid (span_colour source.entry span) span planes.old planes.new }
{
    copy_plane(planes, Plane::B, span, source.b);
    copy_plane(planes, Plane::G, span, source.g);
    copy_plane(planes, Plane::R, span, source.r);
    copy_plane(planes, Plane::A, span, source.a);
}

/// Lays a row's bytes under its alphas over a plane of a span of the same length.
fn over_plane(planes: &mut Planes, p: Plane, span: Span, source: &[u8], alphas: &[u8])
    requires span { IsSpanIn planes.old span }
    requires source { length source.now ≡ span.to - span.from }
    requires alphas { length alphas.now ≡ span.to - span.from }
    requires premultiplied { EachIndex source.now (λ k. slice_index source.now k ≤ slice_index alphas.now k) }
    ensures { IsPlaneLaid
        (λ x. over_byte (span_byte alphas.now span x) (span_byte source.now span x) (byte_at p planes.old x span.y))
        p span planes.old planes.new }
{
    know_planes(planes);
    part_laws();
    over_row(
        planes.row_mut(p, span.y, span.from, span.to),
        source,
        alphas,
    );
}

/// Lays a row's colours over a span of the same length.
fn over_span(planes: &mut Planes, span: Span, source: Row<'_>)
    requires span { IsSpanIn planes.old span }
    requires source { IsRowOf (span.to - span.from) source }
    requires frame { (x : ℕ) → x < planes.old.width → IsPixel (pixel_at planes.old x span.y) }
    ensures { IsSpanLaid (span_over source.entry span planes.old) span planes.old planes.new }
{
    blend_laws();
    over_plane(planes, Plane::B, span, source.b, source.a);
    over_plane(planes, Plane::G, span, source.g, source.a);
    over_plane(planes, Plane::R, span, source.r, source.a);
    over_plane(planes, Plane::A, span, source.a, source.a);
}

/// Lays a row's colours over a span of the same length: opaque ones are copied, and clear ones cost nothing.
pub(crate) fn lay_span(planes: &mut Planes, span: Span, source: Row<'_>)
    requires span { IsSpanIn planes.old span }
    requires source { IsRowOf (span.to - span.from) source }
    requires frame { (x : ℕ) → x < planes.old.width → IsPixel (pixel_at planes.old x span.y) }
    ensures { IsSpanLaid (span_over source.entry span planes.old) span planes.old planes.new }
{
    let (least, greatest) = range_of(source.a);
    if greatest == 0 {
        return;
    }
    if least == 255 {
        copy_span(planes, span, source);
    } else {
        over_span(planes, span, source);
    }
}
