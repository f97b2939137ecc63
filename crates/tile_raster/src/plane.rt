//! Spans of one plane of a row.

ghost use Rattle.std.specs.Prelude.{◌≡◌, ◌≤◌, ◌<◌, ◌+◌, ◌-◌, ◌+ℤ◌, pos, ℕ, length, slice_index, EachIndex};
ghost use Rattle.blend_rules.specs.Colour.{product, blended_channel};
ghost use Rattle.blend_rules.specs.Planes.{channel};
ghost use Rattle.primitives.specs.Colours.{primitive_colour};
ghost use Rattle.span_kernels.specs.Bytes.{over_byte};
ghost use Rattle.tile_raster.specs.Rows.{IsSpan, IsIn, IsPlanePainted};
ghost use Rattle.tile_raster.specs.Spans.{IsFirst, IsStrip, coverage_at};

use crate::span::Span;
use crate::strip::{Strip, x_at};
use blend_rules::{Mode, Plane};
use clip_masks::{Clip, cover_row};
use image_store::Store;
use primitives::{Primitive, colour_row};
use span_kernels::{blend_row, fill, over_masked, over_row, over_solid, scale_by, scale_row};
use wr_geom::Point;

/// The bytes of a span.
pub(crate) fn part_of(plane: &[u8], span: Span) -> &[u8]
    requires { IsSpan span (length plane.now) }
    ensures len { length result.now ≡ span.to - span.from }
    ensures each { (k : ℕ) → k < span.to - span.from → slice_index result.now k ≡ slice_index plane.now (span.from + k) }
{
    &plane[usize::from(span.from)..usize::from(span.to)]
}

/// Gives one byte to a span.
pub(crate) fn fill_plane(plane: &mut Vec<u8>, span: Span, value: u8)
    requires { IsSpan span (length plane.old.items) }
    ensures { IsPlanePainted (λ _ _. value) span plane.old.items plane.new.items }
{
    let part = plane.slice_mut(usize::from(span.from)..usize::from(span.to));
    fill(part, value);
}

/// Lays a byte of a source under the alpha `sa` over a span.
pub(crate) fn solid_over_plane(plane: &mut Vec<u8>, span: Span, s: u8, sa: u8)
    requires span { IsSpan span (length plane.old.items) }
    requires premultiplied { s ≤ sa }
    ensures { IsPlanePainted (λ _ d. over_byte sa s d) span plane.old.items plane.new.items }
{
    let part = plane.slice_mut(usize::from(span.from)..usize::from(span.to));
    over_solid(part, s, sa);
}

/// Lays a byte of a source under the alpha `sa` over a span, as far as a mask lets it through.
pub(crate) fn masked_over_plane(plane: &mut Vec<u8>, span: Span, s: u8, sa: u8, mask: &[u8])
    requires span { IsSpan span (length plane.old.items) }
    requires mask { length mask.now ≡ length plane.old.items }
    requires premultiplied { s ≤ sa }
    ensures { IsPlanePainted (λ k d. over_byte (product sa (slice_index mask.now k)) (product s (slice_index mask.now k)) d)
        span plane.old.items plane.new.items }
{
    let part = plane.slice_mut(usize::from(span.from)..usize::from(span.to));
    over_masked(part, s, sa, part_of(mask, span));
}

/// Scales a span by a share of 255.
pub(crate) fn scale_plane(plane: &mut Vec<u8>, span: Span, share: u8)
    requires { IsSpan span (length plane.old.items) }
    ensures { IsPlanePainted (λ _ d. product d share) span plane.old.items plane.new.items }
{
    let part = plane.slice_mut(usize::from(span.from)..usize::from(span.to));
    scale_by(part, share);
}

/// Scales a span by a mask's bytes, of 255.
pub(crate) fn mask_plane(plane: &mut Vec<u8>, span: Span, mask: &[u8])
    requires span { IsSpan span (length plane.old.items) }
    requires mask { length mask.now ≡ length plane.old.items }
    ensures { IsPlanePainted (λ k d. product d (slice_index mask.now k)) span plane.old.items plane.new.items }
{
    let part = plane.slice_mut(usize::from(span.from)..usize::from(span.to));
    scale_row(part, part_of(mask, span));
}

/// Lays a span of a source under its alphas over that of a plane.
pub(crate) fn row_over_plane(plane: &mut Vec<u8>, span: Span, s: &[u8], sa: &[u8])
    requires span { IsSpan span (length plane.old.items) }
    requires source { length s.now ≡ length plane.old.items }
    requires alphas { length sa.now ≡ length plane.old.items }
    requires premultiplied { (k : ℕ) → slice_index s.now k ≤ slice_index sa.now k }
    ensures { IsPlanePainted (λ k d. over_byte (slice_index sa.now k) (slice_index s.now k) d) span plane.old.items plane.new.items }
{
    let part = plane.slice_mut(usize::from(span.from)..usize::from(span.to));
    over_row(part, part_of(s, span), part_of(sa, span));
}

/// Blends a span of a source over as many bytes of a plane.
fn blend_part(mode: Mode, part: &mut [u8], span: Span, s: &[u8], sa: &[u8], da: &[u8])
    requires source { IsSpan span (length s.now) }
    requires alphas { IsSpan span (length sa.now) }
    requires backdrop_alphas { IsSpan span (length da.now) }
    requires width { length part.old ≡ span.to - span.from }
    requires premultiplied { (k : ℕ) → slice_index s.now k ≤ slice_index sa.now k }
    requires backdrop { EachIndex part.old (λ k. slice_index part.old k ≤ slice_index da.now (span.from + k)) }
    ensures { EachIndex part.new (λ k. slice_index part.new k ≡ blended_channel mode (slice_index sa.now (span.from + k))
        (slice_index da.now (span.from + k)) (slice_index s.now (span.from + k)) (slice_index part.old k)) }
{
    blend_row(
        mode,
        part,
        part_of(s, span),
        part_of(sa, span),
        part_of(da, span),
    );
}

/// Blends a span of a source over that of a plane in a mode, under the alphas of both.
pub(crate) fn blend_plane(
    mode: Mode,
    plane: &mut Vec<u8>,
    span: Span,
    s: &[u8],
    sa: &[u8],
    da: &[u8],
)
    requires span { IsSpan span (length plane.old.items) }
    requires source { length s.now ≡ length plane.old.items }
    requires alphas { length sa.now ≡ length plane.old.items }
    requires backdrop_alphas { length da.now ≡ length plane.old.items }
    requires premultiplied { (k : ℕ) → slice_index s.now k ≤ slice_index sa.now k }
    requires backdrop { (k : ℕ) → slice_index plane.old.items k ≤ slice_index da.now k }
    ensures { IsPlanePainted (λ k d. blended_channel mode (slice_index sa.now k) (slice_index da.now k) (slice_index s.now k) d)
        span plane.old.items plane.new.items }
{
    let part = plane.slice_mut(usize::from(span.from)..usize::from(span.to));
    blend_part(mode, part, span, s, sa, da);
}

/// Writes one channel of a primitive's colours, each place of whose row lies that far right of `first`.
pub(crate) fn colour_plane(
    plane: &mut Vec<u8>,
    span: Span,
    p: Plane,
    first: Point,
    primitive: &Primitive,
    store: &Store,
)
    requires span { IsSpan span (length plane.old.items) }
    requires first { IsFirst first }
    ensures { IsPlanePainted (λ k _. channel p (primitive_colour store.now primitive.now (first.x +ℤ pos k) first.y))
        span plane.old.items plane.new.items }
{
    let part = plane.slice_mut(usize::from(span.from)..usize::from(span.to));
    let x = x_at(first, span.from);
    colour_row(primitive, store, p, first.y, x, part);
}

/// Writes how much clips leave of the pixels of a strip, of 255.
pub(crate) fn cover_plane(plane: &mut Vec<u8>, strip: Strip, clips: &[Clip])
    requires { IsStrip strip (length plane.old.items) }
    ensures { IsPlanePainted (λ k _. coverage_at clips.now strip.first k) strip.span plane.old.items plane.new.items }
{
    let Strip { first, span } = strip;
    let part = plane.slice_mut(usize::from(span.from)..usize::from(span.to));
    cover_row(clips, 255, first.y, x_at(first, span.from), part);
}
