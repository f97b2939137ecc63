//! Strips: spans of rows that stand in the plane.

ghost use Rattle.std.specs.Prelude.{◌≡◌, ◌≤◌, ◌<◌, ◌^◌, ◌≤ℤ◌, ◌<ℤ◌, ◌+ℤ◌, pos, ℕ};
ghost use Rattle.tile_raster.specs.Spans.{IsFirst, IsCut, x_of};

use crate::span::Span;
use wr_geom::{Point, Rect};

/// A span of the row whose first pixel lies at `first`.
#[derive(Clone, Copy, Debug)]
pub(crate) struct Strip {
    pub(crate) first: Point,
    pub(crate) span: Span,
}

/// The x of the pixel at an index of a row.
pub(crate) fn x_at(first: Point, k: u16) -> i32
    requires { IsFirst first }
    ensures { result ≡ x_of first k }
{
    first.x + i32::from(k)
}

/// The first place of a strip at or beyond an edge, or its end.
fn place_of(edge: i32, strip: Strip) -> u16
    requires order { strip.span.from ≤ strip.span.to }
    ensures left { strip.span.from ≤ result }
    ensures right { result ≤ strip.span.to }
    ensures before { (k : ℕ) → strip.span.from ≤ k → k < result → x_of strip.first k <ℤ edge }
    ensures after { (k : ℕ) → result ≤ k → k < strip.span.to → edge ≤ℤ x_of strip.first k }
{
    let Span { from, to } = strip.span;
    let distance = i64::from(edge) - i64::from(strip.first.x);
    if distance <= i64::from(from) {
        return from;
    }
    if i64::from(to) <= distance {
        return to;
    }
    distance as u16
}

/// The part of a strip that lies in a rectangle: empty where the row is beside it.
pub(crate) fn cut_strip(strip: Strip, rect: Rect) -> Span
    requires first { IsFirst strip.first }
    requires order { strip.span.from ≤ strip.span.to }
    ensures { IsCut rect strip result }
{
    let Span { from, .. } = strip.span;
    if strip.first.y < rect.y0() || rect.y1() <= strip.first.y {
        return Span { from, to: from };
    }
    let from = place_of(rect.x0(), strip);
    let to = place_of(rect.x1(), strip);
    Span {
        from,
        to: to.max(from),
    }
}
