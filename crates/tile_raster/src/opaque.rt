//! Opaque primitives, taken front to back.

ghost use Rattle.std.specs.Prelude.{◌≡◌, ◌≤◌, ◌<◌, ℕ, IsTrue, length, slice_index, IfSome};
ghost use Rattle.primitives.specs.Colours.{primitive_colour, visible_rect};
ghost use Rattle.batching.specs.Depths.{depth_at, is_open};
ghost use Rattle.tile_raster.specs.Rows.{width, IsSpan, IsIn, IsPainted};
ghost use Rattle.tile_raster.specs.Spans.{IsStrip, IsFullRun, HoldsPixel, x_of, coverage_at};
ghost use Rattle.tile_raster.specs.Notes.{IsNoted};
ghost use Rattle.tile_raster.specs.Rasters.{AreTaken};

use crate::line::Line;
use crate::note::Noted;
use crate::plane::cover_plane;
use crate::span::Span;
use crate::strip::{Strip, cut_strip};
use batching::Cover;
use primitives::Kind;
use wr_geom::Rect;

/// The leftmost index of a span from which a mask's bytes are 255, or its end.
fn first_full(mask: &[u8], span: Span) -> u16
    requires { IsSpan span (length mask.now) }
    ensures left { span.from ≤ result }
    ensures right { result ≤ span.to }
    ensures here { result < span.to → slice_index mask.now result ≡ 255 }
{
    for k in span.from..span.to {
        if mask[usize::from(k)] == 255 {
            return k;
        }
    }
    span.to
}

/// The leftmost index of a span at which a mask's byte isn't 255, or its end.
fn first_partial(mask: &[u8], span: Span) -> u16
    requires { IsSpan span (length mask.now) }
    ensures left { span.from ≤ result }
    ensures right { result ≤ span.to }
    ensures before { (k : ℕ) → span.from ≤ k → k < result → slice_index mask.now k ≡ 255 }
{
    for k in span.from..span.to {
        if mask[usize::from(k)] != 255 {
            return k;
        }
    }
    span.to
}

/// The leftmost part of a span in which each byte of a mask is 255.
fn full_run(mask: &[u8], span: Span) -> Option<Span>
    requires { IsSpan span (length mask.now) }
    ensures { IfSome result (λ run. IsFullRun mask.now span run) }
{
    let from = first_full(mask, span);
    if from == span.to {
        return None;
    }
    let rest = Span {
        from: from + 1,
        to: span.to,
    };
    Some(Span {
        from,
        to: first_partial(mask, rest),
    })
}

/// Gives a strip the colours of a primitive in whose rectangle it lies.
fn paint_strip(noted: Noted, strip: Strip, row: &mut Line)
    requires noted { IsNoted noted }
    requires strip { IsStrip strip (width row.old) }
    requires inside { (k : ℕ) → IsIn strip.span k → HoldsPixel noted.primitive.now.rect strip.first k }
    ensures { IsPainted (λ k _. primitive_colour noted.entry.store.now noted.entry.primitive.now (x_of strip.first k) strip.first.y)
        strip.span row.old row.new }
{
    match noted.primitive.kind() {
        Kind::Solid(colour) => row.fill(strip.span, *colour),
        _ => row.paint(strip.span, strip.first, noted.primitive, noted.store),
    }
}

/// Takes the open pixels of a strip in which a primitive is whole.
fn take_strip(noted: Noted, strip: Strip, cover: &mut Cover, row: &mut Line)
    requires noted { IsNoted noted }
    requires strip { IsStrip strip (width row.old) }
    requires cover { length cover.old ≡ width row.old }
    requires was_open { (k : ℕ) → IsIn strip.span k → IsTrue (is_open (depth_at cover.old k)) }
    requires inside { (k : ℕ) → IsIn strip.span k → HoldsPixel noted.primitive.now.rect strip.first k }
    requires whole { (k : ℕ) → IsIn strip.span k → coverage_at noted.primitive.now.clips strip.first k ≡ 255 }
    ensures { AreTaken noted.entry strip cover.old cover.new row.old row.new }
{
    let Span { from, to } = strip.span;
    cover.cover(from, to, noted.number as u32 + 1);
    paint_strip(noted, strip, row);
}

/// Takes the open pixels of a strip in a primitive's rectangle where its clips leave all of it.
fn take_runs(noted: Noted, strip: Strip, cover: &mut Cover, mask: &mut Vec<u8>, row: &mut Line)
    requires noted { IsNoted noted }
    requires strip { IsStrip strip (width row.old) }
    requires cover { length cover.old ≡ width row.old }
    requires mask { length mask.old.items ≡ width row.old }
    requires was_open { (k : ℕ) → IsIn strip.span k → IsTrue (is_open (depth_at cover.old k)) }
    requires inside { (k : ℕ) → IsIn strip.span k → HoldsPixel noted.primitive.now.rect strip.first k }
    ensures taken { AreTaken noted.entry strip cover.old cover.new row.old row.new }
    ensures mask { length mask.new.items ≡ length mask.old.items }
{
    cover_plane(mask, strip, noted.primitive.clips());
    let Span { mut from, to } = strip.span;
    'runs: while let Some(run) = full_run(mask, Span { from, to }) {
        let part = Strip {
            span: run,
            first: strip.first,
        };
        take_strip(noted, part, cover, row);
        from = run.to;
    }
}

/// Takes the open pixels of a strip in which a primitive shows and its clips leave all of it.
fn take_part(noted: Noted, strip: Strip, cover: &mut Cover, mask: &mut Vec<u8>, row: &mut Line)
    requires noted { IsNoted noted }
    requires strip { IsStrip strip (width row.old) }
    requires cover { length cover.old ≡ width row.old }
    requires mask { length mask.old.items ≡ width row.old }
    requires was_open { (k : ℕ) → IsIn strip.span k → IsTrue (is_open (depth_at cover.old k)) }
    requires shown { (k : ℕ) → IsIn strip.span k → HoldsPixel (visible_rect noted.primitive.now) strip.first k }
    ensures taken { AreTaken noted.entry strip cover.old cover.new row.old row.new }
    ensures mask { length mask.new.items ≡ length mask.old.items }
{
    if noted.is_whole {
        take_strip(noted, strip, cover, row);
    } else {
        take_runs(noted, strip, cover, mask, row);
    }
}

/// Takes the open pixels of a strip in which an opaque primitive shows and its clips leave all of it: each has its
/// colour then, and its position plus one as depth.
pub(crate) fn take_opaque(
    noted: Noted,
    visible: Rect,
    strip: Strip,
    cover: &mut Cover,
    mask: &mut Vec<u8>,
    row: &mut Line,
)
    requires noted { IsNoted noted }
    requires visible { visible ≡ visible_rect noted.primitive.now }
    requires strip { IsStrip strip (width row.old) }
    requires cover { length cover.old ≡ width row.old }
    requires mask { length mask.old.items ≡ width row.old }
    ensures taken { AreTaken noted.entry strip cover.old cover.new row.old row.new }
    ensures mask { length mask.new.items ≡ length mask.old.items }
{
    let shown = cut_strip(strip, visible);
    let mut next = shown.from;
    'parts: while let Some((from, to)) = cover.next_open(next, shown.to) {
        let part = Strip {
            span: Span { from, to },
            first: strip.first,
        };
        take_part(noted, part, cover, mask, row);
        next = to;
    }
}
