//! Primitives and groups, laid back to front over what they don't lie below.

ghost use Rattle.std.specs.Prelude.{◌≡◌, ◌≤◌, ◌<◌, ◌^◌, ℕ, length, slice_index, IsTrue, All};
ghost use Rattle.blend_rules.specs.Colour.{scaled, blended};
ghost use Rattle.clip_masks.specs.Clips.{IsRectClip};
ghost use Rattle.primitives.specs.Colours.{visible_rect};
ghost use Rattle.primitives.specs.declared.kind.Kind.TheVariants as kind;
ghost use Rattle.tile_raster.specs.Levels.{over_primitive};
ghost use Rattle.tile_raster.specs.Rows.{width, pixel, IsIn, IsPainted};
ghost use Rattle.tile_raster.specs.Spans.{IsStrip, HoldsPixel, x_of, coverage_at, painted_above};
ghost use Rattle.tile_raster.specs.Notes.{IsNoted};
ghost use Rattle.tile_raster.specs.Rasters.{IsFit};

use crate::level::Tools;
use crate::line::Line;
use crate::note::Noted;
use crate::plane::cover_plane;
use crate::span::Span;
use crate::strip::{Strip, cut_strip};
use batching::Cover;
use blend_rules::{Mode, Px};
use clip_masks::Clip;
use primitives::Kind;
use wr_geom::Rect;

/// Lays one colour over a strip, as far as a primitive's clips let it through.
fn lay_solid(noted: Noted, colour: Px, strip: Strip, mask: &mut Vec<u8>, row: &mut Line)
    requires noted { IsNoted noted }
    requires kind { noted.primitive.now.kind ≡ kind.Solid colour }
    requires strip { IsStrip strip (width row.old) }
    requires mask { length mask.old.items ≡ width row.old }
    requires shown { (k : ℕ) → IsIn strip.span k → HoldsPixel (visible_rect noted.primitive.now) strip.first k }
    ensures row { IsPainted (λ k d. over_primitive noted.entry.store.now noted.entry.primitive.now (x_of strip.first k) strip.first.y d)
        strip.span row.old row.new }
    ensures mask { length mask.new.items ≡ length mask.old.items }
{
    if noted.is_whole {
        row.over_solid(strip.span, colour);
    } else {
        cover_plane(mask, strip, noted.primitive.clips());
        row.over_masked(strip.span, colour, mask);
    }
}

/// Lays a primitive's colours over a strip, as far as its clips let them through.
fn lay_colours(noted: Noted, strip: Strip, tools: &mut Tools, row: &mut Line)
    requires noted { IsNoted noted }
    requires strip { IsStrip strip (width row.old) }
    requires tools { IsFit (width row.old) tools.old }
    requires shown { (k : ℕ) → IsIn strip.span k → HoldsPixel (visible_rect noted.primitive.now) strip.first k }
    ensures row { IsPainted (λ k d. over_primitive noted.entry.store.now noted.entry.primitive.now (x_of strip.first k) strip.first.y d)
        strip.span row.old row.new }
    ensures tools { IsFit (width row.old) tools.new }
{
    let tint = &mut tools.tint;
    tint.paint(strip.span, strip.first, noted.primitive, noted.store);
    if !noted.is_whole {
        cover_plane(&mut tools.mask, strip, noted.primitive.clips());
        tint.mask(strip.span, &tools.mask);
    }
    row.blend(strip.span, Mode::Normal, tint);
}

/// Lays a primitive over a strip in which it shows.
fn lay_part(noted: Noted, strip: Strip, tools: &mut Tools, row: &mut Line)
    requires noted { IsNoted noted }
    requires strip { IsStrip strip (width row.old) }
    requires tools { IsFit (width row.old) tools.old }
    requires shown { (k : ℕ) → IsIn strip.span k → HoldsPixel (visible_rect noted.primitive.now) strip.first k }
    ensures row { IsPainted (λ k d. over_primitive noted.entry.store.now noted.entry.primitive.now (x_of strip.first k) strip.first.y d)
        strip.span row.old row.new }
    ensures tools { IsFit (width row.old) tools.new }
{
    match noted.primitive.kind() {
        Kind::Solid(colour) => lay_solid(noted, *colour, strip, &mut tools.mask, row),
        _ => lay_colours(noted, strip, tools, row),
    }
}

/// Lays a primitive over the pixels of a strip that no depth beyond its position covers.
pub(crate) fn lay_primitive(
    noted: Noted,
    visible: Rect,
    strip: Strip,
    cover: &Cover,
    tools: &mut Tools,
    row: &mut Line,
)
    requires noted { IsNoted noted }
    requires visible { visible ≡ visible_rect noted.primitive.now }
    requires strip { IsStrip strip (width row.old) }
    requires cover { length cover.now ≡ width row.old }
    requires tools { IsFit (width row.old) tools.old }
    ensures row { IsPainted (painted_above (λ k d. over_primitive noted.entry.store.now noted.entry.primitive.now (x_of strip.first k) strip.first.y d)
        noted.entry.number cover.now) strip.span row.old row.new }
    ensures tools { IsFit (width row.old) tools.new }
{
    row.know_pixels();
    let shown = cut_strip(strip, visible);
    let mut next = shown.from;
    'parts: while let Some((from, to)) = cover.next_above(next, shown.to, noted.number as u32) {
        let part = Strip {
            span: Span { from, to },
            first: strip.first,
        };
        lay_part(noted, part, tools, row);
        next = to;
    }
}

/// Scales a group's colours in a strip by its opacity, and by what its clips leave of them.
pub(crate) fn fade_group(
    opacity: u8,
    clips: &[Clip],
    is_whole: bool,
    strip: Strip,
    mask: &mut Vec<u8>,
    group: &mut Line,
)
    requires strip { IsStrip strip (width group.old) }
    requires mask { length mask.old.items ≡ width group.old }
    requires whole { IsTrue is_whole → (k : ℕ) → IsIn strip.span k → coverage_at clips.now strip.first k ≡ 255 }
    ensures group { IsPainted (λ k d. scaled (scaled d opacity) (coverage_at clips.now strip.first k)) strip.span group.old group.new }
    ensures mask { length mask.new.items ≡ length mask.old.items }
{
    if opacity != 255 {
        group.scale(strip.span, opacity);
    }
    if !is_whole {
        cover_plane(mask, strip, clips);
        group.mask(strip.span, mask);
    }
}

/// Blends a group's row over the pixels of a strip that no greater depth covers.
pub(crate) fn lay_group(
    group: &Line,
    mode: Mode,
    depth: u32,
    strip: Strip,
    cover: &Cover,
    row: &mut Line,
)
    requires strip { IsStrip strip (width row.old) }
    requires cover { length cover.now ≡ width row.old }
    requires group { width group.now ≡ width row.old }
    ensures { IsPainted (painted_above (λ k d. blended mode (pixel group.now k) d) depth cover.now) strip.span row.old row.new }
{
    let Span {
        from: start,
        to: end,
    } = strip.span;
    let mut next = start;
    'parts: while let Some((from, to)) = cover.next_above(next, end, depth) {
        row.blend(Span { from, to }, mode, group);
        next = to;
    }
}
