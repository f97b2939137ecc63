//! Lists of glyphs and of clips: copied, and moved in place.

ghost use Rattle.std.specs.Prelude.{◌≡◌, ◌+ℤ◌, IfOk, All};
ghost use Rattle.wr_geom.specs.Bounds.{IsCoordinate};
ghost use Rattle.clip_masks.specs.Clips.{CanShift, shifted_clips};
ghost use Rattle.primitives.specs.Moves.{CanShiftGlyph, shifted_glyph, shifted_glyphs};

use crate::GlyphUse;
use clip_masks::{Clip, shift_clips};
use containers::Sequence;
use wr_geom::{NoMemory, Point};

/// Equal glyphs.
pub(crate) fn copied_glyphs(glyphs: &Sequence<GlyphUse>) -> Result<Sequence<GlyphUse>, NoMemory>
    ensures { IfOk result (λ copy. copy ≡ glyphs.now) }
{
    Ok(glyphs.clone()?)
}

/// Equal clips.
pub(crate) fn copied_clips(clips: &Sequence<Clip>) -> Result<Sequence<Clip>, NoMemory>
    ensures { IfOk result (λ copy. copy ≡ clips.now) }
{
    Ok(clips.clone()?)
}

/// A coordinate moved by whole pixels.
fn moved(z: i32, by: i32) -> i32
    requires { IsCoordinate (z +ℤ by) }
    ensures { result ≡ z +ℤ by }
{
    z + by
}

/// A glyph moved by whole pixels.
fn shifted_glyph(g: GlyphUse, by: Point) -> GlyphUse
    requires { CanShiftGlyph by g }
    ensures { result ≡ shifted_glyph g by }
{
    GlyphUse {
        x: moved(g.x, by.x),
        y: moved(g.y, by.y),
        ..g
    }
}

/// Moves each glyph, in place.
fn shift_glyphs(glyphs: &mut [GlyphUse], by: Point)
    requires { All (CanShiftGlyph by) glyphs.old }
    ensures { glyphs.new ≡ shifted_glyphs glyphs.old by }
{
    for g in glyphs.iter_mut() {
        *g = shifted_glyph(*g, by);
    }
}

/// The glyphs moved by whole pixels. They aren't moved in memory.
pub(crate) fn shifted_glyphs(glyphs: Sequence<GlyphUse>, by: Point) -> Sequence<GlyphUse>
    requires { All (CanShiftGlyph by) glyphs }
    ensures { result ≡ shifted_glyphs glyphs by }
{
    let mut moved = glyphs.into_vec();
    shift_glyphs(moved.as_mut_slice(), by);
    Sequence::from_vec(moved)
}

/// The clips moved by whole pixels. They aren't moved in memory.
pub(crate) fn shifted_clips(clips: Sequence<Clip>, by: Point) -> Sequence<Clip>
    requires { All (CanShift by) clips }
    ensures { result ≡ shifted_clips clips by }
{
    let mut moved = clips.into_vec();
    shift_clips(moved.as_mut_slice(), by);
    Sequence::from_vec(moved)
}
