ghost use Rattle.std.specs.Prelude.{◌≡◌, ◌<◌, ◌^◌, ◌+ℤ◌, pos, ℕ, ℤ, EachIndex, slice_index, IsTrue, IsFalse, All, if◌then◌else◌};
ghost use Rattle.wr_geom.specs.Bounds.{Covers, holds, intersection};
ghost use Rattle.clip_masks.specs.Coverage.{chain_coverage, cut_by};
ghost use Rattle.clip_masks.specs.Clips.{IsRectClip, CanShift, shifted_clips};

use super::Clip;
use wr_geom::{Point, Rect};

/// Writes what a chain's clips, outermost first, leave of the cover `outer` in a row of pixels,
/// which begins at (x0, y).
pub fn cover_row(clips: &[Clip], outer: u8, y: i32, x0: i32, out: &mut [u8])
    ensures { EachIndex out.new (λ k. slice_index out.new k
        ≡ chain_coverage clips.now outer (x0 +ℤ pos k) y) }
{
    out.fill(outer);
    for clip in clips {
        clip.scale_row(y, x0, out);
    }
}

/// The rectangle cut by the rectangle of each clip of mode in. At points of the rectangle that are
/// left out, the clips leave nothing. Where all are rectangle clips, they leave the cover around
/// them at each point that is kept. Of points beside the rectangle it says nothing.
pub fn cut(clips: &[Clip], rect: Rect) -> Rect
    ensures value { result ≡ cut_by rect clips.now }
    ensures beside { (outer : ℕ) (x y : ℤ) → outer < 2 ^ 8 → IsTrue (holds rect x y) → IsFalse (holds result x y)
        → chain_coverage clips.now outer x y ≡ 0 }
    ensures within { (outer : ℕ) (x y : ℤ) → All IsRectClip clips.now → IsTrue (holds result x y)
        → chain_coverage clips.now outer x y ≡ outer }
    ensures inside { Covers rect result }
{
    let mut left = rect;
    for clip in clips {
        left = cut_once(clip, left);
    }
    left
}

/// The rectangle cut by the clip's, if that is of mode in.
fn cut_once(clip: &Clip, rect: Rect) -> Rect
    ensures { result ≡ (if clip.now.out then rect else intersection rect clip.now.shape.rect) }
{
    if !clip.out {
        return rect.intersect(clip.shape.rect());
    }
    rect
}

/// Moves each clip by whole pixels, in place; the moved rectangles must be in range.
pub fn shift_clips(clips: &mut [Clip], by: Point)
    requires { All (CanShift by) clips.old }
    ensures { clips.new ≡ shifted_clips clips.old by }
{
    for clip in clips.iter_mut() {
        *clip = clip.shift(by);
    }
}
