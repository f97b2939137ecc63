ghost use Rattle.std.specs.Prelude.{◌≡◌, ◌≤◌, ◌↔◌, IsTrue, pos, ℤ, ◌+ℤ◌, if◌then◌else◌, EachIndex, slice_index};
ghost use Rattle.wr_geom.specs.Bounds.{holds};

use super::Rounded;
use super::share::share_of;
use wr_geom::{Point, Radii, Rect};

/// A shape that lets through what lies inside it, or with `out` what lies outside.
#[derive(Clone, Copy, Debug, PartialEq, Eq, PartialOrd, Ord, Hash)]
pub struct Clip {
    pub shape: Rounded,
    pub out: bool,
}

impl Clip {
    ghost use Rattle.clip_masks.specs.Coverage.{coverage};
    ghost use Rattle.clip_masks.specs.Clips.{IsRectClip, CanShift, rect_clip, is_rect_clip, same_clip, shifted_clip};

    /// The rectangle clip on a rectangle: of mode in, and all eight radii are 0.
    pub fn of_rect(rect: Rect) -> Clip
        ensures value { result ≡ rect_clip rect }
        ensures covers { (x y : ℤ) → coverage result x y ≡ (if holds rect x y then 255 else 0) }
    {
        Clip {
            shape: Rounded::of_rect(rect),
            out: false,
        }
    }

    /// How much of the pixel (x, y) the clip lets through, of 255.
    #[tactic(auto, unfolding(crate::specs::Coverage::coverage))]
    pub fn cover(&self, x: i32, y: i32) -> u8
        ensures { result ≡ coverage self.now x y }
    {
        let share = share_of(self.shape.samples(x, y));
        if self.out { 255 - share } else { share }
    }

    /// Writes the cover of a row of pixels, which begins at (x0, y).
    pub fn mask_row(&self, y: i32, x0: i32, out: &mut [u8])
        ensures { EachIndex out.new (λ k. slice_index out.new k ≡ coverage self.now (x0 +ℤ pos k) y) }
    {
        out.fill(255);
        self.scale_row(y, x0, out);
    }

    /// Whether it is a rectangle clip: of mode in, and all eight radii are 0. It covers 255 or 0.
    #[tactic(auto, unfolding(crate::specs::Clips::is_rect_clip))]
    pub fn is_rect(&self) -> bool
        ensures value { result ≡ is_rect_clip self.now }
        ensures fact { IsTrue result ↔ IsRectClip self.now }
        ensures covers { IsTrue result → (x y : ℤ)
            → coverage self.now x y ≡ (if holds self.now.shape.rect x y then 255 else 0) }
    {
        !self.out && self.shape.radii().are_same(Radii::SQUARE)
    }

    /// Whether both have the same rectangle, radii and mode, as `==` says.
    #[tactic(auto, unfolding(crate::specs::Clips::same_clip))]
    pub fn is_same(&self, o: &Clip) -> bool
        ensures value { result ≡ same_clip self.now o.now }
        ensures same { IsTrue result ↔ (self.now ≡ o.now) }
    {
        self.shape.rect().is_same(o.shape.rect())
            && self.shape.radii().are_same(o.shape.radii())
            && self.out == o.out
    }

    /// Moved by whole pixels; the moved rectangle must be in range.
    pub fn shift(&self, by: Point) -> Clip
        requires { CanShift by self.now }
        ensures value { result ≡ shifted_clip self.now by }
        ensures covers { (x y : ℤ) → coverage result (x +ℤ by.x) (y +ℤ by.y) ≡ coverage self.now x y }
    {
        Clip {
            shape: self.shape.shift(by),
            out: self.out,
        }
    }
}
