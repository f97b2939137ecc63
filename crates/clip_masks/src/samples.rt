ghost use Rattle.std.specs.Prelude.{◌≡◌, ◌≤◌, ◌<◌, ◌+ℤ◌, pos, not, if◌then◌else◌};
ghost use Rattle.std.specs.List.{count_by};
ghost use Rattle.clip_masks.specs.Outline.{eighths, sample_coordinates, is_inside, samples_inside};
ghost use Rattle.clip_masks.specs.Corners.{HasPixel, LiesWithin, excludes_tip};

use super::Rounded;
use super::corner::{excludes, outward_of};
use wr_geom::Point;

impl Rounded {
    /// How many of the sixteen sample points of the pixel (x, y) lie inside: 0 to 16.
    pub fn samples(&self, x: i32, y: i32) -> u8
        ensures value { result ≡ samples_inside self.now x y }
        ensures at_most { result ≤ 16 }
    {
        if !self.rect().contains(Point { x, y }) {
            return 0;
        }
        // No corner excludes even the sample farthest out.
        if self.keeps_box(x, y, 1, 7) {
            return 16;
        }
        // A corner excludes even the sample nearest to its centre.
        if !self.keeps_box(x, y, 7, 1) {
            return 0;
        }
        self.kept_of_four(x, y, 1)
            + self.kept_of_four(x, y, 3)
            + self.kept_of_four(x, y, 5)
            + self.kept_of_four(x, y, 7)
    }

    /// How many of a pixel's four sample points at `j` eighths from its top lie inside.
    #[inline(always)]
    fn kept_of_four(&self, x: i32, y: i32, j: u8) -> u8
        requires pixel { HasPixel self.now.rect x y }
        requires within { j < 8 }
        ensures value { result ≡ count_by (λ a. is_inside self.now a (eighths y +ℤ pos j)) (sample_coordinates x) }
        ensures at_most { result ≤ 4 }
    {
        self.kept(x, y, 1, j)
            + self.kept(x, y, 3, j)
            + self.kept(x, y, 5, j)
            + self.kept(x, y, 7, j)
    }

    /// 1 where the point at `i` and `j` eighths from a pixel's left and top lies inside, else 0.
    #[inline(always)]
    fn kept(&self, x: i32, y: i32, i: u8, j: u8) -> u8
        requires pixel { HasPixel self.now.rect x y }
        requires across { i < 8 }
        requires down { j < 8 }
        ensures value { result ≡ (if is_inside self.now (eighths x +ℤ pos i) (eighths y +ℤ pos j) then 1 else 0) }
        ensures at_most { result ≤ 1 }
    {
        let (a, b) = (coordinate(x, i), coordinate(y, j));
        if self.keeps_tips(a, b, a, b) { 1 } else { 0 }
    }

    /// Whether no corner excludes its own corner of the box from `first` to `last` eighths from a
    /// pixel's left and top.
    #[inline(always)]
    fn keeps_box(&self, x: i32, y: i32, first: u8, last: u8) -> bool
        requires pixel { HasPixel self.now.rect x y }
        requires from { first < 8 }
        requires to { last < 8 }
        ensures { result ≡ not (excludes_tip self.now
            (eighths x +ℤ pos first) (eighths y +ℤ pos first)
            (eighths x +ℤ pos last) (eighths y +ℤ pos last)) }
    {
        self.keeps_tips(
            coordinate(x, first),
            coordinate(y, first),
            coordinate(x, last),
            coordinate(y, last),
        )
    }

    /// Whether no corner excludes its own corner of a box of points of the rectangle, from (a, b)
    /// to (c, d) in eighths of a pixel.
    #[inline(always)]
    fn keeps_tips(&self, a: i64, b: i64, c: i64, d: i64) -> bool
        requires first { LiesWithin self.now.rect a b }
        requires last { LiesWithin self.now.rect c d }
        ensures { result ≡ not (excludes_tip self.now a b c d) }
    {
        let outward = outward_of(self.rect(), a, b, c, d);
        let radii = self.radii();
        if excludes(radii.tl, outward.left, outward.top) {
            return false;
        }
        if excludes(radii.tr, outward.right, outward.top) {
            return false;
        }
        if excludes(radii.br, outward.right, outward.bottom) {
            return false;
        }
        !excludes(radii.bl, outward.left, outward.bottom)
    }
}

/// The coordinate `more` eighths from the start of a pixel, in eighths of a pixel.
#[inline(always)]
fn coordinate(pixel: i32, more: u8) -> i64
    ensures { result ≡ eighths pixel +ℤ pos more }
{
    8 * pixel as i64 + more as i64
}
