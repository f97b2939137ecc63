ghost use Rattle.std.specs.Prelude.{◌≡◌, ◌≤◌, ◌<◌, ℕ, true, false};
ghost use Rattle.wr_geom.specs.Sides.{IsSmallCorner};
ghost use Rattle.clip_masks.specs.Corners.{IsInward, outward, side_excludes};
ghost use Rattle.clip_masks.specs.Spans.{AreEnds};

use super::corner::excludes;

/// The two corners at one side of a shape, as a row of the shape meets them.
#[derive(Clone, Copy)]
pub(crate) struct Side {
    pub(crate) top: (u16, u16),
    pub(crate) bottom: (u16, u16),
    /// How many of the shape's rows lie above this one.
    pub(crate) above: u32,
    /// How many lie below it.
    pub(crate) below: u32,
}

/// What a side's corners leave of a row, whose pixels are counted from the side inward.
#[derive(Clone, Copy)]
pub(crate) struct Ends {
    /// How many pixels have no sample left.
    pub(crate) gone: u16,
    /// The pixel from which on none has lost a sample.
    pub(crate) clear: u16,
}

impl Side {
    /// The ends of the row at this side. A pixel is gone where even its sample nearest to a
    /// corner's centre is excluded, and clear where not even the one farthest out is.
    pub(crate) fn ends(self) -> Ends
        requires top { IsSmallCorner self.top }
        requires bottom { IsSmallCorner self.bottom }
        ensures { AreEnds self result }
    {
        let clear = self.first_kept(1, self.reach());
        let gone = self.first_kept(7, clear);
        Ends { gone, clear }
    }

    /// A pixel from which on no corner excludes a sample: it lies beside the centres of those
    /// whose height the row crosses.
    fn reach(self) -> u16
        ensures { (k : ℕ) → result ≤ k → side_excludes self k 1 ≡ false }
    {
        reach_of(self.top, self.above).max(reach_of(self.bottom, self.below))
    }

    /// The first pixel whose sample at `i` eighths inward, on both axes, no corner excludes, if
    /// from `reach` on none does. What is excluded is so farther out too, so that halving finds it.
    fn first_kept(self, i: u8, reach: u16) -> u16
        requires top { IsSmallCorner self.top }
        requires bottom { IsSmallCorner self.bottom }
        requires reached { (k : ℕ) → reach ≤ k → side_excludes self k i ≡ false }
        ensures within { result ≤ reach }
        ensures before { (k : ℕ) → k < result → side_excludes self k i ≡ true }
        ensures after { (k : ℕ) → result ≤ k → side_excludes self k i ≡ false }
    {
        let (mut low, mut high) = (0, reach);
        'halve: while low < high {
            let middle = low + (high - low) / 2;
            if self.excludes_at(middle, i) {
                low = middle + 1;
            } else {
                high = middle;
            }
        }
        low
    }

    /// Whether a corner excludes the sample at `i` eighths inward of the pixel `k`.
    #[inline(always)]
    #[tactic(auto, unfolding(crate::specs::Corners::side_excludes))]
    fn excludes_at(self, k: u16, i: u8) -> bool
        requires top { IsSmallCorner self.top }
        requires bottom { IsSmallCorner self.bottom }
        ensures { result ≡ side_excludes self k i }
    {
        let across = outward(k as u32, i);
        if excludes(self.top, across, outward(self.above, i)) {
            return true;
        }
        excludes(self.bottom, across, outward(self.below, i))
    }
}

/// How far a corner reaches into a row that lies so many rows inward: 0 beyond its height.
fn reach_of(radii: (u16, u16), rows: u32) -> u16
    ensures { rows < radii.1 → radii.0 ≤ result }
{
    if rows < radii.1 as u32 { radii.0 } else { 0 }
}

/// How far a point `i` eighths beyond so many pixels inward lies outward, in eighths of a pixel.
#[inline(always)]
fn outward(pixels: u32, i: u8) -> i64
    ensures value { result ≡ outward pixels i }
    ensures near { IsInward result }
{
    -(8 * pixels as i64 + i as i64)
}
