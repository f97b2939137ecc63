ghost use Rattle.std.specs.Prelude.{◌≡◌, ◌≤◌, ◌↔◌, IsTrue};
ghost use Rattle.wr_geom.specs.Sides.{IsSmallCorner, AreSmallRadii, AreSmallWidths, RadiiFit, WidthsFit, radii_fit, widths_fit, same_radii};

use super::Rect;
use super::limits::MAX_RADIUS;

/// The radii of a rectangle's four corners in pixels, each horizontal then vertical.
#[derive(Clone, Copy, Debug, PartialEq, Eq, PartialOrd, Ord, Hash)]
pub struct Radii {
    /// The top-left corner.
    pub tl: (u16, u16),
    /// The top-right corner.
    pub tr: (u16, u16),
    /// The bottom-right corner.
    pub br: (u16, u16),
    /// The bottom-left corner.
    pub bl: (u16, u16),
}

/// The widths of a rectangle's four sides, in pixels.
#[derive(Clone, Copy, Debug, PartialEq, Eq, PartialOrd, Ord, Hash)]
pub struct Widths {
    pub top: u16,
    pub right: u16,
    pub bottom: u16,
    pub left: u16,
}

impl Radii {
    /// The radii of a rectangle without round corners.
    pub const SQUARE: Radii = Radii {
        tl: (0, 0),
        tr: (0, 0),
        br: (0, 0),
        bl: (0, 0),
    };

    /// Whether the two radii along each side of the rectangle are together no longer than it.
    #[tactic(auto, using(crate::proofs::Fits::fit_tests), unfolding(crate::specs::Sides::radii_fit))]
    pub fn fit(self, rect: Rect) -> bool
        ensures value { result ≡ radii_fit rect self }
        ensures fits { IsTrue result ↔ RadiiFit rect self }
    {
        let width = rect.width();
        let height = rect.height();
        self.tl.0 as u32 + self.tr.0 as u32 <= width
            && self.bl.0 as u32 + self.br.0 as u32 <= width
            && self.tl.1 as u32 + self.bl.1 as u32 <= height
            && self.tr.1 as u32 + self.br.1 as u32 <= height
    }

    /// Whether all eight radii are the same, as `==` says.
    #[tactic(auto, unfolding(crate::specs::Sides::same_radii))]
    pub fn are_same(self, o: Radii) -> bool
        ensures value { result ≡ same_radii self o }
        ensures same { IsTrue result ↔ (self ≡ o) }
    {
        self == o
    }

    /// Whether no radius is greater than `MAX_RADIUS`.
    pub fn are_small(self) -> bool
        ensures { IsTrue result ↔ AreSmallRadii self }
    {
        is_small(self.tl) && is_small(self.tr) && is_small(self.br) && is_small(self.bl)
    }
}

/// Whether neither radius of a corner is greater than `MAX_RADIUS`.
fn is_small(corner: (u16, u16)) -> bool
    ensures { IsTrue result ↔ IsSmallCorner corner }
{
    corner.0 <= MAX_RADIUS && corner.1 <= MAX_RADIUS
}

impl Widths {
    /// Whether opposite widths fit beside each other in the rectangle.
    #[tactic(auto, using(crate::proofs::Fits::fit_tests), unfolding(crate::specs::Sides::widths_fit))]
    pub fn fit(self, rect: Rect) -> bool
        ensures value { result ≡ widths_fit rect self }
        ensures fits { IsTrue result ↔ WidthsFit rect self }
    {
        self.left as u32 + self.right as u32 <= rect.width()
            && self.top as u32 + self.bottom as u32 <= rect.height()
    }

    /// Whether no width is greater than `MAX_RADIUS`.
    pub fn are_small(self) -> bool
        ensures { IsTrue result ↔ AreSmallWidths self }
    {
        self.top <= MAX_RADIUS
            && self.right <= MAX_RADIUS
            && self.bottom <= MAX_RADIUS
            && self.left <= MAX_RADIUS
    }
}
