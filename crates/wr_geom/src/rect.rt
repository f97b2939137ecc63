ghost use Rattle.std.specs.Prelude.{◌≡◌, ◌+ℤ◌, ◌&&◌, ◌↔◌, ℤ, IsTrue, IsFalse, IsSome, IfSome, not};
ghost use Rattle.wr_geom.specs.Bounds.{Bounds, IsRect, IsInRange, HasNoPoint, Covers, holds, has_points, same_rect, nowhere, intersection, hull, bounding, shifted, width_of, height_of, area_of};

use super::Point;
use super::limits::MAX_RECT_COORDINATE;
use std::marker::Model;

/// The points with `x0 <= x < x1` and `y0 <= y < y1`, in whole pixels.
///
/// The corners are in order, and each coordinate lies within -2^29 and 2^29.
#[derive(Clone, Copy, Debug, PartialEq, Eq, PartialOrd, Ord, Hash)]
pub struct Rect {
    x0: i32,
    y0: i32,
    x1: i32,
    y1: i32,
}

impl Model for Rect {
    ghost use Rattle.wr_geom.specs.Bounds.{Bounds, IsRect};

    ghost Value = { Bounds };

    ghost view = { λ r. record { x0 = r.x0; y0 = r.y0; x1 = r.x1; y1 = r.y1 } };

    ghost invariant = { λ r. IsRect (record { x0 = r.x0; y0 = r.y0; x1 = r.x1; y1 = r.y1 }) };

    ghost inverse = { λ b. record { x0 = b.x0; y0 = b.y0; x1 = b.x1; y1 = b.y1 } };
}

impl Rect {
    /// The rectangle between two corners; None where they are out of order or out of range.
    pub fn new(x0: i32, y0: i32, x1: i32, y1: i32) -> Option<Rect>
        ensures some { IsSome result ↔ IsRect (record { x0 = x0; y0 = y0; x1 = x1; y1 = y1 }) }
        ensures value { IfSome result (λ r. r ≡ record { x0 = x0; y0 = y0; x1 = x1; y1 = y1 }) }
    {
        if x1 < x0 || y1 < y0 {
            return None;
        }
        if x0 < -MAX_RECT_COORDINATE || y0 < -MAX_RECT_COORDINATE {
            return None;
        }
        if MAX_RECT_COORDINATE < x1 || MAX_RECT_COORDINATE < y1 {
            return None;
        }
        Some(Rect { x0, y0, x1, y1 })
    }

    /// The left edge, within -2^29 and 2^29 pixels.
    pub fn x0(self) -> i32
        ensures value { result ≡ self.x0 }
        ensures rect { IsRect self }
    {
        self.x0
    }

    /// The top edge, within -2^29 and 2^29 pixels.
    pub fn y0(self) -> i32
        ensures value { result ≡ self.y0 }
        ensures rect { IsRect self }
    {
        self.y0
    }

    /// The right edge, which has no point, within -2^29 and 2^29 pixels.
    pub fn x1(self) -> i32
        ensures value { result ≡ self.x1 }
        ensures rect { IsRect self }
    {
        self.x1
    }

    /// The bottom edge, which has no point, within -2^29 and 2^29 pixels.
    pub fn y1(self) -> i32
        ensures value { result ≡ self.y1 }
        ensures rect { IsRect self }
    {
        self.y1
    }

    /// Whether all four edges are the same, as `==` says.
    #[tactic(auto, unfolding(crate::specs::Bounds::same_rect))]
    pub fn is_same(self, o: Rect) -> bool
        ensures value { result ≡ same_rect self o }
        ensures same { IsTrue result ↔ (self ≡ o) }
    {
        self == o
    }

    /// Whether no point lies in it.
    #[tactic(auto, unfolding(crate::specs::Bounds::has_points))]
    pub fn is_empty(self) -> bool
        ensures value { result ≡ not (has_points self) }
        ensures points { IsTrue result ↔ HasNoPoint self }
    {
        if self.x1 <= self.x0 {
            return true;
        }
        self.y1 <= self.y0
    }

    /// Whether a point lies in it.
    #[tactic(auto, unfolding(crate::specs::Bounds::holds))]
    pub fn contains(self, p: Point) -> bool
        ensures { result ≡ holds self p.x p.y }
    {
        if p.x < self.x0 || self.x1 <= p.x {
            return false;
        }
        if p.y < self.y0 || self.y1 <= p.y {
            return false;
        }
        true
    }

    /// How many pixels lie across it.
    pub fn width(self) -> u32
        ensures { result ≡ width_of self }
    {
        (self.x1 - self.x0) as u32
    }

    /// How many pixels lie down it.
    pub fn height(self) -> u32
        ensures { result ≡ height_of self }
    {
        (self.y1 - self.y0) as u32
    }

    /// Its number of points: width times height, in square pixels.
    pub fn area(self) -> u64
        ensures value { result ≡ area_of self }
        ensures none { (result ≡ 0) ↔ HasNoPoint self }
    {
        (self.x1 - self.x0) as u64 * (self.y1 - self.y0) as u64
    }

    /// The points of both; [0 0 0 0] where they share none.
    pub fn intersect(self, o: Rect) -> Rect
        ensures value { result ≡ intersection self o }
        ensures points { (x y : ℤ) → holds result x y ≡ (holds self x y && holds o x y) }
        ensures apart { ((x y : ℤ) → IsFalse (holds self x y && holds o x y)) → result ≡ nowhere }
    {
        let x0 = self.x0.max(o.x0);
        let y0 = self.y0.max(o.y0);
        let x1 = self.x1.min(o.x1);
        let y1 = self.y1.min(o.y1);
        if x0 < x1 && y0 < y1 {
            return Rect { x0, y0, x1, y1 };
        }
        NOWHERE
    }

    /// The least rectangle with the points of both: an empty one adds nothing, and two empty
    /// ones give [0 0 0 0].
    pub fn bound(self, o: Rect) -> Rect
        ensures value { result ≡ bounding self o }
        ensures first { Covers result self }
        ensures second { Covers result o }
        ensures least { (r : Bounds) → Covers r self → Covers r o → Covers r result }
        ensures empty { HasNoPoint self → HasNoPoint o → result ≡ nowhere }
    {
        match (self.is_empty(), o.is_empty()) {
            (true, true) => NOWHERE,
            (true, false) => o,
            (false, true) => self,
            (false, false) => self.hull(o),
        }
    }

    /// The outermost edges of two.
    fn hull(self, o: Rect) -> Rect
        ensures { result ≡ hull self o }
    {
        Rect {
            x0: self.x0.min(o.x0),
            y0: self.y0.min(o.y0),
            x1: self.x1.max(o.x1),
            y1: self.y1.max(o.y1),
        }
    }

    /// Moved by whole pixels; the moved rectangle must be in range.
    pub fn shift(self, by: Point) -> Rect
        requires { IsInRange (shifted self by) }
        ensures value { result ≡ shifted self by }
        ensures points { (x y : ℤ) → holds result (x +ℤ by.x) (y +ℤ by.y) ≡ holds self x y }
    {
        Rect {
            x0: self.x0 + by.x,
            y0: self.y0 + by.y,
            x1: self.x1 + by.x,
            y1: self.y1 + by.y,
        }
    }
}

/// The rectangle that stands for no point.
const NOWHERE: Rect = Rect {
    x0: 0,
    y0: 0,
    x1: 0,
    y1: 0,
};
