//! Rectangles of origins.

ghost use Rattle.std.specs.Prelude.{◌≡◌, ℤ, pos, neg_ℤ, ◌+ℤ◌, ◌≤ℤ◌, ◌^◌, ◌&&◌, int_le};
ghost use Rattle.wr_geom.specs.Points.{point_sum};
ghost use Rattle.wr_geom.specs.declared.point.Point as a_point;
ghost use Rattle.scene_limits.specs.Limits.{is_point_in_reach};
ghost use Rattle.scene_limits.specs.Places.{zero_point};
ghost use Rattle.scene_limits.specs.Rooms.{room_has, span_has};

use crate::limits::MAX_DISTANCE;

/// The numbers from the first to the last, both included; none where they are out of order.
#[derive(Clone, Copy, Debug, PartialEq, Eq)]
pub(crate) struct Span {
    from: i32,
    to: i32,
}

/// The origins with x in the one and y in the other, in pixels.
#[derive(Clone, Copy, Debug, PartialEq, Eq)]
pub(crate) struct Room {
    x: Span,
    y: Span,
}

#[tactic(auto, using(crate::proofs::Spans::spans))]
fn later(a: i64, b: i64) -> i64
    ensures bound { a ≤ℤ result }
    ensures value { (z : ℤ) → int_le result z ≡ (int_le a z && int_le b z) }
{
    if a < b { b } else { a }
}

#[tactic(auto, using(crate::proofs::Spans::spans))]
fn earlier(a: i64, b: i64) -> i64
    ensures bound { result ≤ℤ a }
    ensures value { (z : ℤ) → int_le z result ≡ (int_le z a && int_le z b) }
{
    if b < a { b } else { a }
}

impl Span {
    /// The numbers of it that are in `other` once `by` is added.
    fn narrowed(self, other: Span, by: i64) -> Span
        requires low { neg_ℤ (pos (2 ^ 33)) ≤ℤ by }
        requires high { by ≤ℤ pos (2 ^ 33) }
        ensures { (z : ℤ) → span_has result z ≡ (span_has self z && span_has other (z +ℤ by)) }
    {
        let from = later(i64::from(self.from), i64::from(other.from) - by);
        let to = earlier(i64::from(self.to), i64::from(other.to) - by);
        if to < from {
            return Span { from: 1, to: 0 };
        }
        Span {
            from: from as i32,
            to: to as i32,
        }
    }
}

impl Room {
    /// All that is in reach.
    #[tactic(auto, unfolding(crate::specs::Limits::is_in_reach))]
    pub(crate) fn all() -> Room
        ensures { (origin : a_point.Point) → room_has result origin ≡ is_point_in_reach origin }
    {
        let side = Span {
            from: -MAX_DISTANCE,
            to: MAX_DISTANCE,
        };
        Room { x: side, y: side }
    }

    /// The origins of it that are in `other` once `x` and `y` are added.
    pub(crate) fn narrowed(self, other: Room, x: i64, y: i64) -> Room
        requires left { neg_ℤ (pos (2 ^ 33)) ≤ℤ x }
        requires right { x ≤ℤ pos (2 ^ 33) }
        requires top { neg_ℤ (pos (2 ^ 33)) ≤ℤ y }
        requires bottom { y ≤ℤ pos (2 ^ 33) }
        ensures { (origin : a_point.Point) → room_has result origin ≡ (room_has self origin && room_has other (point_sum origin (record { x = x; y = y }))) }
    {
        Room {
            x: self.x.narrowed(other.x, x),
            y: self.y.narrowed(other.y, y),
        }
    }

    /// Whether the origin (0, 0) is in it.
    pub(crate) fn has_zero(self) -> bool
        ensures { result ≡ room_has self zero_point }
    {
        if 0 < self.x.from || self.x.to < 0 {
            return false;
        }
        if 0 < self.y.from || self.y.to < 0 {
            return false;
        }
        true
    }
}
