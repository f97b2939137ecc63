ghost use Rattle.std.specs.Prelude.{◌≡◌, ◌↔◌, true};
ghost use Rattle.std.specs.declared.cmp.Ordering.TheVariants.{Equal};
ghost use Rattle.wr_geom.specs.Bounds.{Bounds};
ghost use Rattle.wr_geom.specs.Laws.{SamePointsAreOneRect, IntersectionHasSharedPoints, IntersectionOfApartIsNowhere, IntersectionCommutes, IntersectionAssociates, BoundingCoversFirst, BoundingCoversSecond, BoundingIsLeast, BoundingOfEmptyIsNowhere, ShiftedHasMovedPoints, ShiftedTwiceIsBySum, ShiftedKeepsArea};

use super::Rect;
use std::cmp::{Ord, PartialEq};

/// What holds of the definitions of rectangles, for whoever reasons about them. It does nothing.
pub fn rect_laws()
    ensures same_points { SamePointsAreOneRect }
    ensures shared_points { IntersectionHasSharedPoints }
    ensures apart { IntersectionOfApartIsNowhere }
    ensures intersection_commutes { IntersectionCommutes }
    ensures intersection_associates { IntersectionAssociates }
    ensures bounding_first { BoundingCoversFirst }
    ensures bounding_second { BoundingCoversSecond }
    ensures bounding_least { BoundingIsLeast }
    ensures bounding_empty { BoundingOfEmptyIsNowhere }
    ensures moved_points { ShiftedHasMovedPoints }
    ensures moved_twice { ShiftedTwiceIsBySum }
    ensures moved_area { ShiftedKeepsArea }
{}

/// `==` and the order of rectangles tell different ones apart. It does nothing.
pub fn rect_order_laws()
    ensures equality { (a b : Bounds) → (⟦<Rect as PartialEq>⟧.eq a b ≡ true) ↔ (a ≡ b) }
    ensures order { (a b : Bounds) → (⟦<Rect as Ord>⟧.cmp a b ≡ Equal) ↔ (a ≡ b) }
{}
