ghost use Rattle.std.specs.Prelude.{◌≡◌, ◌↔◌, ◌+ℤ◌, ℤ, IsSome, IfSome};
ghost use Rattle.wr_geom.specs.Bounds.{IsInRange, shifted};
ghost use Rattle.wr_geom.specs.Sides.{AreSmallRadii, RadiiFit, WidthsFit, square};
ghost use Rattle.clip_masks.specs.Outline.{inset_of, lessened, shrunk_by, shifted_outline, samples_inside};

use std::marker::Model;
use wr_geom::{Point, Radii, Rect, Widths};

/// A rectangle with round corners, in whole pixels.
///
/// No radius is greater than `wr_geom::MAX_RADIUS`. Corners of a shape from `inset` may overlap.
#[derive(Clone, Copy, Debug, PartialEq, Eq, PartialOrd, Ord, Hash)]
pub struct Rounded {
    rect: Rect,
    radii: Radii,
}

impl Model for Rounded {
    ghost use Rattle.clip_masks.specs.Outline.{Outline};
    ghost use Rattle.wr_geom.specs.Sides.{AreSmallRadii};

    ghost Value = { Outline };

    ghost view = { λ s. record { rect = s.rect; radii = s.radii } };

    ghost invariant = { λ s. AreSmallRadii s.radii };

    ghost inverse = { λ o. record { rect = o.rect; radii = o.radii } };
}

impl Rounded {
    /// A rectangle with these corners; None where a radius is greater than 4,096 pixels or two
    /// radii of one side are together longer than it.
    pub fn new(rect: Rect, radii: Radii) -> Option<Rounded>
        ensures some { IsSome result ↔ (AreSmallRadii radii × RadiiFit rect radii) }
        ensures value { IfSome result (λ s. s ≡ record { rect = rect; radii = radii }) }
    {
        if !radii.are_small() {
            return None;
        }
        if !radii.fit(rect) {
            return None;
        }
        Some(Rounded { rect, radii })
    }

    /// The rectangle itself, without round corners.
    pub fn of_rect(rect: Rect) -> Rounded
        ensures { result ≡ record { rect = rect; radii = square } }
    {
        Rounded {
            rect,
            radii: Radii::SQUARE,
        }
    }

    /// Its rectangle.
    pub fn rect(&self) -> Rect
        ensures { result ≡ self.now.rect }
    {
        self.rect
    }

    /// The radii of its corners, at most 4,096 pixels each.
    pub fn radii(&self) -> Radii
        ensures value { result ≡ self.now.radii }
        ensures small { AreSmallRadii self.now.radii }
    {
        self.radii
    }

    /// The shape inside a border of these widths: each radius is less by the width beside it, not
    /// below 0. Opposite widths must fit beside each other.
    pub fn inset(&self, w: Widths) -> Rounded
        requires { WidthsFit self.now.rect w }
        ensures { result ≡ inset_of self.now w }
    {
        let radii = self.radii;
        Rounded {
            rect: shrunk(self.rect, w),
            radii: Radii {
                tl: less(radii.tl, w.left, w.top),
                tr: less(radii.tr, w.right, w.top),
                br: less(radii.br, w.right, w.bottom),
                bl: less(radii.bl, w.left, w.bottom),
            },
        }
    }

    /// Moved by whole pixels; the moved rectangle must be in range.
    pub fn shift(&self, by: Point) -> Rounded
        requires { IsInRange (shifted self.now.rect by) }
        ensures value { result ≡ shifted_outline self.now by }
        ensures samples { (x y : ℤ) → samples_inside result (x +ℤ by.x) (y +ℤ by.y) ≡ samples_inside self.now x y }
    {
        Rounded {
            rect: self.rect.shift(by),
            radii: self.radii,
        }
    }
}

/// The rectangle less the widths of its sides.
fn shrunk(rect: Rect, w: Widths) -> Rect
    requires { WidthsFit rect w }
    ensures { result ≡ shrunk_by rect w }
{
    Rect::new(
        rect.x0() + w.left as i32,
        rect.y0() + w.top as i32,
        rect.x1() - w.right as i32,
        rect.y1() - w.bottom as i32,
    )
    .unwrap()
}

/// A corner's radii, each less the width beside it, not below 0.
fn less(corner: (u16, u16), across: u16, down: u16) -> (u16, u16)
    ensures { result ≡ lessened corner across down }
{
    (
        corner.0.saturating_sub(across),
        corner.1.saturating_sub(down),
    )
}
