ghost use Rattle.std.specs.Prelude.{◌≡◌, ◌*◌, ◌^◌, ◌≤◌, ◌+ℤ◌, pos};
ghost use Rattle.clip_masks.specs.Outline.{excludes, is_beyond, eighths};
ghost use Rattle.wr_geom.specs.Sides.{IsSmallCorner};
ghost use Rattle.clip_masks.specs.Corners.{IsInward, LiesWithin, IsOutward};

use wr_geom::Rect;

/// How far a box lies outward of a rectangle's four edges, in eighths of a pixel.
#[derive(Clone, Copy)]
pub(crate) struct Outward {
    pub(crate) left: i64,
    pub(crate) top: i64,
    pub(crate) right: i64,
    pub(crate) bottom: i64,
}

/// How far the box of points from (a, b) to (c, d), in eighths of a pixel, lies outward.
#[inline(always)]
pub(crate) fn outward_of(rect: Rect, a: i64, b: i64, c: i64, d: i64) -> Outward
    requires first { LiesWithin rect a b }
    requires last { LiesWithin rect c d }
    ensures { IsOutward rect a b c d result }
{
    Outward {
        left: 8 * rect.x0() as i64 - a,
        top: 8 * rect.y0() as i64 - b,
        right: c - 8 * rect.x1() as i64,
        bottom: d - 8 * rect.y1() as i64,
    }
}

/// Whether a corner with these radii in pixels excludes a point that lies so far outside the two
/// edges at that corner, in eighths of a pixel; both are at most 0 for a point of the rectangle.
#[inline(always)]
#[tactic(auto, unfolding(crate::specs::Outline::excludes))]
pub(crate) fn excludes(radii: (u16, u16), across: i64, down: i64) -> bool
    requires small { IsSmallCorner radii }
    requires beside { IsInward across }
    requires below { IsInward down }
    ensures { result ≡ excludes radii (across +ℤ eighths (pos radii.0)) (down +ℤ eighths (pos radii.1)) }
{
    let dx = across + 8 * radii.0 as i64;
    let dy = down + 8 * radii.1 as i64;
    if dx <= 0 {
        return false;
    }
    if dy <= 0 {
        return false;
    }
    is_beyond(8 * radii.0 as u64, 8 * radii.1 as u64, dx as u64, dy as u64)
}

/// Whether a point so far from the centre of an ellipse with these radii lies beyond it.
#[inline(always)]
#[tactic(auto, unfolding(crate::specs::Outline::is_beyond))]
fn is_beyond(rx: u64, ry: u64, dx: u64, dy: u64) -> bool
    requires across { rx ≤ 2 ^ 15 }
    requires down { ry ≤ 2 ^ 15 }
    requires beside { dx ≤ rx }
    requires below { dy ≤ ry }
    ensures { result ≡ is_beyond rx ry dx dy }
{
    (rx * rx) * (ry * ry) < (dx * dx) * (ry * ry) + (dy * dy) * (rx * rx)
}
