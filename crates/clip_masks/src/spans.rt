ghost use Rattle.clip_masks.specs.Spans.{IsBetween};

use super::Rounded;
use super::side::{Ends, Side};
use wr_geom::Rect;

/// The pixels at which a row of a shape begins and ends, and those from which and up to which the
/// shape covers it whole.
#[derive(Clone, Copy)]
pub(crate) struct Spans {
    pub(crate) left: i32,
    pub(crate) from: i32,
    pub(crate) to: i32,
    pub(crate) right: i32,
}

impl Rounded {
    ghost use Rattle.clip_masks.specs.Spans.{AreSpans};

    /// The spans of the row at `y`; none where the shape has no such row.
    pub(crate) fn spans(&self, y: i32) -> Spans
        ensures { AreSpans self.now y result }
    {
        let (rect, radii) = (self.rect(), self.radii());
        let left = rect.x0();
        if y < rect.y0() || rect.y1() <= y {
            return Spans {
                left,
                from: left,
                to: left,
                right: left,
            };
        }
        let (above, below) = ((y - rect.y0()) as u32, (rect.y1() - 1 - y) as u32);
        let first = Side {
            top: radii.tl,
            bottom: radii.bl,
            above,
            below,
        }
        .ends();
        let last = Side {
            top: radii.tr,
            bottom: radii.br,
            above,
            below,
        }
        .ends();
        between(rect, first, last)
    }
}

/// What the corners at both sides of a rectangle leave of a row of it. Where these cross, no pixel
/// is taken to be solid.
fn between(rect: Rect, first: Ends, last: Ends) -> Spans
    ensures { IsBetween rect first last result }
{
    let (x0, x1) = (rect.x0(), rect.x1());
    let from = (x0 + first.clear as i32).min(x1);
    let to = (x1 - last.clear as i32).max(from);
    Spans {
        left: (x0 + first.gone as i32).min(x1),
        from,
        to,
        right: (x1 - last.gone as i32).max(to),
    }
}
