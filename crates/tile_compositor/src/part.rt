//! Parts of a frame.

ghost use Rattle.std.specs.Prelude.{◌≡◌, ◌<◌, ℕ, IsTrue};
ghost use Rattle.wr_geom.specs.Bounds.{Covers, has_points};
ghost use Rattle.span_kernels.specs.PlanesModel.{pixel_at};
ghost use Rattle.tile_grid.specs.Grids.{IsWithinReach};
ghost use Rattle.tile_compositor.specs.Laid.{AreAllPixels, IsLaid, IsPartIn, KeepSides, bounds_of, frame_rect, lies_in};
ghost use Rattle.tile_compositor.specs.Composition.{HasAllPixels, IsPartOver, tile_over};

use crate::row::{Span, fill_span, lay_span};
use crate::source::source_of;
use blend_rules::Px;
use span_kernels::{Planes, know_planes};
use tile_store::TileView;
use wr_geom::{Point, Rect};

/// A part of a frame: the columns from `left` to before `right`, and the rows from `top` to before `bottom`.
#[derive(Clone, Copy, Debug)]
pub(crate) struct Part {
    pub(crate) left: u16,
    pub(crate) top: u16,
    pub(crate) right: u16,
    pub(crate) bottom: u16,
}

/// A rectangle of a frame as a part of it. It must have points and lie in the frame.
pub(crate) fn part_of(rect: Rect, planes: &Planes) -> Part
    requires points { IsTrue (has_points rect) }
    requires inside { Covers (frame_rect planes.now) rect }
    ensures bounds { bounds_of result ≡ rect }
    ensures part { IsPartIn planes.now result }
{
    know_planes(planes);
    Part {
        left: rect.x0() as u16,
        top: rect.y0() as u16,
        right: rect.x1() as u16,
        bottom: rect.y1() as u16,
    }
}

/// Gives each pixel of a frame one colour.
pub(crate) fn fill_frame(planes: &mut Planes, colour: Px)
    ensures sides { KeepSides planes.old planes.new }
    ensures each { (x y : ℕ) → x < planes.new.width → y < planes.new.height → pixel_at planes.new x y ≡ colour }
{
    let to = planes.width();
    for y in 0..planes.height() {
        fill_span(planes, Span { y, from: 0, to }, colour);
    }
}

/// Lays a tile over a part of a frame, row by row.
pub(crate) fn lay_part<R>(planes: &mut Planes, tile: &TileView<'_, R>, origin: Point, part: Part)
    requires origin { IsWithinReach origin }
    requires part { IsPartIn planes.old part }
    requires over { IsPartOver tile.now.rect origin part }
    requires tile { HasAllPixels tile.now }
    requires frame { AreAllPixels planes.old }
    ensures { IsLaid (tile_over tile.now origin planes.old) (lies_in (bounds_of part)) planes.old planes.new }
{
    for y in part.top..part.bottom {
        let span = Span {
            y,
            from: part.left,
            to: part.right,
        };
        let source = source_of(tile, origin, span);
        lay_span(planes, span, source);
    }
}
