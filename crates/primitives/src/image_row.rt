//! Rows of images that primitives show.

ghost use Rattle.std.specs.Prelude.{◌≡◌, ◌+ℤ◌, pos, slice_index, EachIndex, Some};
ghost use Rattle.std.specs.Option.{option_copied};
ghost use Rattle.blend_rules.specs.Planes.{channel};
ghost use Rattle.clip_masks.specs.Corners.{HasPixel};
ghost use Rattle.primitives.specs.Colours.{image_colour};

use crate::border::pixels_before;
use blend_rules::Plane;
use image_store::Image;
use span_kernels::{copy_repeated, fill};
use wr_geom::Rect;

/// Writes the bytes of an image's colours along a row of pixels of a rectangle, in whose first corner lies the image's
/// texel (u, v): 0 where there is no image.
pub(crate) fn row_of_image(
    image: Option<&Image>,
    rect: Rect,
    u: u16,
    v: u16,
    p: Plane,
    y: i32,
    x0: i32,
    out: &mut [u8],
)
    requires { HasPixel rect x0 y }
    ensures { EachIndex out.new (λ k. slice_index out.new k
        ≡ channel p (image_colour (option_copied image.entry) rect u v (x0 +ℤ pos k) y)) }
{
    match image {
        None => fill(out, 0),
        Some(image) => image_row(image, rect, u, v, p, y, x0, out),
    }
}

/// The same of an image that is there.
fn image_row(image: &Image, rect: Rect, u: u16, v: u16, p: Plane, y: i32, x0: i32, out: &mut [u8])
    requires { HasPixel rect x0 y }
    ensures { EachIndex out.new (λ k. slice_index out.new k
        ≡ channel p (image_colour (Some image.now) rect u v (x0 +ℤ pos k) y)) }
{
    let (w, h) = (image.w() as u32, image.h() as u32);
    let column = (pixels_before(rect.x0(), x0) + u as u32) % w;
    let row = (pixels_before(rect.y0(), y) + v as u32) % h;
    copy_repeated(out, image.row(p, row as u16), column as usize);
}
