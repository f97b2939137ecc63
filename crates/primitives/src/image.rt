//! Images that primitives show.

ghost use Rattle.std.specs.Prelude.{◌≡◌, ◌^◌, ◌<◌, ◌↔◌, IsTrue, Some};
ghost use Rattle.std.specs.Option.{option_copied};
ghost use Rattle.blend_rules.specs.Colour.{IsPixel};
ghost use Rattle.clip_masks.specs.Corners.{HasPixel};
ghost use Rattle.image_store.specs.StoreModel.{image_at};
ghost use Rattle.primitives.specs.Colours.{resource_of_use, repeated_texel, image_colour};
ghost use Rattle.primitives.specs.Facts.{IsOpaqueImage};

use crate::border::pixels_before;
use blend_rules::Px;
use image_store::{Image, Store, know_store};
use wr_geom::Rect;

/// What a use of an image draws: what is stored now, and nothing where it carries no generation.
pub(crate) fn used_image(
    store: &Store,
    pipeline: u8,
    key: u32,
    generation: Option<u64>,
) -> Option<&Image>
    ensures { option_copied result ≡ resource_of_use generation (image_at store.now pipeline key) }
{
    match generation {
        None => None,
        Some(_) => store.image(pipeline, key),
    }
}

/// The texel at a column and row of an image that is repeated on both axes.
fn repeated_texel(image: &Image, column: u32, row: u32) -> Px
    ensures { result ≡ repeated_texel (Some image.now) column row }
{
    let (w, h) = (image.w() as u32, image.h() as u32);
    image.texel((column % w) as u16, (row % h) as u16)
}

/// An image's colour at a pixel of a rectangle in whose first corner its texel (u, v) lies.
fn image_colour(image: &Image, rect: Rect, u: u16, v: u16, x: i32, y: i32) -> Px
    requires { HasPixel rect x y }
    ensures { result ≡ image_colour (Some image.now) rect u v x y }
{
    let (x0, y0) = (rect.x0(), rect.y0());
    let column = pixels_before(x0, x) + u as u32;
    let row = pixels_before(y0, y) + v as u32;
    repeated_texel(image, column, row)
}

/// The colour of an image, or clear where there is none.
pub(crate) fn colour_of_image(
    image: Option<&Image>,
    rect: Rect,
    u: u16,
    v: u16,
    x: i32,
    y: i32,
) -> Px
    requires { HasPixel rect x y }
    ensures { result ≡ image_colour (option_copied image.entry) rect u v x y }
{
    match image {
        None => Px::CLEAR,
        Some(image) => image_colour(image, rect, u, v, x, y),
    }
}

/// The colour at a pixel of a rectangle in whose first corner lies the texel (u, v) of an image that is repeated on
/// both axes: clear where no image is stored. It takes no memory.
pub fn image_colour_at(
    store: &Store,
    pipeline: u8,
    key: u32,
    rect: Rect,
    u: u16,
    v: u16,
    x: i32,
    y: i32,
) -> Px
    requires { HasPixel rect x y }
    ensures value { result ≡ image_colour (image_at store.now pipeline key) rect u v x y }
    ensures pixel { IsPixel result }
{
    know_store(store);
    stored_image_colour(store, pipeline, key, rect, u, v, x, y)
}

/// The same, without what is known of it.
fn stored_image_colour(
    store: &Store,
    pipeline: u8,
    key: u32,
    rect: Rect,
    u: u16,
    v: u16,
    x: i32,
    y: i32,
) -> Px
    requires { HasPixel rect x y }
    ensures { result ≡ image_colour (image_at store.now pipeline key) rect u v x y }
{
    colour_of_image(store.image(pipeline, key), rect, u, v, x, y)
}

/// Whether there is an image, and each of its texels is opaque.
pub(crate) fn is_opaque_image(image: Option<&Image>) -> bool
    ensures { IsTrue result ↔ IsOpaqueImage (option_copied image.entry) }
{
    match image {
        None => false,
        Some(image) => image.opaque(),
    }
}
