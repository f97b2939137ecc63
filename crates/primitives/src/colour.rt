//! The colour of a primitive at one point, and what hides all that is below it.

ghost use Rattle.std.specs.Prelude.{◌≡◌, ◌↔◌, IsTrue};
ghost use Rattle.blend_rules.specs.Colour.{IsPixel};
ghost use Rattle.clip_masks.specs.Corners.{HasPixel};
ghost use Rattle.primitives.specs.PrimitiveModel.{IsKind};
ghost use Rattle.primitives.specs.Colours.{kind_colour, primitive_colour, visible_rect};
ghost use Rattle.primitives.specs.Facts.{IsOpaque};

use crate::border::{BorderColours, border_colour};
use crate::image::{colour_of_image, is_opaque_image, used_image};
use crate::text::text_colour;
use crate::{Kind, Primitive};
use blend_rules::Px;
use image_store::{Store, know_store};
use wr_geom::{Point, Rect};

/// What is shown at a pixel of the rectangle.
fn kind_colour(kind: &Kind, rect: Rect, store: &Store, x: i32, y: i32) -> Px
    requires pixel { HasPixel rect x y }
    requires kind { IsKind rect kind.now }
    ensures { result ≡ kind_colour store.now rect kind.now x y }
{
    match kind {
        Kind::Solid(colour) => *colour,
        Kind::Image {
            pipeline,
            key,
            generation,
            u,
            v,
        } => {
            let image = used_image(store, *pipeline, *key, *generation);
            colour_of_image(image, rect, *u, *v, x, y)
        }
        Kind::Border {
            widths,
            top,
            right,
            bottom,
            left,
            radii,
        } => {
            let colours = BorderColours {
                top: *top,
                right: *right,
                bottom: *bottom,
                left: *left,
            };
            border_colour(rect, *widths, colours, *radii, x, y)
        }
        Kind::Text {
            pipeline,
            font,
            colour,
            glyphs,
        } => text_colour(store, *pipeline, *font, *colour, glyphs.as_slice(), x, y),
    }
}

/// A primitive's colour at the pixel (x, y), with what is stored now: clear outside of its rectangle.
/// It takes no memory.
pub fn colour_at(prim: &Primitive, store: &Store, x: i32, y: i32) -> Px
    ensures value { result ≡ primitive_colour store.now prim.now x y }
    ensures pixel { IsPixel result }
{
    know_store(store);
    let _rect = prim.rect();
    primitive_colour(prim, store, x, y)
}

/// The same, without what is known of it.
fn primitive_colour(prim: &Primitive, store: &Store, x: i32, y: i32) -> Px
    ensures { result ≡ primitive_colour store.now prim.now x y }
{
    let rect = prim.rect();
    if !rect.contains(Point { x, y }) {
        return Px::CLEAR;
    }
    kind_colour(prim.kind(), rect, store, x, y)
}

/// Whether it hides all that is below it at each point of its rectangle: a colour of alpha 255, or an
/// image that is drawn and stored now, whose texels all have alpha 255. It takes no memory.
pub fn is_opaque(prim: &Primitive, store: &Store) -> bool
    ensures { IsTrue result ↔ IsOpaque store.now prim.now.kind }
{
    match prim.kind() {
        Kind::Solid(colour) => colour.a == 255,
        Kind::Image {
            pipeline,
            key,
            generation,
            ..
        } => is_opaque_image(used_image(store, *pipeline, *key, *generation)),
        Kind::Border { .. } => false,
        Kind::Text { .. } => false,
    }
}

/// Its rectangle cut by the rectangle of each of its clips of mode in: outside of that its clips leave
/// nothing of it. It takes no memory.
pub fn visible(prim: &Primitive) -> Rect
    ensures { result ≡ visible_rect prim.now }
{
    prim.visible_rect()
}
