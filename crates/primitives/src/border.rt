//! Borders: the side that a pixel belongs to, and how much of it is covered.

ghost use Rattle.std.specs.Prelude.{◌≡◌, ◌≤ℤ◌, ◌<ℤ◌, ◌^◌, ◌≤◌, pos, neg_ℤ, IsTrue};
ghost use Rattle.wr_geom.specs.Bounds.{IsCoordinate, holds};
ghost use Rattle.wr_geom.specs.Sides.{WidthsFit};
ghost use Rattle.blend_rules.specs.Colour.{IsPixel};
ghost use Rattle.display_list.specs.Facts.{IsBorder};
ghost use Rattle.clip_masks.specs.Corners.{HasPixel};
ghost use Rattle.primitives.specs.Borders.{HasPixelColours, is_at_first, edge_of, pixels_before, pixels_after};
ghost use Rattle.primitives.specs.Borders.{vertical_edge, horizontal_edge, is_horizontal, colour_of_side, side_colour};
ghost use Rattle.primitives.specs.Borders.{border_coverage, border_colour};

use blend_rules::{Px, scale};
use clip_masks::Rounded;
use wr_geom::{Radii, Rect, Widths};

/// One of two opposite sides, as a pixel meets it.
#[derive(Clone, Copy)]
pub(crate) struct Edge {
    /// Whether it is the left one, or the top one.
    pub(crate) is_first: bool,
    /// How many pixels lie between its edge and the pixel.
    pub(crate) distance: u32,
    pub(crate) width: u16,
}

/// The colours of a border's four sides.
#[derive(Clone, Copy)]
pub struct BorderColours {
    /// The colour of the side along the upper edge.
    pub top: Px,
    /// The colour of the side along the right edge.
    pub right: Px,
    /// The colour of the side along the lower edge.
    pub bottom: Px,
    /// The colour of the side along the left edge.
    pub left: Px,
}

/// Whether a pixel with so many others before it and after it belongs to the side at the first edge.
#[tactic(auto, unfolding(crate::specs::Borders::is_at_first))]
fn is_at_first(before: u32, after: u32, first: u16, last: u16) -> bool
    ensures { result ≡ is_at_first before after first last }
{
    if before < first as u32 {
        return true;
    }
    if after < last as u32 {
        return false;
    }
    before <= after
}

/// The side that such a pixel belongs to.
#[tactic(auto, unfolding(crate::specs::Borders::edge_of))]
fn edge_of(before: u32, after: u32, first: u16, last: u16) -> Edge
    ensures { result ≡ edge_of before after first last }
{
    if is_at_first(before, after, first, last) {
        return Edge {
            is_first: true,
            distance: before,
            width: first,
        };
    }
    Edge {
        is_first: false,
        distance: after,
        width: last,
    }
}

/// How many pixels lie between a first edge and a coordinate.
pub(crate) fn pixels_before(edge: i32, z: i32) -> u32
    requires edge { IsCoordinate edge }
    requires beyond { edge ≤ℤ z }
    requires near { z ≤ℤ pos (2 ^ 29) }
    ensures value { result ≡ pixels_before edge z }
    ensures near { result ≤ 2 ^ 30 }
{
    (z - edge) as u32
}

/// How many pixels lie between a coordinate and a last edge.
fn pixels_after(edge: i32, z: i32) -> u32
    requires edge { IsCoordinate edge }
    requires before { z <ℤ edge }
    requires near { neg_ℤ (pos (2 ^ 29)) ≤ℤ z }
    ensures { result ≡ pixels_after edge z }
{
    (edge - 1 - z) as u32
}

/// Whether a pixel with these edges belongs to its horizontal side.
#[tactic(auto, unfolding(crate::specs::Borders::is_horizontal))]
fn is_horizontal(across: Edge, down: Edge) -> bool
    ensures { result ≡ is_horizontal across down }
{
    (2 * down.distance as u64 + 1) * across.width as u64
        <= (2 * across.distance as u64 + 1) * down.width as u64
}

/// The colour of the side to which a pixel with these edges belongs.
#[tactic(auto, unfolding(crate::specs::Borders::colour_of_side))]
fn colour_of_side(across: Edge, down: Edge, colours: BorderColours) -> Px
    ensures { result ≡ colour_of_side across down colours }
{
    if is_horizontal(across, down) {
        if down.is_first {
            colours.top
        } else {
            colours.bottom
        }
    } else if across.is_first {
        colours.left
    } else {
        colours.right
    }
}

/// A pixel's vertical side.
fn vertical_edge(rect: Rect, w: Widths, x: i32) -> Edge
    requires left { rect.x0 ≤ℤ x }
    requires right { x <ℤ rect.x1 }
    ensures { result ≡ vertical_edge rect w x }
{
    let (x0, x1) = (rect.x0(), rect.x1());
    edge_of(pixels_before(x0, x), pixels_after(x1, x), w.left, w.right)
}

/// A pixel's horizontal side.
fn horizontal_edge(rect: Rect, w: Widths, y: i32) -> Edge
    requires top { rect.y0 ≤ℤ y }
    requires bottom { y <ℤ rect.y1 }
    ensures { result ≡ horizontal_edge rect w y }
{
    let (y0, y1) = (rect.y0(), rect.y1());
    edge_of(pixels_before(y0, y), pixels_after(y1, y), w.top, w.bottom)
}

/// How much of a pixel lies in the outer shape and not in the inner one, of 255.
#[tactic(auto, unfolding(crate::specs::Borders::border_coverage))]
fn border_coverage(outer: Rounded, w: Widths, x: i32, y: i32) -> u8
    requires { WidthsFit outer.rect w }
    ensures { result ≡ border_coverage outer w x y }
{
    let inner = outer.inset(w);
    let samples = outer.samples(x, y).saturating_sub(inner.samples(x, y));
    ((255 * samples as u16 + 8) / 16) as u8
}

/// The colour of the side that a pixel of the rectangle belongs to.
#[tactic(auto, unfolding(crate::specs::Borders::side_colour))]
fn side_colour(rect: Rect, w: Widths, colours: BorderColours, x: i32, y: i32) -> Px
    requires { HasPixel rect x y }
    ensures { result ≡ side_colour rect w colours x y }
{
    colour_of_side(
        vertical_edge(rect, w, x),
        horizontal_edge(rect, w, y),
        colours,
    )
}

/// A border's colour at a pixel of its rectangle. It takes no memory.
pub fn border_colour(
    rect: Rect,
    w: Widths,
    colours: BorderColours,
    radii: Radii,
    x: i32,
    y: i32,
) -> Px
    requires pixel { HasPixel rect x y }
    requires border { IsBorder rect w radii }
    ensures value { result ≡ border_colour rect w colours radii x y }
    ensures pixel { HasPixelColours colours → IsPixel result }
{
    covered_side_colour(rect, w, colours, radii, x, y)
}

/// The same, without what is known of it.
fn covered_side_colour(
    rect: Rect,
    w: Widths,
    colours: BorderColours,
    radii: Radii,
    x: i32,
    y: i32,
) -> Px
    requires pixel { HasPixel rect x y }
    requires border { IsBorder rect w radii }
    ensures { result ≡ border_colour rect w colours radii x y }
{
    let outer = Rounded::new(rect, radii).unwrap();
    scale(
        side_colour(rect, w, colours, x, y),
        border_coverage(outer, w, x, y),
    )
}
