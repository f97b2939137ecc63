//! The colours of a primitive along a row of pixels, one plane at a time.

ghost use Rattle.std.specs.Prelude.{◌≡◌, ◌≤◌, ◌<◌, ◌≤ℤ◌, ◌<ℤ◌, ◌+ℤ◌, pos, ℕ, length, slice_index, EachIndex};
ghost use Rattle.blend_rules.specs.Planes.{channel};
ghost use Rattle.display_list.specs.Facts.{IsBorder};
ghost use Rattle.clip_masks.specs.Corners.{HasPixel};
ghost use Rattle.primitives.specs.Borders.{border_colour as border_colour_at};
ghost use Rattle.primitives.specs.Colours.{kind_colour, primitive_colour};
ghost use Rattle.primitives.specs.PrimitiveModel.{IsKind};

use crate::border::{BorderColours, border_colour};
use crate::image::used_image;
use crate::image_row::row_of_image;
use crate::text::distance;
use crate::text_row::text_row;
use crate::{Kind, Primitive};
use blend_rules::Plane;
use image_store::Store;
use span_kernels::fill;
use wr_geom::{Radii, Rect, Widths};

/// Writes the bytes of a primitive's colours in one plane along a row of pixels, which begins at (x0, y), with what is
/// stored now: 0 outside of its rectangle. It takes no memory.
pub fn colour_row(prim: &Primitive, store: &Store, p: Plane, y: i32, x0: i32, out: &mut [u8])
    ensures { EachIndex out.new (λ k. slice_index out.new k
        ≡ channel p (primitive_colour store.now prim.now (x0 +ℤ pos k) y)) }
{
    let rect = prim.rect();
    if y < rect.y0() || rect.y1() <= y {
        fill(out, 0);
        return;
    }
    let (from, to) = columns_in(rect, x0, out.len());
    clear_around(from, to, out);
    if from < to {
        kind_part(prim.kind(), rect, store, p, y, x0, from, to, out);
    }
}

/// The index of a coordinate that lies so many pixels beyond the first of a row, held between 0 and the row's length.
pub(crate) fn index_of(distance: i64, len: usize) -> usize
    ensures within { result ≤ len }
    ensures before { (k : ℕ) → k < result → pos k <ℤ distance }
    ensures after { (k : ℕ) → result ≤ k → k < len → distance ≤ℤ pos k }
    ensures none { distance ≤ℤ pos 0 → result ≡ 0 }
    ensures exact { pos 0 ≤ℤ distance → result < len → pos result ≡ distance }
{
    if distance <= 0 {
        return 0;
    }
    (distance as usize).min(len)
}

/// The indices from which and up to which a row that begins at `x0` lies within a rectangle's columns.
fn columns_in(rect: Rect, x0: i32, len: usize) -> (usize, usize)
    ensures ordered { result.0 ≤ result.1 }
    ensures within { result.1 ≤ len }
    ensures before { (k : ℕ) → k < result.0 → (x0 +ℤ pos k) <ℤ rect.x0 }
    ensures left { (k : ℕ) → result.0 ≤ k → k < result.1 → rect.x0 ≤ℤ (x0 +ℤ pos k) }
    ensures right { (k : ℕ) → k < result.1 → (x0 +ℤ pos k) <ℤ rect.x1 }
    ensures after { (k : ℕ) → result.1 ≤ k → k < len → rect.x1 ≤ℤ (x0 +ℤ pos k) }
{
    let from = index_of(distance(rect.x0(), x0), len);
    let to = index_of(distance(rect.x1(), x0), len);
    (from, to)
}

/// Fills the bytes of a row before the index `from` and from the index `to` on with 0.
fn clear_around(from: usize, to: usize, out: &mut [u8])
    requires ordered { from ≤ to }
    requires within { to ≤ length out.old }
    ensures before { (k : ℕ) → k < from → slice_index out.new k ≡ 0 }
    ensures after { (k : ℕ) → to ≤ k → k < length out.old → slice_index out.new k ≡ 0 }
{
    fill(&mut out[..from], 0);
    fill(&mut out[to..], 0);
}

/// The coordinate at an index of a row that begins at `x0`, within a rectangle's columns.
fn pixel_at(rect: Rect, x0: i32, k: usize) -> i32
    requires left { rect.x0 ≤ℤ (x0 +ℤ pos k) }
    requires right { (x0 +ℤ pos k) <ℤ rect.x1 }
    ensures { result ≡ x0 +ℤ pos k }
{
    let _left = rect.x0();
    (x0 as i64 + k as i64) as i32
}

/// Writes the bytes from the index `from` up to `to` of a row that begins at (x0, y).
fn kind_part(
    kind: &Kind,
    rect: Rect,
    store: &Store,
    p: Plane,
    y: i32,
    x0: i32,
    from: usize,
    to: usize,
    out: &mut [u8],
)
    requires some { from < to }
    requires within { to ≤ length out.old }
    requires pixels { (k : ℕ) → from ≤ k → k < to → HasPixel rect (x0 +ℤ pos k) y }
    requires kind { IsKind rect kind.now }
    ensures inside { (k : ℕ) → from ≤ k → k < to → slice_index out.new k
        ≡ channel p (kind_colour store.now rect kind.now (x0 +ℤ pos k) y) }
    ensures before { (k : ℕ) → k < from → slice_index out.new k ≡ slice_index out.old k }
    ensures after { (k : ℕ) → to ≤ k → slice_index out.new k ≡ slice_index out.old k }
{
    let first = pixel_at(rect, x0, from);
    kind_row(kind, rect, store, p, y, first, &mut out[from..to]);
}

/// Writes the bytes of a row of the rectangle's pixels.
fn kind_row(kind: &Kind, rect: Rect, store: &Store, p: Plane, y: i32, x0: i32, out: &mut [u8])
    requires first { HasPixel rect x0 y }
    requires pixels { EachIndex out.old (λ k. HasPixel rect (x0 +ℤ pos k) y) }
    requires kind { IsKind rect kind.now }
    ensures { EachIndex out.new (λ k. slice_index out.new k
        ≡ channel p (kind_colour store.now rect kind.now (x0 +ℤ pos k) y)) }
{
    match kind {
        Kind::Solid(colour) => fill(out, colour.channel(p)),
        Kind::Image {
            pipeline,
            key,
            generation,
            u,
            v,
        } => {
            let image = used_image(store, *pipeline, *key, *generation);
            row_of_image(image, rect, *u, *v, p, y, x0, out);
        }
        Kind::Border {
            widths,
            top,
            right,
            bottom,
            left,
            radii,
        } => {
            let colours = BorderColours {
                top: *top,
                right: *right,
                bottom: *bottom,
                left: *left,
            };
            border_row(rect, *widths, colours, *radii, p, y, x0, out);
        }
        Kind::Text {
            pipeline,
            font,
            colour,
            glyphs,
        } => text_row(
            store,
            *pipeline,
            *font,
            *colour,
            glyphs.as_slice(),
            p,
            y,
            x0,
            out,
        ),
    }
}

/// Writes the bytes of a row of a border's pixels.
fn border_row(
    rect: Rect,
    w: Widths,
    colours: BorderColours,
    radii: Radii,
    p: Plane,
    y: i32,
    x0: i32,
    out: &mut [u8],
)
    requires pixels { EachIndex out.old (λ k. HasPixel rect (x0 +ℤ pos k) y) }
    requires border { IsBorder rect w radii }
    ensures { EachIndex out.new (λ k. slice_index out.new k
        ≡ channel p (border_colour_at rect w colours radii (x0 +ℤ pos k) y)) }
{
    for k in 0..out.len() {
        let x = pixel_at(rect, x0, k);
        out[k] = border_colour(rect, w, colours, radii, x, y).channel(p);
    }
}
