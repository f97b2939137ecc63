//! Rows of text that primitives show.

ghost use Rattle.std.specs.Prelude.{◌≡◌, ◌≤◌, ◌<◌, ◌^◌, ◌⊎◌, ◌+◌, ◌≤ℤ◌, ◌<ℤ◌, ◌+ℤ◌, ◌-ℤ◌, neg_ℤ, pos, ℕ, length, slice_index, EachIndex, Some};
ghost use Rattle.std.specs.Option.{option_copied};
ghost use Rattle.blend_rules.specs.Colour.{IsPixel, product};
ghost use Rattle.blend_rules.specs.Planes.{channel};
ghost use Rattle.span_kernels.specs.Bytes.{over_byte};
ghost use Rattle.image_store.specs.StoreModel.{glyph_at};
ghost use Rattle.primitives.specs.Colours.{resource_of_use, text_colour};
ghost use Rattle.primitives.specs.Rows.{masked_byte};

use crate::GlyphUse;
use crate::row::index_of;
use crate::text::{distance, used_mask};
use blend_rules::{Plane, Px};
use image_store::{Mask, Store, know_store};
use span_kernels::{fill, over_masked};
use wr_geom::Point;

/// Writes the bytes of a text's colours along a row of pixels, which begins at (x0, y).
pub(crate) fn text_row(
    store: &Store,
    pipeline: u8,
    font: u16,
    colour: Px,
    glyphs: &[GlyphUse],
    p: Plane,
    y: i32,
    x0: i32,
    out: &mut [u8],
)
    requires { IsPixel colour }
    ensures { EachIndex out.new (λ k. slice_index out.new k
        ≡ channel p (text_colour store.now pipeline font colour glyphs.now (x0 +ℤ pos k) y)) }
{
    know_store(store);
    fill(out, 0);
    for g in glyphs {
        glyph_use_row(store, pipeline, font, colour, *g, p, y, x0, out);
    }
}

/// Lays a colour under one glyph over a row of bytes.
fn glyph_use_row(
    store: &Store,
    pipeline: u8,
    font: u16,
    colour: Px,
    g: GlyphUse,
    p: Plane,
    y: i32,
    x0: i32,
    out: &mut [u8],
)
    requires { IsPixel colour }
    ensures { EachIndex out.new (λ k. slice_index out.new k ≡ masked_byte p colour
        (resource_of_use g.generation (glyph_at store.now pipeline font g.glyph))
        (x0 +ℤ pos k -ℤ g.x) (y -ℤ g.y) (slice_index out.old k)) }
{
    let mask = used_mask(store, pipeline, font, g);
    glyph_row(mask, Point { x: g.x, y: g.y }, colour, p, y, x0, out);
}

/// Lays a colour under a mask, whose first corner lies at a point, over a row of bytes.
fn glyph_row(mask: Option<&Mask>, at: Point, colour: Px, p: Plane, y: i32, x0: i32, out: &mut [u8])
    requires { IsPixel colour }
    ensures { EachIndex out.new (λ k. slice_index out.new k ≡ masked_byte p colour (option_copied mask.entry)
        (x0 +ℤ pos k -ℤ at.x) (y -ℤ at.y) (slice_index out.old k)) }
{
    if let Some(mask) = mask {
        mask_row(mask, at, colour, p, y, x0, out);
    }
}

/// The same of a mask that is there.
fn mask_row(mask: &Mask, at: Point, colour: Px, p: Plane, y: i32, x0: i32, out: &mut [u8])
    requires { IsPixel colour }
    ensures { EachIndex out.new (λ k. slice_index out.new k ≡ masked_byte p colour (Some mask.now)
        (x0 +ℤ pos k -ℤ at.x) (y -ℤ at.y) (slice_index out.old k)) }
{
    let row = distance(y, at.y);
    if row < 0 || mask.h() as i64 <= row {
        return;
    }
    over_part(
        mask.row(row as u16),
        distance(at.x, x0),
        colour.channel(p),
        colour.a,
        out,
    );
}

/// Lays a byte of a source and its alpha under a row of a mask over a row of bytes. The first byte of the mask belongs to
/// the index `start`, which lies before the row where it is below 0.
fn over_part(mask: &[u8], start: i64, s: u8, sa: u8, out: &mut [u8])
    requires premultiplied { s ≤ sa }
    requires low { neg_ℤ (pos (2 ^ 33)) ≤ℤ start }
    ensures inside { (k j : ℕ) → k < length out.old → j < length mask.now → pos k ≡ start +ℤ pos j
        → slice_index out.new k ≡ over_byte (product sa (slice_index mask.now j))
        (product s (slice_index mask.now j)) (slice_index out.old k) }
    ensures beside { (k : ℕ) → k < length out.old
        → (pos k <ℤ start) ⊎ ((start +ℤ pos (length mask.now)) ≤ℤ pos k)
        → slice_index out.new k ≡ slice_index out.old k }
{
    let from = index_of(start, out.len());
    let first = index_of(-start, mask.len());
    let count = (out.len() - from).min(mask.len() - first);
    over_from(mask, first, s, sa, from, count, out);
}

/// Lays a byte of a source and its alpha under `count` bytes of a mask, from the index `first` on, over those of a row
/// from the index `from` on.
fn over_from(mask: &[u8], first: usize, s: u8, sa: u8, from: usize, count: usize, out: &mut [u8])
    requires premultiplied { s ≤ sa }
    requires mask { first + count ≤ length mask.now }
    requires room { from + count ≤ length out.old }
    ensures inside { (i : ℕ) → i < count → slice_index out.new (from + i)
        ≡ over_byte (product sa (slice_index mask.now (first + i)))
        (product s (slice_index mask.now (first + i))) (slice_index out.old (from + i)) }
    ensures before { (k : ℕ) → k < from → slice_index out.new k ≡ slice_index out.old k }
    ensures after { (k : ℕ) → from + count ≤ k → slice_index out.new k ≡ slice_index out.old k }
{
    over_masked(
        &mut out[from..from + count],
        s,
        sa,
        &mask[first..first + count],
    );
}
