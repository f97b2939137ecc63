//! Text that primitives show.

ghost use Rattle.std.specs.Prelude.{◌≡◌, ◌-ℤ◌, Some};
ghost use Rattle.std.specs.Option.{option_copied};
ghost use Rattle.blend_rules.specs.Colour.{IsPremultiplied, IsPixel};
ghost use Rattle.image_store.specs.StoreModel.{glyph_at};
ghost use Rattle.primitives.specs.Colours.{resource_of_use, mask_coverage, mask_over, glyph_use_over, text_colour};

use crate::GlyphUse;
use blend_rules::{Mode, Px, blend, scale};
use image_store::{Mask, Store, know_store};
use wr_geom::Point;

/// What a use of a mask draws: what is stored now, and nothing where it carries no generation.
pub(crate) fn used_mask(store: &Store, pipeline: u8, font: u16, g: GlyphUse) -> Option<&Mask>
    ensures { option_copied result ≡ resource_of_use g.generation (glyph_at store.now pipeline font g.glyph) }
{
    match g.generation {
        None => None,
        Some(_) => store.glyph(pipeline, font, g.glyph),
    }
}

/// A mask's byte at (x, y), relative to its first corner: 0 outside of it.
#[tactic(auto, unfolding(crate::specs::Colours::mask_coverage, wr_geom::specs::Bounds::holds))]
fn mask_coverage(mask: &Mask, x: i64, y: i64) -> u8
    ensures { result ≡ mask_coverage (Some mask.now) x y }
{
    if x < 0 || mask.w() as i64 <= x {
        return 0;
    }
    if y < 0 || mask.h() as i64 <= y {
        return 0;
    }
    mask.byte(x as u16, y as u16)
}

/// The same, and 0 where there is no mask.
#[tactic(auto, unfolding(crate::specs::Colours::mask_coverage))]
fn coverage_of(mask: Option<&Mask>, x: i64, y: i64) -> u8
    ensures { result ≡ mask_coverage (option_copied mask.entry) x y }
{
    match mask {
        None => 0,
        Some(mask) => mask_coverage(mask, x, y),
    }
}

/// How far a coordinate lies beyond another, in pixels.
pub(crate) fn distance(z: i32, from: i32) -> i64
    ensures { result ≡ z -ℤ from }
{
    z as i64 - from as i64
}

/// A colour under a mask whose first corner lies at a point, over what is so far at a pixel.
fn mask_over(mask: Option<&Mask>, at: Point, colour: Px, so_far: Px, x: i32, y: i32) -> Px
    requires colour { IsPremultiplied colour }
    requires so_far { IsPremultiplied so_far }
    ensures value { result ≡ mask_over (option_copied mask.entry) at colour so_far x y }
    ensures premultiplied { IsPremultiplied result }
{
    let coverage = coverage_of(mask, distance(x, at.x), distance(y, at.y));
    blend(Mode::Normal, scale(colour, coverage), so_far)
}

/// One stored glyph in a colour, over what is so far at the pixel (x, y): the first corner of its mask lies at `at`.
/// Where no such glyph is stored, nothing is added. It takes no memory.
pub fn glyph_over(
    store: &Store,
    pipeline: u8,
    font: u16,
    colour: Px,
    glyph: u16,
    at: Point,
    so_far: Px,
    x: i32,
    y: i32,
) -> Px
    requires colour { IsPixel colour }
    requires so_far { IsPixel so_far }
    ensures value { result ≡ mask_over (glyph_at store.now pipeline font glyph) at colour so_far x y }
    ensures pixel { IsPixel result }
{
    know_store(store);
    stored_glyph_over(store, pipeline, font, colour, glyph, at, so_far, x, y)
}

/// The same, without what is known of it.
fn stored_glyph_over(
    store: &Store,
    pipeline: u8,
    font: u16,
    colour: Px,
    glyph: u16,
    at: Point,
    so_far: Px,
    x: i32,
    y: i32,
) -> Px
    requires colour { IsPremultiplied colour }
    requires so_far { IsPremultiplied so_far }
    ensures { result ≡ mask_over (glyph_at store.now pipeline font glyph) at colour so_far x y }
{
    let mask = store.glyph(pipeline, font, glyph);
    mask_over(mask, at, colour, so_far, x, y)
}

/// One glyph more over what is so far.
fn glyph_use_over(
    store: &Store,
    pipeline: u8,
    font: u16,
    colour: Px,
    x: i32,
    y: i32,
    so_far: Px,
    g: GlyphUse,
) -> Px
    requires colour { IsPremultiplied colour }
    requires so_far { IsPremultiplied so_far }
    ensures value { result ≡ glyph_use_over store.now pipeline font colour x y so_far g }
    ensures premultiplied { IsPremultiplied result }
{
    let mask = used_mask(store, pipeline, font, g);
    mask_over(mask, Point { x: g.x, y: g.y }, colour, so_far, x, y)
}

/// A text's colour at a pixel.
pub(crate) fn text_colour(
    store: &Store,
    pipeline: u8,
    font: u16,
    colour: Px,
    glyphs: &[GlyphUse],
    x: i32,
    y: i32,
) -> Px
    requires { IsPremultiplied colour }
    ensures { result ≡ text_colour store.now pipeline font colour glyphs.now x y }
{
    let mut so_far = Px::CLEAR;
    for g in glyphs {
        so_far = glyph_use_over(store, pipeline, font, colour, x, y, so_far, *g);
    }
    so_far
}
