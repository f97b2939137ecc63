//! Items as bytes.

ghost use Rattle.std.specs.Prelude.{◌≡◌, ◌++◌, ◌<◌, ◌^◌, All, OnOk, length};
ghost use Rattle.std.specs.List.{flat_map};
ghost use Rattle.display_list.specs.Counts.{HasFewGlyphs};
ghost use Rattle.display_list.specs.Tokens.{tokens_of, item_tokens};
ghost use Rattle.display_list.specs.Spelling.{widths_bytes, spot_bytes, glyph_bytes, push_bytes, token_bytes};

use crate::encoder::put_radii;
use crate::tags::{BORDER, HIT_AREA, IFRAME, IMAGE, POP_CONTEXT, PUSH_CONTEXT, SOLID, TEXT};
use crate::token::{Push, Token};
use crate::{GlyphAt, Item, Spot};
use blend_rules::Px;
use containers::Sequence;
use field_forms::{put_colour, put_flag, put_i32, put_optional, put_rectangle, put_u16, put_u32};
use std::alloc::AllocError;
use wr_geom::{Radii, Widths};

#[tactic(auto, unfolding(crate::specs::Spelling::spot_bytes))]
fn put_spot(out: &mut Vec<u8>, spot: Spot) -> Result<(), AllocError>
    ensures { OnOk result (out.new.items ≡ out.old.items ++ spot_bytes spot) }
{
    put_u16(out, spot.node)?;
    put_optional(out, spot.chain)?;
    put_rectangle(out, spot.rect)
}

#[tactic(auto, unfolding(crate::specs::Spelling::widths_bytes))]
fn put_widths(out: &mut Vec<u8>, widths: Widths) -> Result<(), AllocError>
    ensures { OnOk result (out.new.items ≡ out.old.items ++ widths_bytes widths) }
{
    put_u16(out, widths.top)?;
    put_u16(out, widths.right)?;
    put_u16(out, widths.bottom)?;
    put_u16(out, widths.left)
}

#[tactic(auto, unfolding(crate::specs::Spelling::glyph_bytes))]
fn put_glyph(out: &mut Vec<u8>, glyph: GlyphAt) -> Result<(), AllocError>
    ensures { OnOk result (out.new.items ≡ out.old.items ++ glyph_bytes glyph) }
{
    put_u16(out, glyph.glyph)?;
    put_i32(out, glyph.x)?;
    put_i32(out, glyph.y)
}

fn put_push(out: &mut Vec<u8>, push: Push) -> Result<(), AllocError>
    ensures { OnOk result (out.new.items ≡ out.old.items ++ push_bytes push) }
{
    out.push(PUSH_CONTEXT)?;
    put_u16(out, push.node)?;
    put_optional(out, push.chain)?;
    out.push(push.opacity)?;
    put_optional(out, push.prop)?;
    out.push(push.mode as u8)?;
    put_flag(out, push.isolate)
}

fn put_glyphs(out: &mut Vec<u8>, glyphs: &[GlyphAt]) -> Result<(), AllocError>
    ensures { OnOk result (out.new.items ≡ out.old.items ++ flat_map glyph_bytes glyphs.now) }
{
    for glyph in glyphs {
        put_glyph(out, *glyph)?;
    }
    Ok(())
}

fn put_solid(out: &mut Vec<u8>, spot: Spot, colour: Px) -> Result<(), AllocError>
    ensures { OnOk result (out.new.items ≡ out.old.items ++ token_bytes (Token.Solid spot colour)) }
{
    out.push(SOLID)?;
    put_spot(out, spot)?;
    put_colour(out, colour)
}

fn put_image(out: &mut Vec<u8>, spot: Spot, key: u32, u: u16, v: u16) -> Result<(), AllocError>
    ensures { OnOk result (out.new.items ≡ out.old.items ++ token_bytes (Token.Image spot key u v)) }
{
    out.push(IMAGE)?;
    put_spot(out, spot)?;
    put_u32(out, key)?;
    put_u16(out, u)?;
    put_u16(out, v)
}

// The colours of a border's sides.
#[derive(Clone, Copy)]
struct Sides {
    top: Px,
    right: Px,
    bottom: Px,
    left: Px,
}

fn put_border(
    out: &mut Vec<u8>,
    spot: Spot,
    widths: Widths,
    sides: Sides,
    radii: Radii,
) -> Result<(), AllocError>
    ensures { OnOk result (out.new.items ≡ out.old.items ++ token_bytes (Token.Border spot widths sides.top sides.right sides.bottom sides.left radii)) }
{
    out.push(BORDER)?;
    put_spot(out, spot)?;
    put_widths(out, widths)?;
    put_colour(out, sides.top)?;
    put_colour(out, sides.right)?;
    put_colour(out, sides.bottom)?;
    put_colour(out, sides.left)?;
    put_radii(out, radii)
}

fn put_text(
    out: &mut Vec<u8>,
    spot: Spot,
    font: u16,
    colour: Px,
    glyphs: &Sequence<GlyphAt>,
) -> Result<(), AllocError>
    requires { length glyphs.now < 2 ^ 16 }
    ensures { OnOk result (out.new.items ≡ out.old.items ++ token_bytes (Token.Text spot font colour glyphs.now)) }
{
    out.push(TEXT)?;
    put_spot(out, spot)?;
    put_u16(out, font)?;
    put_colour(out, colour)?;
    put_u16(out, glyphs.len() as u16)?;
    put_glyphs(out, glyphs.as_slice())
}

fn put_iframe(out: &mut Vec<u8>, spot: Spot, pipeline: u8) -> Result<(), AllocError>
    ensures { OnOk result (out.new.items ≡ out.old.items ++ token_bytes (Token.Iframe spot pipeline)) }
{
    out.push(IFRAME)?;
    put_spot(out, spot)?;
    out.push(pipeline)?;
    Ok(())
}

fn put_hit_area(out: &mut Vec<u8>, spot: Spot, tag: u32) -> Result<(), AllocError>
    ensures { OnOk result (out.new.items ≡ out.old.items ++ token_bytes (Token.HitArea spot tag)) }
{
    out.push(HIT_AREA)?;
    put_spot(out, spot)?;
    put_u32(out, tag)
}

#[tactic(auto, using(crate::proofs::Writing::writing))]
#[cycle(items)]
fn put_item(out: &mut Vec<u8>, item: &Item) -> Result<(), AllocError>
    requires { All HasFewGlyphs (item_tokens item.now) }
    ensures { OnOk result (out.new.items ≡ out.old.items ++ flat_map token_bytes (item_tokens item.now)) }
{
    match item {
        Item::Solid { spot, colour } => put_solid(out, *spot, *colour),
        Item::Image { spot, key, u, v } => put_image(out, *spot, *key, *u, *v),
        Item::Border {
            spot,
            widths,
            top,
            right,
            bottom,
            left,
            radii,
        } => {
            let sides = Sides {
                top: *top,
                right: *right,
                bottom: *bottom,
                left: *left,
            };
            put_border(out, *spot, *widths, sides, *radii)
        }
        Item::Text {
            spot,
            font,
            colour,
            glyphs,
        } => put_text(out, *spot, *font, *colour, glyphs),
        Item::Context {
            node,
            chain,
            opacity,
            prop,
            mode,
            isolate,
            children,
        } => {
            let push = Push {
                node: *node,
                chain: *chain,
                opacity: *opacity,
                prop: *prop,
                mode: *mode,
                isolate: *isolate,
            };
            put_push(out, push)?;
            put_items(out, children)?;
            out.push(POP_CONTEXT)?;
            Ok(())
        }
        Item::Iframe { spot, pipeline } => put_iframe(out, *spot, *pipeline),
        Item::HitArea { spot, tag } => put_hit_area(out, *spot, *tag),
    }
}

#[tactic(auto, using(crate::proofs::Writing::writing))]
#[cycle(items)]
pub(crate) fn put_items(out: &mut Vec<u8>, items: &[Item]) -> Result<(), AllocError>
    requires { All HasFewGlyphs (tokens_of items.now) }
    ensures { OnOk result (out.new.items ≡ out.old.items ++ flat_map token_bytes (tokens_of items.now)) }
{
    for item in items {
        put_item(out, item)?;
    }
    Ok(())
}
