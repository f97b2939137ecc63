//! The items of a list.

ghost use Rattle.std.specs.Prelude.{◌≡◌, ◌≤◌, length, IfOk};
ghost use Rattle.field_forms.specs.Form.{read};
ghost use Rattle.field_forms.specs.Outcome.{Reads};
ghost use Rattle.field_forms.specs.Fields.{times};
ghost use Rattle.display_list.specs.Fields.{glyph};
ghost use Rattle.display_list.specs.Parts.{solid, image, border, text, blend_mode, push_fields, push, pop, pipeline, iframe, hit_area, primitive, item};

use crate::GlyphAt;
use crate::builder::Builder;
use crate::fields::{read_border_widths, read_corner_radii, read_glyph, read_spot};
use crate::limits::{MAX_CONTEXTS, MAX_PIPELINE};
use crate::tags::{BORDER, HIT_AREA, IFRAME, IMAGE, POP_CONTEXT, PUSH_CONTEXT, SOLID, TEXT};
use crate::token::{Push, Token};
use blend_rules::Mode;
use containers::Sequence;
use field_forms::{Reader, fault};
use std::alloc::Global;
use wr_io::{Code, DecodeError};

#[inline(always)]
#[tactic(auto, unfolding(crate::specs::Parts::solid))]
fn read_solid(reader: &mut Reader<'_>, nodes: usize, chains: usize) -> Result<Token, DecodeError>
    ensures { Reads result reader.new (read (solid nodes chains) reader.old) }
{
    let spot = read_spot(reader, nodes, chains)?;
    let colour = reader.colour()?;
    Ok(Token::Solid { spot, colour })
}

#[inline(always)]
#[tactic(auto, unfolding(crate::specs::Parts::image))]
fn read_image(reader: &mut Reader<'_>, nodes: usize, chains: usize) -> Result<Token, DecodeError>
    ensures { Reads result reader.new (read (image nodes chains) reader.old) }
{
    let spot = read_spot(reader, nodes, chains)?;
    let key = reader.u32()?;
    let u = reader.u16()?;
    let v = reader.u16()?;
    Ok(Token::Image { spot, key, u, v })
}

#[tactic(auto, unfolding(crate::specs::Parts::border))]
fn read_border(reader: &mut Reader<'_>, nodes: usize, chains: usize) -> Result<Token, DecodeError>
    ensures { Reads result reader.new (read (border nodes chains) reader.old) }
{
    let spot = read_spot(reader, nodes, chains)?;
    let widths = read_border_widths(reader, spot.rect)?;
    let top = reader.colour()?;
    let right = reader.colour()?;
    let bottom = reader.colour()?;
    let left = reader.colour()?;
    let radii = read_corner_radii(reader, spot.rect)?;
    Ok(Token::Border {
        spot,
        widths,
        top,
        right,
        bottom,
        left,
        radii,
    })
}

fn read_glyphs(
    reader: &mut Reader<'_>,
    alloc: Global,
    count: u16,
) -> Result<Sequence<GlyphAt>, DecodeError>
    ensures { Reads result reader.new (read (times count glyph) reader.old) }
{
    let mut found = Sequence::new(alloc);
    for _ in 0..count {
        found.push(read_glyph(reader)?)?;
    }
    Ok(found)
}

#[tactic(auto, unfolding(crate::specs::Parts::text))]
fn read_text(
    reader: &mut Reader<'_>,
    alloc: Global,
    nodes: usize,
    chains: usize,
) -> Result<Token, DecodeError>
    ensures { Reads result reader.new (read (text nodes chains) reader.old) }
{
    let spot = read_spot(reader, nodes, chains)?;
    let font = reader.u16()?;
    let colour = reader.colour()?;
    let count = reader.u16()?;
    let glyphs = read_glyphs(reader, alloc, count)?;
    Ok(Token::Text {
        spot,
        font,
        colour,
        glyphs,
    })
}

#[tactic(auto, unfolding(crate::specs::Parts::blend_mode), using(crate::proofs::Modes::mode_of_number))]
fn read_blend_mode(reader: &mut Reader<'_>) -> Result<Mode, DecodeError>
    ensures { Reads result reader.new (read blend_mode reader.old) }
{
    let at = reader.at();
    let n = reader.byte()?;
    match Mode::from_byte(n) {
        Some(mode) => Ok(mode),
        None => Err(fault(Code::BadMode, at)),
    }
}

#[tactic(auto, unfolding(crate::specs::Parts::push_fields))]
fn read_push_fields(
    reader: &mut Reader<'_>,
    nodes: usize,
    chains: usize,
) -> Result<Push, DecodeError>
    ensures { Reads result reader.new (read (push_fields nodes chains) reader.old) }
{
    let node = reader.reference(nodes)?;
    let chain = reader.optional_reference(chains)?;
    let opacity = reader.byte()?;
    let prop = reader.optional_number()?;
    let mode = read_blend_mode(reader)?;
    let isolate = reader.flag()?;
    Ok(Push {
        node,
        chain,
        opacity,
        prop,
        mode,
        isolate,
    })
}

#[tactic(auto, unfolding(crate::specs::Parts::push))]
fn read_push(reader: &mut Reader<'_>, built: &Builder, at: u32) -> Result<Token, DecodeError>
    ensures { Reads result reader.new (read (push built.now at) reader.old) }
{
    if built.depth() >= MAX_CONTEXTS {
        return Err(fault(Code::Limit, at));
    }
    Ok(Token::Push(read_push_fields(reader, built.named_nodes(), built.chains())?))
}

#[tactic(auto, unfolding(crate::specs::Parts::pop))]
fn read_pop(reader: &mut Reader<'_>, depth: usize, at: u32) -> Result<Token, DecodeError>
    ensures { Reads result reader.new (read (pop depth at) reader.old) }
{
    if depth == 0 {
        return Err(fault(Code::Nesting, at));
    }
    Ok(Token::Pop)
}

/// A pipeline that is not below the first that may be named.
#[tactic(auto, unfolding(crate::specs::Parts::pipeline))]
fn read_pipeline(reader: &mut Reader<'_>, min_pipeline: u8) -> Result<u8, DecodeError>
    ensures { Reads result reader.new (read (pipeline min_pipeline) reader.old) }
{
    let at = reader.at();
    let n = reader.byte()?;
    if n > MAX_PIPELINE {
        return Err(fault(Code::BadNumber, at));
    }
    if n < min_pipeline {
        return Err(fault(Code::IframeOrder, at));
    }
    Ok(n)
}

#[tactic(auto, unfolding(crate::specs::Parts::iframe))]
fn read_iframe(
    reader: &mut Reader<'_>,
    min_pipeline: u8,
    nodes: usize,
    chains: usize,
) -> Result<Token, DecodeError>
    ensures { Reads result reader.new (read (iframe min_pipeline nodes chains) reader.old) }
{
    let spot = read_spot(reader, nodes, chains)?;
    let pipeline = read_pipeline(reader, min_pipeline)?;
    Ok(Token::Iframe { spot, pipeline })
}

#[tactic(auto, unfolding(crate::specs::Parts::hit_area))]
fn read_hit_area(reader: &mut Reader<'_>, nodes: usize, chains: usize) -> Result<Token, DecodeError>
    ensures { Reads result reader.new (read (hit_area nodes chains) reader.old) }
{
    let spot = read_spot(reader, nodes, chains)?;
    let tag = reader.u32()?;
    Ok(Token::HitArea { spot, tag })
}

/// An item that draws by itself, by its tag, up to 9.
#[inline(always)]
#[tactic(auto, unfolding(crate::specs::Parts::primitive))]
fn read_primitive(
    reader: &mut Reader<'_>,
    alloc: Global,
    nodes: usize,
    chains: usize,
    tag: u8,
) -> Result<Token, DecodeError>
    ensures { Reads result reader.new (read (primitive nodes chains tag) reader.old) }
{
    match tag {
        SOLID => read_solid(reader, nodes, chains),
        IMAGE => read_image(reader, nodes, chains),
        BORDER => read_border(reader, nodes, chains),
        _ => read_text(reader, alloc, nodes, chains),
    }
}

/// An item by its tag, from 6 on.
#[inline(always)]
#[tactic(auto, unfolding(crate::specs::Parts::item))]
pub(crate) fn read_item(
    reader: &mut Reader<'_>,
    alloc: Global,
    built: &Builder,
    min_pipeline: u8,
    at: u32,
    tag: u8,
) -> Result<Token, DecodeError>
    ensures { Reads result reader.new (read (item min_pipeline built.now at tag) reader.old) }
{
    let nodes = built.named_nodes();
    let chains = built.chains();
    if tag <= TEXT {
        return read_primitive(reader, alloc, nodes, chains, tag);
    }
    match tag {
        PUSH_CONTEXT => read_push(reader, built, at),
        POP_CONTEXT => read_pop(reader, built.depth(), at),
        IFRAME => read_iframe(reader, min_pipeline, nodes, chains),
        HIT_AREA => read_hit_area(reader, nodes, chains),
        _ => Err(fault(Code::BadTag, at)),
    }
}
