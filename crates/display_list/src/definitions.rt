//! The definitions of a list: nodes, clips and chains.

ghost use Rattle.std.specs.Prelude.{◌≡◌, ◌≤◌, length, IfOk};
ghost use Rattle.field_forms.specs.Form.{read};
ghost use Rattle.field_forms.specs.Outcome.{Reads};
ghost use Rattle.field_forms.specs.Fields.{times, reference};
ghost use Rattle.display_list.specs.Parts.{parent_node, reference_frame, scroll_number, scroll_frame, rect_clip, round_clip, clip_count, chain, node_part, clip_part, chain_part, definition};

use crate::builder::Builder;
use crate::fields::{read_corner_radii, read_scroll_side};
use crate::limits::{MAX_CHAIN_CLIPS, MAX_DEFINITIONS, MAX_LEVEL};
use crate::tags::{RECT_CLIP, REFERENCE_FRAME, ROUND_CLIP, SCROLL_FRAME};
use crate::token::Part;
use crate::{ChainDef, ClipDef, Node};
use containers::Sequence;
use field_forms::{Reader, fault};
use std::alloc::Global;
use wr_geom::Radii;
use wr_io::{Code, DecodeError};

#[tactic(auto, unfolding(crate::specs::Parts::parent_node))]
fn read_parent_node(reader: &mut Reader<'_>, built: &Builder) -> Result<u16, DecodeError>
    ensures { Reads result reader.new (read (parent_node built.now) reader.old) }
{
    let at = reader.at();
    let n = reader.reference(built.named_nodes())?;
    if built.level(n) >= MAX_LEVEL {
        return Err(fault(Code::Limit, at));
    }
    Ok(n)
}

#[tactic(auto, unfolding(crate::specs::Parts::reference_frame))]
fn read_reference_frame(reader: &mut Reader<'_>, built: &Builder) -> Result<Node, DecodeError>
    ensures { Reads result reader.new (read (reference_frame built.now) reader.old) }
{
    let parent = read_parent_node(reader, built)?;
    let x = reader.coordinate()?;
    let y = reader.coordinate()?;
    let prop = reader.optional_number()?;
    Ok(Node::Reference { parent, x, y, prop })
}

#[tactic(auto, unfolding(crate::specs::Parts::scroll_number))]
fn read_scroll_number(reader: &mut Reader<'_>, built: &Builder) -> Result<u16, DecodeError>
    ensures { Reads result reader.new (read (scroll_number built.now) reader.old) }
{
    let at = reader.at();
    let sid = reader.u16()?;
    if built.has_scroll(sid) {
        return Err(fault(Code::BadRef, at));
    }
    Ok(sid)
}

#[tactic(auto, unfolding(crate::specs::Parts::scroll_frame))]
fn read_scroll_frame(reader: &mut Reader<'_>, built: &Builder) -> Result<Node, DecodeError>
    ensures { Reads result reader.new (read (scroll_frame built.now) reader.old) }
{
    let parent = read_parent_node(reader, built)?;
    let sid = read_scroll_number(reader, built)?;
    let view_w = read_scroll_side(reader)?;
    let view_h = read_scroll_side(reader)?;
    let content_w = read_scroll_side(reader)?;
    let content_h = read_scroll_side(reader)?;
    Ok(Node::Scroll {
        parent,
        sid,
        view_w,
        view_h,
        content_w,
        content_h,
    })
}

#[tactic(auto, unfolding(crate::specs::Parts::rect_clip))]
fn read_rect_clip(reader: &mut Reader<'_>, built: &Builder) -> Result<ClipDef, DecodeError>
    ensures { Reads result reader.new (read (rect_clip built.now) reader.old) }
{
    let node = reader.reference(built.named_nodes())?;
    let rect = reader.rectangle()?;
    Ok(ClipDef {
        node,
        out: false,
        round: false,
        rect,
        radii: Radii::SQUARE,
    })
}

#[tactic(auto, unfolding(crate::specs::Parts::round_clip))]
fn read_round_clip(reader: &mut Reader<'_>, built: &Builder) -> Result<ClipDef, DecodeError>
    ensures { Reads result reader.new (read (round_clip built.now) reader.old) }
{
    let node = reader.reference(built.named_nodes())?;
    let out = reader.flag()?;
    let rect = reader.rectangle()?;
    let radii = read_corner_radii(reader, rect)?;
    Ok(ClipDef {
        node,
        out,
        round: true,
        rect,
        radii,
    })
}

/// How many clips a chain has of its own, beside those of its parents.
#[tactic(auto, unfolding(crate::specs::Parts::clip_count))]
fn read_clip_count(reader: &mut Reader<'_>, inherited: u8) -> Result<u8, DecodeError>
    ensures { Reads result reader.new (read (clip_count inherited) reader.old) }
{
    let at = reader.at();
    let count = reader.byte()?;
    if inherited as u16 + count as u16 > MAX_CHAIN_CLIPS {
        return Err(fault(Code::Limit, at));
    }
    Ok(count)
}

fn read_clip_references(
    reader: &mut Reader<'_>,
    alloc: Global,
    count: u8,
    clips: usize,
) -> Result<Sequence<u16>, DecodeError>
    ensures { Reads result reader.new (read (times count (reference clips)) reader.old) }
{
    let mut found = Sequence::new(alloc);
    for _ in 0..count {
        found.push(reader.reference(clips)?)?;
    }
    Ok(found)
}

#[tactic(auto, unfolding(crate::specs::Parts::chain))]
fn read_chain(
    reader: &mut Reader<'_>,
    alloc: Global,
    built: &Builder,
) -> Result<ChainDef, DecodeError>
    ensures { Reads result reader.new (read (chain built.now) reader.old) }
{
    let parent = reader.optional_reference(built.totals())?;
    let count = read_clip_count(reader, built.inherited(parent))?;
    let clips = read_clip_references(reader, alloc, count, built.clips())?;
    Ok(ChainDef { parent, clips })
}

#[tactic(auto, unfolding(crate::specs::Parts::node_part))]
fn read_node_part(
    reader: &mut Reader<'_>,
    built: &Builder,
    at: u32,
    tag: u8,
) -> Result<Node, DecodeError>
    ensures { Reads result reader.new (read (node_part built.now at tag) reader.old) }
{
    if !built.takes_nodes() {
        return Err(fault(Code::BadTag, at));
    }
    if built.nodes() >= MAX_DEFINITIONS {
        return Err(fault(Code::Limit, at));
    }
    if tag == REFERENCE_FRAME {
        read_reference_frame(reader, built)
    } else {
        read_scroll_frame(reader, built)
    }
}

#[tactic(auto, unfolding(crate::specs::Parts::clip_part))]
fn read_clip_part(
    reader: &mut Reader<'_>,
    built: &Builder,
    at: u32,
    tag: u8,
) -> Result<ClipDef, DecodeError>
    ensures { Reads result reader.new (read (clip_part built.now at tag) reader.old) }
{
    if !built.takes_clips() {
        return Err(fault(Code::BadTag, at));
    }
    if built.clips() >= MAX_DEFINITIONS {
        return Err(fault(Code::Limit, at));
    }
    if tag == RECT_CLIP {
        read_rect_clip(reader, built)
    } else {
        read_round_clip(reader, built)
    }
}

#[tactic(auto, unfolding(crate::specs::Parts::chain_part))]
fn read_chain_part(
    reader: &mut Reader<'_>,
    alloc: Global,
    built: &Builder,
    at: u32,
) -> Result<ChainDef, DecodeError>
    ensures { Reads result reader.new (read (chain_part built.now at) reader.old) }
{
    if !built.takes_chains() {
        return Err(fault(Code::BadTag, at));
    }
    if built.chains() >= MAX_DEFINITIONS {
        return Err(fault(Code::Limit, at));
    }
    read_chain(reader, alloc, built)
}

/// A definition by its tag, 1 to 5.
#[tactic(auto, unfolding(crate::specs::Parts::definition))]
pub(crate) fn read_definition(
    reader: &mut Reader<'_>,
    alloc: Global,
    built: &Builder,
    at: u32,
    tag: u8,
) -> Result<Part, DecodeError>
    ensures { Reads result reader.new (read (definition built.now at tag) reader.old) }
{
    if tag <= SCROLL_FRAME {
        return Ok(Part::Node(read_node_part(reader, built, at, tag)?));
    }
    if tag <= ROUND_CLIP {
        return Ok(Part::Clip(read_clip_part(reader, built, at, tag)?));
    }
    Ok(Part::Chain(read_chain_part(reader, alloc, built, at)?))
}
