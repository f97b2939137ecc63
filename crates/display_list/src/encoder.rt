//! A list as bytes.

ghost use Rattle.std.specs.Prelude.{◌≡◌, ◌++◌, ◌<◌, ◌^◌, All, OnOk, IfOk, length};
ghost use Rattle.std.specs.List.{flat_map};
ghost use Rattle.field_forms.specs.Spelling.{u16_bytes};
ghost use Rattle.display_list.specs.Counts.{HasFewClips};
ghost use Rattle.display_list.specs.Grammar.{Spells};
ghost use Rattle.display_list.specs.Spelling.{corner_bytes, radii_bytes, node_bytes, clip_bytes, chain_bytes, spelling};

use crate::item_encoder::put_items;
use crate::tags::{CHAIN, END, RECT_CLIP, REFERENCE_FRAME, ROUND_CLIP, SCROLL_FRAME};
use crate::{ChainDef, ClipDef, List, Node};
use field_forms::{put_flag, put_i32, put_optional, put_rectangle, put_u16, put_u32};
use std::alloc::{AllocError, Global};
use wr_geom::{NoMemory, Radii};

/// The one spelling of a list.
pub fn encode(alloc: Global, list: &List) -> Result<Vec<u8>, NoMemory>
    ensures spelling { IfOk result (λ bytes. bytes.items ≡ spelling list.now) }
    ensures spelled { IfOk result (λ bytes. Spells list.now bytes.items) }
{
    let mut out = Vec::new(alloc);
    put_nodes(&mut out, list.nodes())?;
    put_clips(&mut out, list.clips())?;
    put_chains(&mut out, list.chains())?;
    put_items(&mut out, list.items())?;
    out.push(END)?;
    Ok(out)
}

#[tactic(auto, unfolding(crate::specs::Spelling::corner_bytes))]
fn put_corner(out: &mut Vec<u8>, radii: (u16, u16)) -> Result<(), AllocError>
    ensures { OnOk result (out.new.items ≡ out.old.items ++ corner_bytes radii) }
{
    put_u16(out, radii.0)?;
    put_u16(out, radii.1)
}

#[tactic(auto, unfolding(crate::specs::Spelling::radii_bytes))]
pub(crate) fn put_radii(out: &mut Vec<u8>, radii: Radii) -> Result<(), AllocError>
    ensures { OnOk result (out.new.items ≡ out.old.items ++ radii_bytes radii) }
{
    put_corner(out, radii.tl)?;
    put_corner(out, radii.tr)?;
    put_corner(out, radii.br)?;
    put_corner(out, radii.bl)
}

fn put_node(out: &mut Vec<u8>, node: Node) -> Result<(), AllocError>
    ensures { OnOk result (out.new.items ≡ out.old.items ++ node_bytes node) }
{
    match node {
        Node::Reference { parent, x, y, prop } => {
            out.push(REFERENCE_FRAME)?;
            put_u16(out, parent)?;
            put_i32(out, x)?;
            put_i32(out, y)?;
            put_optional(out, prop)
        }
        Node::Scroll {
            parent,
            sid,
            view_w,
            view_h,
            content_w,
            content_h,
        } => {
            out.push(SCROLL_FRAME)?;
            put_u16(out, parent)?;
            put_u16(out, sid)?;
            put_u32(out, view_w)?;
            put_u32(out, view_h)?;
            put_u32(out, content_w)?;
            put_u32(out, content_h)
        }
    }
}

fn put_clip(out: &mut Vec<u8>, clip: ClipDef) -> Result<(), AllocError>
    ensures { OnOk result (out.new.items ≡ out.old.items ++ clip_bytes clip) }
{
    if !clip.round {
        out.push(RECT_CLIP)?;
        put_u16(out, clip.node)?;
        return put_rectangle(out, clip.rect);
    }
    out.push(ROUND_CLIP)?;
    put_u16(out, clip.node)?;
    put_flag(out, clip.out)?;
    put_rectangle(out, clip.rect)?;
    put_radii(out, clip.radii)
}

fn put_chain(out: &mut Vec<u8>, chain: &ChainDef) -> Result<(), AllocError>
    requires { length chain.now.clips < 256 }
    ensures { OnOk result (out.new.items ≡ out.old.items ++ chain_bytes chain.now) }
{
    out.push(CHAIN)?;
    put_optional(out, chain.parent)?;
    out.push(chain.clips.len() as u8)?;
    put_numbers(out, chain.clips.as_slice())
}

fn put_numbers(out: &mut Vec<u8>, numbers: &[u16]) -> Result<(), AllocError>
    ensures { OnOk result (out.new.items ≡ out.old.items ++ flat_map u16_bytes numbers.now) }
{
    for n in numbers {
        put_u16(out, *n)?;
    }
    Ok(())
}

fn put_nodes(out: &mut Vec<u8>, nodes: &[Node]) -> Result<(), AllocError>
    ensures { OnOk result (out.new.items ≡ out.old.items ++ flat_map node_bytes nodes.now) }
{
    for node in nodes {
        put_node(out, *node)?;
    }
    Ok(())
}

fn put_clips(out: &mut Vec<u8>, clips: &[ClipDef]) -> Result<(), AllocError>
    ensures { OnOk result (out.new.items ≡ out.old.items ++ flat_map clip_bytes clips.now) }
{
    for clip in clips {
        put_clip(out, *clip)?;
    }
    Ok(())
}

fn put_chains(out: &mut Vec<u8>, chains: &[ChainDef]) -> Result<(), AllocError>
    requires { All HasFewClips chains.now }
    ensures { OnOk result (out.new.items ≡ out.old.items ++ flat_map chain_bytes chains.now) }
{
    for chain in chains {
        put_chain(out, chain)?;
    }
    Ok(())
}
