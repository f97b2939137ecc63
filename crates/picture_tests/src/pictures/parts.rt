//! The parts of a display list, and their bytes.

use super::fields::{coordinates, offset, place, put, put_colours, put_u16s, sides};
use std::alloc::AllocError;

/// Blue, green, red and alpha, premultiplied.
pub(super) type Colour = [u8; 4];

/// The edges x0, y0, x1, y1.
pub(super) type Edges = [i32; 4];

/// The root node.
pub(super) const ROOT: u16 = 0;

/// No chain, no parent chain, or no property.
pub(super) const NONE: u16 = 65535;

/// The mode of a rounded clip that keeps its inside.
pub(super) const INSIDE: u8 = 0;

/// The mode of a rounded clip that keeps its outside.
pub(super) const OUTSIDE: u8 = 1;

/// A part of a display list, its fields in the order of the format.
#[derive(Clone, Copy)]
pub(super) enum Part<'a> {
    /// A reference frame: parent, offset, property.
    Reference(u16, [i32; 2], u16),
    /// A scroll frame: parent, scroll number, sides of the viewport, sides of the content.
    Frame(u16, u16, [u32; 2], [u32; 2]),
    /// A rectangle clip: node, edges.
    RectClip(u16, Edges),
    /// A rounded clip: node, mode, edges, radii.
    RoundClip(u16, u8, Edges, [u16; 8]),
    /// A chain: parent chain, clips.
    Chain(u16, &'a [u16]),
    /// A solid: node, chain, edges, colour.
    Solid(u16, u16, Edges, Colour),
    /// An image: node, chain, edges, key, the texel at the first corner.
    Image(u16, u16, Edges, u32, [u16; 2]),
    /// A border: node, chain, edges, widths and colours from the top clockwise, radii.
    Border(u16, u16, Edges, [u16; 4], [Colour; 4], [u16; 8]),
    /// A text: node, chain, edges, font, colour, and each glyph's number and position.
    Text(u16, u16, Edges, u16, Colour, &'a [(u16, [i32; 2])]),
    /// The begin of a context: node, chain, opacity, property, blend mode, flags.
    Push(u16, u16, u8, u16, u8, u8),
    /// The end of a context.
    Pop,
    /// An Iframe: node, chain, edges, pipeline.
    Iframe(u16, u16, Edges, u8),
    /// A hit area: node, chain, edges, tag.
    HitArea(u16, u16, Edges, u32),
    /// Bytes as they are.
    Bytes(&'a [u8]),
}

/// Appends a part's bytes.
pub(super) fn put_part(bytes: &mut Vec<u8>, part: Part<'_>) -> Result<(), AllocError> {
    match part {
        Part::Reference(..) | Part::Frame(..) => put_node(bytes, part),
        Part::RectClip(..) | Part::RoundClip(..) | Part::Chain(..) => put_clip(bytes, part),
        Part::Solid(..) | Part::Image(..) | Part::Border(..) | Part::Text(..) => {
            put_shape(bytes, part)
        }
        _ => put_context(bytes, part),
    }
}

/// Appends a node's bytes.
fn put_node(bytes: &mut Vec<u8>, part: Part<'_>) -> Result<(), AllocError> {
    match part {
        Part::Reference(parent, moved, property) => {
            let (parent, property) = (parent.to_le_bytes(), property.to_le_bytes());
            put(bytes, &[&[1], &parent, &offset(moved), &property])
        }
        Part::Frame(parent, number, viewport, content) => {
            let (parent, number) = (parent.to_le_bytes(), number.to_le_bytes());
            let (viewport, content) = (sides(viewport), sides(content));
            put(bytes, &[&[2], &parent, &number, &viewport, &content])
        }
        _ => Ok(()),
    }
}

/// Appends the bytes of a clip or a chain.
fn put_clip(bytes: &mut Vec<u8>, part: Part<'_>) -> Result<(), AllocError> {
    match part {
        Part::RectClip(node, edges) => {
            put(bytes, &[&[3], &node.to_le_bytes(), &coordinates(edges)])
        }
        Part::RoundClip(node, mode, edges, radii) => {
            put(
                bytes,
                &[&[4], &node.to_le_bytes(), &[mode], &coordinates(edges)],
            )?;
            put_u16s(bytes, &radii)
        }
        Part::Chain(parent, clips) => {
            let count = u8::try_from(clips.len()).unwrap_or(255);
            put(bytes, &[&[5], &parent.to_le_bytes(), &[count]])?;
            put_u16s(bytes, clips)
        }
        _ => Ok(()),
    }
}

/// Appends the bytes of a solid, an image, a border or a text.
fn put_shape(bytes: &mut Vec<u8>, part: Part<'_>) -> Result<(), AllocError> {
    match part {
        Part::Solid(node, chain, edges, colour) => {
            put(bytes, &[&[6], &place(node, chain, edges), &colour])
        }
        Part::Image(node, chain, edges, key, texel) => {
            put(
                bytes,
                &[&[7], &place(node, chain, edges), &key.to_le_bytes()],
            )?;
            put_u16s(bytes, &texel)
        }
        Part::Border(node, chain, edges, widths, colours, radii) => {
            put(bytes, &[&[8], &place(node, chain, edges)])?;
            put_border(bytes, widths, colours, radii)
        }
        Part::Text(node, chain, edges, font, colour, glyphs) => {
            let place = place(node, chain, edges);
            put(bytes, &[&[9], &place, &font.to_le_bytes(), &colour])?;
            put_glyphs(bytes, glyphs)
        }
        _ => Ok(()),
    }
}

/// Appends a border's widths, colours and radii.
fn put_border(
    bytes: &mut Vec<u8>,
    widths: [u16; 4],
    colours: [Colour; 4],
    radii: [u16; 8],
) -> Result<(), AllocError> {
    put_u16s(bytes, &widths)?;
    put_colours(bytes, &colours)?;
    put_u16s(bytes, &radii)
}

/// Appends the count of glyphs, and each glyph's number and position.
fn put_glyphs(bytes: &mut Vec<u8>, glyphs: &[(u16, [i32; 2])]) -> Result<(), AllocError> {
    let count = u16::try_from(glyphs.len()).unwrap_or(65535);
    bytes.extend_from_slice(&count.to_le_bytes())?;
    for (number, position) in glyphs {
        put(bytes, &[&number.to_le_bytes(), &offset(*position)])?;
    }
    Ok(())
}

/// Appends the bytes of a context's begin or end, an Iframe, a hit area, or bytes as they are.
fn put_context(bytes: &mut Vec<u8>, part: Part<'_>) -> Result<(), AllocError> {
    match part {
        Part::Push(node, chain, opacity, property, mode, flags) => {
            let (node, chain) = (node.to_le_bytes(), chain.to_le_bytes());
            let property = property.to_le_bytes();
            put(
                bytes,
                &[&[10], &node, &chain, &[opacity], &property, &[mode, flags]],
            )
        }
        Part::Pop => Ok(bytes.push(11)?),
        Part::Iframe(node, chain, edges, pipeline) => {
            put(bytes, &[&[12], &place(node, chain, edges), &[pipeline]])
        }
        Part::HitArea(node, chain, edges, tag) => {
            put(
                bytes,
                &[&[13], &place(node, chain, edges), &tag.to_le_bytes()],
            )
        }
        Part::Bytes(given) => bytes.extend_from_slice(given),
        _ => Ok(()),
    }
}
