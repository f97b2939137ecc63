//! The bytes of operations, their fields in the order of the format.

use super::fields::{offset, put, put_colours, put_u16s};
use super::parts::{Colour, Part, put_part};
use std::alloc::{AllocError, Global};
use std::test::Fail;

/// Removes the pipeline.
pub(super) const REMOVE: [u8; 1] = [2];

/// Drops all tiles.
pub(super) const DROP_TILES: [u8; 1] = [12];

/// Sets a list of these parts with an epoch. The End is added.
pub(super) fn list(alloc: Global, epoch: u32, parts: &[Part<'_>]) -> Result<Vec<u8>, Fail> {
    let mut items = Vec::new(alloc);
    for part in parts {
        put_part(&mut items, *part)?;
    }
    items.push(0)?;
    let size = u32::try_from(items.len()).ok().ok_or("the list is short")?;
    let mut bytes = Vec::new(alloc);
    put(
        &mut bytes,
        &[&[1], &epoch.to_le_bytes(), &size.to_le_bytes(), &items],
    )?;
    Ok(bytes)
}

/// Scrolls the frame of a number to a position.
pub(super) fn scroll(number: u16, position: [i32; 2]) -> [u8; 11] {
    let [i, j] = number.to_le_bytes();
    let [a, b, c, d, e, f, g, h] = offset(position);
    [3, i, j, a, b, c, d, e, f, g, h]
}

/// Sets the offset of a property's number.
pub(super) fn shift(number: u16, moved: [i32; 2]) -> [u8; 12] {
    let [i, j] = number.to_le_bytes();
    let [a, b, c, d, e, f, g, h] = offset(moved);
    [4, 0, i, j, a, b, c, d, e, f, g, h]
}

/// Sets the opacity of a property's number.
pub(super) fn opacity(number: u16, opacity: u8) -> [u8; 5] {
    let [i, j] = number.to_le_bytes();
    [4, 1, i, j, opacity]
}

/// Adds an image of these sides.
pub(super) fn add_image(
    alloc: Global,
    key: u8,
    sides: [u16; 2],
    texels: &[Colour],
) -> Result<Vec<u8>, AllocError> {
    let mut bytes = [5, key, 0, 0, 0].to_vec(alloc)?;
    put_u16s(&mut bytes, &sides)?;
    put_colours(&mut bytes, texels)?;
    Ok(bytes)
}

/// Updates a part of an image: its first corner and its sides.
pub(super) fn update_image(
    alloc: Global,
    key: u8,
    part: [u16; 4],
    texels: &[Colour],
) -> Result<Vec<u8>, AllocError> {
    let mut bytes = [6, key, 0, 0, 0].to_vec(alloc)?;
    put_u16s(&mut bytes, &part)?;
    put_colours(&mut bytes, texels)?;
    Ok(bytes)
}

/// Deletes an image.
pub(super) fn delete_image(key: u8) -> [u8; 5] {
    [7, key, 0, 0, 0]
}

/// Adds a glyph of font 1 with a mask of these sides.
pub(super) fn add_glyph(
    alloc: Global,
    glyph: u8,
    sides: [u16; 2],
    mask: &[u8],
) -> Result<Vec<u8>, AllocError> {
    let mut bytes = [8, 1, 0, glyph, 0].to_vec(alloc)?;
    put_u16s(&mut bytes, &sides)?;
    bytes.extend_from_slice(mask)?;
    Ok(bytes)
}

/// Deletes a font.
pub(super) fn delete_font(font: u8) -> [u8; 3] {
    [9, font, 0]
}

/// Sets the view's sides and the colour behind all.
pub(super) fn view(sides: [u16; 2], clear: Colour) -> [u8; 9] {
    let [width, height] = sides;
    let ([a, b], [c, d]) = (width.to_le_bytes(), height.to_le_bytes());
    let [e, f, g, h] = clear;
    [10, a, b, c, d, e, f, g, h]
}

/// Sets the side of tiles, and how many are kept.
pub(super) fn tiles(side: u16, count: u8) -> [u8; 9] {
    let [a, b] = side.to_le_bytes();
    [11, a, b, a, b, count, 0, 0, 0]
}
