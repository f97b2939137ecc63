//! The bytes of fields that several parts have.

use std::alloc::AllocError;

/// Appends pieces of bytes.
pub(super) fn put(bytes: &mut Vec<u8>, pieces: &[&[u8]]) -> Result<(), AllocError> {
    for piece in pieces {
        bytes.extend_from_slice(piece)?;
    }
    Ok(())
}

/// Appends numbers of two bytes.
pub(super) fn put_u16s(bytes: &mut Vec<u8>, numbers: &[u16]) -> Result<(), AllocError> {
    for number in numbers {
        bytes.extend_from_slice(&number.to_le_bytes())?;
    }
    Ok(())
}

/// Appends colours.
pub(super) fn put_colours(bytes: &mut Vec<u8>, colours: &[[u8; 4]]) -> Result<(), AllocError> {
    for colour in colours {
        bytes.extend_from_slice(colour)?;
    }
    Ok(())
}

/// The edges of a rectangle: x0, y0, x1, y1.
pub(super) fn coordinates(edges: [i32; 4]) -> [u8; 16] {
    let [x0, y0, x1, y1] = edges;
    let [a, b, c, d] = x0.to_le_bytes();
    let [e, f, g, h] = y0.to_le_bytes();
    let [i, j, k, l] = x1.to_le_bytes();
    let [m, n, o, p] = y1.to_le_bytes();
    [a, b, c, d, e, f, g, h, i, j, k, l, m, n, o, p]
}

/// Where an item stands: its node, its chain and its edges.
pub(super) fn place(node: u16, chain: u16, edges: [i32; 4]) -> [u8; 20] {
    let [q, r] = node.to_le_bytes();
    let [s, t] = chain.to_le_bytes();
    let [a, b, c, d, e, f, g, h, i, j, k, l, m, n, o, p] = coordinates(edges);
    [q, r, s, t, a, b, c, d, e, f, g, h, i, j, k, l, m, n, o, p]
}

/// A width and a height.
pub(super) fn sides(sides: [u32; 2]) -> [u8; 8] {
    let [width, height] = sides;
    let [a, b, c, d] = width.to_le_bytes();
    let [e, f, g, h] = height.to_le_bytes();
    [a, b, c, d, e, f, g, h]
}

/// A shift or a position: x and y.
pub(super) fn offset(offset: [i32; 2]) -> [u8; 8] {
    let [x, y] = offset;
    let [a, b, c, d] = x.to_le_bytes();
    let [e, f, g, h] = y.to_le_bytes();
    [a, b, c, d, e, f, g, h]
}
