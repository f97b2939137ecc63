//! The payloads of the measured scenes.

use std::alloc::{AllocError, Global};

/// A payload that begins with so many operations of a pipeline.
fn header(alloc: Global, pipeline: u8, count: u16) -> Result<Vec<u8>, AllocError> {
    let mut out = Vec::new(alloc);
    out.extend_from_slice(&[pipeline, 0])?;
    out.extend_from_slice(&count.to_le_bytes())?;
    Ok(out)
}

/// Stores so many positions, by scroll numbers from a first one on.
pub fn scrolls(alloc: Global, pipeline: u8, first: u16, count: u16) -> Result<Vec<u8>, AllocError> {
    let mut out = header(alloc, pipeline, count)?;
    for k in 0..count {
        out.push(3)?;
        out.extend_from_slice(&first.wrapping_add(k).to_le_bytes())?;
        out.extend_from_slice(&[1, 0, 0, 0, 2, 0, 0, 0])?;
    }
    Ok(out)
}

/// The bytes of a list: what comes first, so many items of the same bytes, what comes last, and the end.
fn items(
    alloc: Global,
    first: &[u8],
    item: &[u8],
    count: u16,
    last: &[u8],
) -> Result<Vec<u8>, AllocError> {
    let mut out = Vec::from_slice(alloc, first)?;
    for _ in 0..count {
        out.extend_from_slice(item)?;
    }
    out.extend_from_slice(last)?;
    out.push(0)?;
    Ok(out)
}

/// Sets a list of a pipeline.
fn set_list(alloc: Global, pipeline: u8, list: &[u8]) -> Result<Vec<u8>, AllocError> {
    let mut out = header(alloc, pipeline, 1)?;
    out.extend_from_slice(&[1, 1, 0, 0, 0])?;
    out.extend_from_slice(&u32::try_from(list.len()).unwrap_or(0).to_le_bytes())?;
    out.extend_from_slice(list)?;
    Ok(out)
}

/// Sets a list of so many items of the same bytes.
pub fn list(alloc: Global, pipeline: u8, item: &[u8], count: u16) -> Result<Vec<u8>, AllocError> {
    let items = items(alloc, &[], item, count, &[])?;
    set_list(alloc, pipeline, items.as_slice())
}

/// Sets a list of so many Solids, and behind them an Iframe of the next pipeline.
pub fn solids_and_iframe(alloc: Global, pipeline: u8, count: u16) -> Result<Vec<u8>, AllocError> {
    let last = iframe(pipeline.saturating_add(1));
    let items = items(alloc, &[], &SOLID, count, &last)?;
    set_list(alloc, pipeline, items.as_slice())
}

/// Sets the root's list: a chain of eight clips, and so many Solids that it clips.
pub fn clipped_solids(alloc: Global, count: u16) -> Result<Vec<u8>, AllocError> {
    let mut definitions = Vec::new(alloc);
    for _ in 0..8 {
        definitions.extend_from_slice(&CLIP)?;
    }
    definitions.extend_from_slice(&CHAIN)?;
    let items = items(alloc, definitions.as_slice(), &CLIPPED_SOLID, count, &[])?;
    set_list(alloc, 0, items.as_slice())
}

/// An opaque Solid of four pixels.
pub const SOLID: [u8; 25] = [
    6, 0, 0, 255, 255, 0, 0, 0, 0, 0, 0, 0, 0, 2, 0, 0, 0, 2, 0, 0, 0, 9, 9, 9, 255,
];

/// The same, clipped by the first chain.
const CLIPPED_SOLID: [u8; 25] = [
    6, 0, 0, 0, 0, 0, 0, 0, 0, 0, 0, 0, 0, 2, 0, 0, 0, 2, 0, 0, 0, 9, 9, 9, 255,
];

/// A rectangle clip of four pixels.
const CLIP: [u8; 19] = [3, 0, 0, 0, 0, 0, 0, 0, 0, 0, 0, 2, 0, 0, 0, 2, 0, 0, 0];

/// A chain of the first eight clips.
const CHAIN: [u8; 20] = [
    5, 255, 255, 8, 0, 0, 1, 0, 2, 0, 3, 0, 4, 0, 5, 0, 6, 0, 7, 0,
];

/// An Iframe of a pipeline.
pub fn iframe(pipeline: u8) -> [u8; 22] {
    [
        12, 0, 0, 255, 255, 0, 0, 0, 0, 0, 0, 0, 0, 2, 0, 0, 0, 2, 0, 0, 0, pipeline,
    ]
}
