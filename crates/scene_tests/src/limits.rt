//! Limits of the whole scene, which are broken at the end of a payload.

use crate::stage::{NO_FAULT, Stage, on_a_stage, payload};
use std::alloc::{AllocError, Global};

/// A context of mode 0, and its end.
const PUSH: [u8; 10] = [10, 0, 0, 255, 255, 255, 255, 255, 0, 0];

const POP: [u8; 1] = [11];

/// An Iframe of pipeline 1.
const IFRAME: [u8; 22] = [
    12, 0, 0, 255, 255, 1, 0, 0, 0, 1, 0, 0, 0, 3, 0, 0, 0, 3, 0, 0, 0, 1,
];

/// Bytes so many times, as part of others.
fn add(out: &mut Vec<u8>, part: &[u8], times: u8) -> Result<(), AllocError> {
    for _ in 0..times {
        out.extend_from_slice(part)?;
    }
    Ok(())
}

/// The bytes of items in so many contexts.
fn in_contexts(alloc: Global, contexts: u8, items: &[u8]) -> Result<Vec<u8>, AllocError> {
    let mut out = Vec::new(alloc);
    add(&mut out, &PUSH, contexts)?;
    out.extend_from_slice(items)?;
    add(&mut out, &POP, contexts)?;
    Ok(out)
}

/// The operation that sets a list of these bytes and an end.
fn set_list(alloc: Global, items: &[u8]) -> Result<Vec<u8>, AllocError> {
    let len = u32::try_from(items.len()).unwrap_or(0).wrapping_add(1);
    let mut out = Vec::new(alloc);
    out.extend_from_slice(&[1, 0, 0, 0, 0])?;
    out.extend_from_slice(&len.to_le_bytes())?;
    out.extend_from_slice(items)?;
    out.push(0)?;
    Ok(out)
}

/// Sets a list of these items.
fn apply_list(stage: &mut Stage, pipeline: u8, items: &[u8]) -> Result<(), (u8, u32)> {
    match set_list(stage.alloc, items) {
        Ok(op) => stage.apply(pipeline, 1, op.as_slice()),
        Err(_) => Err(NO_FAULT),
    }
}

/// Sets a list of these items in so many contexts.
fn apply_contexts(
    stage: &mut Stage,
    pipeline: u8,
    contexts: u8,
    items: &[u8],
) -> Result<(), (u8, u32)> {
    match in_contexts(stage.alloc, contexts, items) {
        Ok(bytes) => apply_list(stage, pipeline, bytes.as_slice()),
        Err(_) => Err(NO_FAULT),
    }
}

/// Whether 33 contexts around an Iframe leave room for 31, and not for 32.
fn nests_through_iframes(stage: &mut Stage) -> Result<bool, (u8, u32)> {
    apply_contexts(stage, 0, 33, &IFRAME)?;
    let refused = apply_contexts(stage, 1, 32, &[]) == Err((16, 366));
    let undrawn = !stage.scene.is_drawn(1);
    apply_contexts(stage, 1, 31, &[])?;
    Ok(refused && undrawn && stage.scene.is_drawn(1))
}

#[test]
fn contexts_go_through_iframes(rt: HostRuntime) {
    assert!(rt; on_a_stage(rt.alloc(), nests_through_iframes) == Ok(true));
}

/// Two nodes, each 2^20 pixels to the right of its parent.
const NODES: [u8; 26] = [
    1, 0, 0, 0, 0, 16, 0, 0, 0, 0, 0, 255, 255, 1, 1, 0, 0, 0, 16, 0, 0, 0, 0, 0, 255, 255,
];

/// An Iframe 2^20 pixels to the right of the second node, without the pipeline that it names.
const STEP: [u8; 21] = [
    12, 2, 0, 255, 255, 0, 0, 16, 0, 0, 0, 0, 0, 0, 0, 16, 0, 0, 0, 0, 0,
];

/// A list that puts a pipeline 3 * 2^20 pixels to the right.
fn stair(alloc: Global, shown: u8) -> Result<Vec<u8>, AllocError> {
    let mut out = Vec::new(alloc);
    out.extend_from_slice(&NODES)?;
    out.extend_from_slice(&STEP)?;
    out.push(shown)?;
    Ok(out)
}

/// Sets that list.
fn apply_stair(stage: &mut Stage, pipeline: u8, shown: u8) -> Result<(), (u8, u32)> {
    match stair(stage.alloc, shown) {
        Ok(bytes) => apply_list(stage, pipeline, bytes.as_slice()),
        Err(_) => Err(NO_FAULT),
    }
}

/// Pipelines 0 to 42, each of which puts the next one farther right: the last beyond 2^27.
fn stairs(stage: &mut Stage) -> Result<(), (u8, u32)> {
    for pipeline in 0..43u8 {
        apply_stair(stage, pipeline, pipeline + 1)?;
    }
    Ok(())
}

/// Whether an Iframe may stand so far out that the pipeline it names can have no list.
fn stands_far_out(stage: &mut Stage) -> Result<bool, (u8, u32)> {
    stairs(stage)?;
    let drawn = stage.scene.is_drawn(42);
    let refused = apply_list(stage, 43, &[]) == Err((16, 14));
    Ok(drawn && refused && stage.scene.list(43).is_none())
}

#[test]
fn an_iframe_far_out(rt: HostRuntime) {
    assert!(rt; on_a_stage(rt.alloc(), stands_far_out) == Ok(true));
}

/// A payload with a mask of so many pixels a side.
fn mask(alloc: Global, glyph: u8, side: u16) -> Result<Vec<u8>, AllocError> {
    let mut out = payload(alloc, 0, 1, &[8, 1, 0, glyph, 0])?;
    out.extend_from_slice(&side.to_le_bytes())?;
    out.extend_from_slice(&side.to_le_bytes())?;
    let pixels = usize::from(side) * usize::from(side);
    out.resize(out.len().saturating_add(pixels), 200)?;
    Ok(out)
}

/// Stores such a mask.
fn apply_mask(stage: &mut Stage, glyph: u8, side: u16) -> Result<(), (u8, u32)> {
    match mask(stage.alloc, glyph, side) {
        Ok(payload) => stage.apply_payload(payload.as_slice()),
        Err(_) => Err(NO_FAULT),
    }
}

/// Stores masks of 4,096 by 4,096 pixels, a quarter of what may be stored, as the glyphs 0 to 3.
fn fill(stage: &mut Stage) -> Result<(), (u8, u32)> {
    for glyph in 0..4u8 {
        apply_mask(stage, glyph, 4_096)?;
    }
    Ok(())
}

/// Whether 2^26 pixels may be stored, and one more is refused.
fn stores_as_many(stage: &mut Stage) -> Result<bool, (u8, u32)> {
    fill(stage)?;
    let full = stage.scene.store().pixels() == 1 << 26;
    let refused = apply_mask(stage, 4, 1) == Err((17, 14));
    Ok(full && refused && stage.scene.store().pixels() == 1 << 26 && stage.gens.last() == 4)
}

#[test]
fn stored_pixels_have_a_limit(rt: HostRuntime) {
    assert!(rt; on_a_stage(rt.alloc(), stores_as_many) == Ok(true));
}
