//! Images and masks of a scene.

use crate::stage::{Stage, glyph, image, on_a_stage};
use blend_rules::Px;
use scene_state::Scene;

pub const RED: Px = Px {
    b: 0,
    g: 0,
    r: 255,
    a: 255,
};

const BLUE: Px = Px {
    b: 255,
    g: 0,
    r: 0,
    a: 255,
};

/// Adds image 9, one red texel.
pub const ADD_RED: [u8; 13] = [5, 9, 0, 0, 0, 1, 0, 1, 0, 0, 0, 255, 255];

/// Makes it blue.
pub const UPDATE_BLUE: [u8; 17] = [6, 9, 0, 0, 0, 0, 0, 0, 0, 1, 0, 1, 0, 255, 0, 0, 255];

/// Deletes it.
pub const DELETE: [u8; 5] = [7, 9, 0, 0, 0];

/// Whether an image is added to its own pipeline.
fn adds_an_image(stage: &mut Stage) -> Result<bool, (u8, u32)> {
    stage.apply(1, 1, &ADD_RED)?;
    let added = image(&stage.scene, 1, 9) == Some((1, RED));
    Ok(added && image(&stage.scene, 0, 9).is_none() && stage.scene.store().pixels() == 1)
}

#[test]
fn an_image_is_added(rt: HostRuntime) {
    assert!(rt; on_a_stage(rt.alloc(), adds_an_image) == Ok(true));
}

/// Whether it becomes blue, of the next generation.
fn updates_an_image(stage: &mut Stage) -> Result<bool, (u8, u32)> {
    stage.apply(1, 1, &ADD_RED)?;
    stage.apply(1, 1, &UPDATE_BLUE)?;
    Ok(image(&stage.scene, 1, 9) == Some((2, BLUE)))
}

#[test]
fn an_image_is_updated(rt: HostRuntime) {
    assert!(rt; on_a_stage(rt.alloc(), updates_an_image) == Ok(true));
}

/// Whether it goes with its pixels, and the counter stays.
fn deletes_an_image(stage: &mut Stage) -> Result<bool, (u8, u32)> {
    stage.apply(1, 1, &ADD_RED)?;
    stage.apply(1, 1, &DELETE)?;
    let deleted = image(&stage.scene, 1, 9).is_none() && stage.scene.store().pixels() == 0;
    Ok(deleted && stage.gens.last() == 1)
}

#[test]
fn an_image_is_deleted(rt: HostRuntime) {
    assert!(rt; on_a_stage(rt.alloc(), deletes_an_image) == Ok(true));
}

/// Glyph 5 of font 1, of one pixel.
pub const GLYPH: [u8; 10] = [8, 1, 0, 5, 0, 1, 0, 1, 0, 200];

/// Glyph 5 of font 2, of one pixel.
const OTHER_GLYPH: [u8; 10] = [8, 2, 0, 5, 0, 1, 0, 1, 0, 200];

/// Deletes font 1.
const DELETE_FONT: [u8; 3] = [9, 1, 0];

/// Adds glyph 5 of fonts 1 and 2 of pipeline 0, and of font 1 of pipeline 1.
fn add_glyphs(stage: &mut Stage) -> Result<(), (u8, u32)> {
    stage.apply(0, 1, &GLYPH)?;
    stage.apply(0, 1, &OTHER_GLYPH)?;
    stage.apply(1, 1, &GLYPH)
}

/// Whether a font goes with its pixels, and leaves another and the same one of another pipeline.
fn deletes_a_font(stage: &mut Stage) -> Result<bool, (u8, u32)> {
    add_glyphs(stage)?;
    stage.apply(0, 1, &DELETE_FONT)?;
    let deleted = glyph(&stage.scene, 0, 1, 5).is_none() && stage.scene.store().pixels() == 2;
    let left = glyph(&stage.scene, 0, 2, 5) == Some(2);
    Ok(deleted && left && glyph(&stage.scene, 1, 1, 5) == Some(3))
}

#[test]
fn a_deleted_font_leaves_the_others(rt: HostRuntime) {
    assert!(rt; on_a_stage(rt.alloc(), deletes_a_font) == Ok(true));
}

/// The list without items of epoch 7, scroll number 3 at (5, -2), offset property 4 at (6, 0) and opacity
/// property 8 at 9.
const LIST_AND_MOVES: [u8; 38] = [
    1, 7, 0, 0, 0, 1, 0, 0, 0, 0, // SetList
    3, 3, 0, 5, 0, 0, 0, 254, 255, 255, 255, // Scroll
    4, 0, 4, 0, 6, 0, 0, 0, 0, 0, 0, 0, // SetOffset
    4, 1, 8, 0, 9, // SetOpacity
];

/// Gives pipeline 0 a list, positions, an image and a mask.
fn add_all(stage: &mut Stage) -> Result<(), (u8, u32)> {
    stage.apply(0, 4, &LIST_AND_MOVES)?;
    stage.apply(0, 1, &ADD_RED)?;
    stage.apply(0, 1, &GLYPH)
}

/// Whether pipeline 0 has the list and the positions.
fn is_listed(scene: &Scene) -> bool {
    let moves = scene.moves(0);
    if scene.epoch(0) != Some(7) || moves.scroll(3) != Some((5, -2)) {
        return false;
    }
    moves.offset(4) == Some((6, 0)) && moves.opacity(8) == Some(9)
}

/// Whether it has the image and the mask.
fn is_stored(scene: &Scene) -> bool {
    image(scene, 0, 9) == Some((1, RED)) && glyph(scene, 0, 1, 5) == Some(2)
}

/// Whether it has all.
fn is_whole(scene: &Scene) -> bool {
    is_listed(scene) && is_stored(scene)
}

/// The operations that change any of it, one of each kind.
const CHANGES: [&[u8]; 10] = [
    &[1, 8, 0, 0, 0, 1, 0, 0, 0, 0], // SetList
    &[2], // RemovePipeline
    &[3, 3, 0, 1, 0, 0, 0, 1, 0, 0, 0], // Scroll
    &[4, 0, 4, 0, 1, 0, 0, 0, 1, 0, 0, 0], // SetOffset
    &[4, 1, 8, 0, 1], // SetOpacity
    &ADD_RED, // AddImage
    &UPDATE_BLUE, // UpdateImage
    &DELETE, // DeleteImage
    &GLYPH, // AddGlyph
    &DELETE_FONT, // DeleteFont
];

/// Whether an operation changes any of it for the next scene, and nothing of this one.
fn changes_the_next(stage: &mut Stage, op: &[u8]) -> Result<bool, (u8, u32)> {
    let after = stage.after(op)?;
    Ok(!is_whole(&after) && is_whole(&stage.scene))
}

/// Whether each operation does.
fn leaves_this_one(stage: &mut Stage) -> Result<bool, (u8, u32)> {
    add_all(stage)?;
    for op in &CHANGES {
        if !changes_the_next(stage, *op)? {
            return Ok(false);
        }
    }
    Ok(true)
}

#[test]
fn the_scene_before_stays(rt: HostRuntime) {
    assert!(rt; on_a_stage(rt.alloc(), leaves_this_one) == Ok(true));
}
