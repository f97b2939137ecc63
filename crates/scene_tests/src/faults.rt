//! Operations that are refused, at their positions in a payload.

use crate::stage::{NO_FAULT, Stage, image, on_a_stage};
use crate::stored::{ADD_RED, DELETE, GLYPH, RED, UPDATE_BLUE};
use image_store::Gens;

/// Deletes image 9 twice.
const DELETE_TWICE: [u8; 10] = [7, 9, 0, 0, 0, 7, 9, 0, 0, 0];

/// Whether image 9 of pipeline 0 is as it was added first, and the counter as then.
fn is_red(stage: &Stage) -> bool {
    image(&stage.scene, 0, 9) == Some((1, RED)) && stage.gens.last() == 1
}

/// Whether the second is refused, and the first with it.
fn deletes_once(stage: &mut Stage) -> Result<bool, (u8, u32)> {
    stage.apply(0, 1, &ADD_RED)?;
    let refused = stage.apply(0, 2, &DELETE_TWICE) == Err((10, 10));
    Ok(refused && is_red(stage))
}

#[test]
fn an_image_is_deleted_once(rt: HostRuntime) {
    assert!(rt; on_a_stage(rt.alloc(), deletes_once) == Ok(true));
}

/// Whether an image that is absent is neither deleted nor updated.
fn refuses_the_absent(stage: &mut Stage) -> Result<bool, (u8, u32)> {
    let refused = stage.apply(0, 1, &DELETE) == Err((10, 5));
    Ok(refused && stage.apply(0, 1, &UPDATE_BLUE) == Err((10, 5)))
}

#[test]
fn an_absent_image_is_not_changed(rt: HostRuntime) {
    assert!(rt; on_a_stage(rt.alloc(), refuses_the_absent) == Ok(true));
}

/// An update to blue, and then a list that begins with a context of mode 9.
const UPDATE_AND_BAD_LIST: [u8; 37] = [
    6, 9, 0, 0, 0, 0, 0, 0, 0, 1, 0, 1, 0, 255, 0, 0, 255, // UpdateImage
    1, 0, 0, 0, 0, 11, 0, 0, 0, // SetList
    10, 0, 0, 255, 255, 255, 255, 255, 9, 0, // PushContext
    0, // End
];

/// Whether the update is refused with the list.
fn leaves_all(stage: &mut Stage) -> Result<bool, (u8, u32)> {
    stage.apply(0, 1, &ADD_RED)?;
    let refused = stage.apply(0, 2, &UPDATE_AND_BAD_LIST) == Err((7, 38));
    Ok(refused && is_red(stage) && stage.scene.list(0).is_none())
}

#[test]
fn a_refused_transaction_leaves_all(rt: HostRuntime) {
    assert!(rt; on_a_stage(rt.alloc(), leaves_all) == Ok(true));
}

/// Scroll number 3 to (5, 6), and then an image of one red texel under key 8.
const SCROLL_AND_ADD: [u8; 24] = [
    3, 3, 0, 5, 0, 0, 0, 6, 0, 0, 0, // Scroll
    5, 8, 0, 0, 0, 1, 0, 1, 0, 0, 0, 255, 255, // AddImage
];

/// Adds image 9, which takes the counter's last value.
fn add_last(stage: &mut Stage) -> Result<(), (u8, u32)> {
    stage.gens = Gens::at(u64::MAX - 1);
    stage.apply(0, 1, &ADD_RED)
}

/// Whether image 9 is the last one that was added, and nothing is stored beside it.
fn is_last(stage: &Stage) -> bool {
    let counted = stage.gens.last() == u64::MAX
        && image(&stage.scene, 0, 9) == Some((u64::MAX, RED));
    counted && image(&stage.scene, 0, 8).is_none() && stage.scene.moves(0).is_empty()
}

/// Whether an image after the last is refused, with the scroll before it.
fn ends_the_counter(stage: &mut Stage) -> Result<bool, (u8, u32)> {
    add_last(stage)?;
    let refused = stage.apply(0, 2, &SCROLL_AND_ADD) == Err((13, 15));
    Ok(refused && is_last(stage))
}

#[test]
fn the_counter_has_an_end(rt: HostRuntime) {
    assert!(rt; on_a_stage(rt.alloc(), ends_the_counter) == Ok(true));
}

/// Whether an update and a mask after the last are refused.
fn counts_each(stage: &mut Stage) -> Result<bool, (u8, u32)> {
    add_last(stage)?;
    let refused = stage.apply(0, 1, &UPDATE_BLUE) == Err((13, 4));
    Ok(refused && stage.apply(0, 1, &GLYPH) == Err((13, 4)))
}

#[test]
fn updates_and_masks_count_too(rt: HostRuntime) {
    assert!(rt; on_a_stage(rt.alloc(), counts_each) == Ok(true));
}

/// Updates of image 9 and adds that are refused where it has one texel, and their codes and positions.
const REFUSED: [(&[u8], u8, u32); 4] = [
    (&[6, 9, 0, 0, 0, 1, 0, 1, 0, 1, 0, 1, 0, 1, 0, 0, 0], 3, 13),
    (&[6, 9, 0, 0, 0, 0, 0, 1, 0, 1, 0, 1, 0, 1, 0, 0, 0], 3, 15),
    (&[6, 9, 0, 0, 0, 0, 0, 0, 0, 1, 0, 1, 0, 1, 0, 0, 0], 11, 17),
    (&[5, 9, 0, 0, 0, 2, 0, 1, 0, 1, 1, 1, 1, 0, 0, 1, 0], 11, 17),
];

/// Whether each is refused at its field, and nothing changes.
fn names_the_field(stage: &mut Stage) -> Result<bool, (u8, u32)> {
    stage.apply(0, 1, &ADD_RED)?;
    for (ops, code, at) in &REFUSED {
        if stage.apply(0, 1, *ops) != Err((*code, *at)) {
            return Ok(false);
        }
    }
    Ok(is_red(stage))
}

#[test]
fn a_refusal_names_its_field(rt: HostRuntime) {
    assert!(rt; on_a_stage(rt.alloc(), names_the_field) == Ok(true));
}

/// Tiles dropped by pipeline 1, a list of an undefined tag, and one before an operation of another.
const DROP_TILES: [u8; 1] = [12];

const BAD_LIST: [u8; 10] = [1, 0, 0, 0, 0, 1, 0, 0, 0, 99];

const TWO_FAULTS: [u8; 11] = [1, 0, 0, 0, 0, 1, 0, 0, 0, 99, 99];

/// Whether a fault after a list comes before one within it.
fn reads_before_lists(stage: &mut Stage) -> Result<bool, (u8, u32)> {
    let not_root = stage.apply(1, 1, &DROP_TILES) == Err((9, 4));
    let first = stage.apply(0, 2, &TWO_FAULTS) == Err((1, 14));
    Ok(not_root && first && stage.apply(0, 1, &BAD_LIST) == Err((1, 13)))
}

#[test]
fn the_payload_is_read_before_its_lists(rt: HostRuntime) {
    assert!(rt; on_a_stage(rt.alloc(), reads_before_lists) == Ok(true));
}

/// Whether nothing was added or stored.
fn is_untouched(stage: &Stage) -> bool {
    let absent = image(&stage.scene, 0, 8).is_none();
    absent && stage.gens.last() == 0 && stage.scene.moves(0).is_empty()
}

/// Whether an image was added, or memory ran out and nothing has changed.
fn adds_or_stays(stage: &mut Stage) -> Result<bool, (u8, u32)> {
    match stage.apply(0, 2, &SCROLL_AND_ADD) {
        Ok(()) => Ok(image(&stage.scene, 0, 8) == Some((1, RED))),
        Err(error) => Ok(error == NO_FAULT && is_untouched(stage)),
    }
}

#[test]
fn without_memory_nothing_changes(rt: HostRuntime) {
    assert!(rt; on_a_stage(rt.alloc(), adds_or_stays) == Ok(true));
}
