//! Refusals: each code with its position.

use super::colours::{BLACK, RED};
use super::expect;
use super::operations::{DROP_TILES, add_image, list, tiles, update_image};
use super::parts::Part::{
    Border, Chain, Frame, HitArea, Iframe, Pop, Push, RectClip, Reference, RoundClip, Solid, Text,
};
use super::parts::{NONE, Part, ROOT};
use super::transactions::Answer::{Accepted, Refused};
use super::transactions::{sent, transaction};
use std::process::Abort;
use std::test::Fail;

/// A list that is a transaction's first operation begins 13 bytes into its payload.
const LIST_AT: u32 = 13;

/// A list of these parts and the End is refused with this code at this byte of it.
fn refuses(
    rt: &(impl Abort + AllocGlobal),
    parts: &[Part<'_>],
    code: u8,
    at: u32,
) -> Result<(), Fail> {
    let list = list(rt.alloc(), 1, parts)?;
    refuses_all(rt, 0, &[&list], code, at.wrapping_add(LIST_AT))
}

/// Operations of a pipeline are refused with this code at this byte of the payload.
fn refuses_all(
    rt: &(impl Abort + AllocGlobal),
    pipeline: u8,
    operations: &[&[u8]],
    code: u8,
    at: u32,
) -> Result<(), Fail> {
    let sent = transaction(rt.alloc(), pipeline, true, operations)?;
    expect(rt, &[&sent], &[Refused(code, at)])
}

/// The edges of a rectangle of four pixels a side.
const FOUR: [i32; 4] = [0, 0, 4, 4];

#[test]
fn tags_that_are_unknown_or_too_late(rt: HostRuntime) -> Result<(), Fail> {
    refuses(&rt, &[Part::Bytes(&[99])], 1, 0)?;
    let clip = RectClip(ROOT, [0, 0, 0, 0]);
    refuses(&rt, &[clip, Reference(ROOT, [0, 0], NONE)], 1, 19)
}

#[test]
fn lists_that_end_too_late_or_too_early(rt: HostRuntime) -> Result<(), Fail> {
    refuses(&rt, &[Part::Bytes(&[0])], 14, 1)?;
    refuses(&rt, &[Part::Bytes(&[0, 6])], 14, 1)?;
    // A list of no byte: its epoch and its length are 0.
    refuses_all(&rt, 0, &[&[1, 0, 0, 0, 0, 0, 0, 0, 0]], 2, LIST_AT)
}

#[test]
fn references_to_nothing(rt: HostRuntime) -> Result<(), Fail> {
    refuses(&rt, &[Chain(NONE, &[0])], 4, 4)?;
    refuses(&rt, &[Chain(0, &[])], 4, 1)?;
    refuses(&rt, &[Reference(1, [0, 0], NONE)], 4, 1)?;
    let frame = Frame(ROOT, 5, [1, 1], [1, 1]);
    refuses(&rt, &[frame, frame], 4, 24)
}

#[test]
fn contexts_that_do_not_nest(rt: HostRuntime) -> Result<(), Fail> {
    refuses(&rt, &[Pop], 5, 0)?;
    refuses(&rt, &[Push(ROOT, NONE, 255, NONE, 0, 0)], 5, 10)
}

#[test]
fn numbers_of_contexts(rt: HostRuntime) -> Result<(), Fail> {
    refuses(&rt, &[Push(ROOT, NONE, 255, NONE, 9, 0)], 7, 8)?;
    refuses(&rt, &[Push(ROOT, NONE, 255, NONE, 8, 2)], 3, 9)
}

#[test]
fn iframes_of_no_greater_pipeline(rt: HostRuntime) -> Result<(), Fail> {
    refuses(&rt, &[Iframe(ROOT, NONE, FOUR, 0)], 8, 21)?;
    refuses(&rt, &[Iframe(ROOT, NONE, FOUR, 64)], 3, 21)?;
    let own = list(rt.alloc(), 1, &[Iframe(ROOT, NONE, FOUR, 5)])?;
    refuses_all(&rt, 5, &[&own], 8, LIST_AT + 21)
}

#[test]
fn numbers_of_shapes(rt: HostRuntime) -> Result<(), Fail> {
    refuses(&rt, &[Solid(ROOT, NONE, [2, 0, 1, 4], RED)], 3, 13)?;
    refuses(&rt, &[Solid(ROOT, NONE, [0, 2, 4, 1], RED)], 3, 17)?;
    refuses(&rt, &[Solid(ROOT, NONE, FOUR, [5, 0, 0, 4])], 6, 21)?;
    refuses(&rt, &[HitArea(ROOT, NONE, [-1_048_577, 0, 0, 0], 1)], 3, 5)?;
    refuses(
        &rt,
        &[Text(ROOT, NONE, FOUR, 1, RED, &[(5, [1_048_577, 0])])],
        3,
        31,
    )
}

#[test]
fn numbers_of_clips_and_frames(rt: HostRuntime) -> Result<(), Fail> {
    refuses(&rt, &[RoundClip(ROOT, 2, FOUR, [0; 8])], 3, 3)?;
    refuses(
        &rt,
        &[RoundClip(ROOT, 0, FOUR, [3, 3, 2, 0, 0, 0, 0, 0])],
        12,
        20,
    )?;
    refuses(
        &rt,
        &[RoundClip(ROOT, 0, FOUR, [0, 4097, 0, 0, 0, 0, 0, 0])],
        12,
        22,
    )?;
    refuses(&rt, &[Frame(ROOT, 5, [1, 1], [1, 1_048_577])], 3, 17)?;
    refuses(&rt, &[Reference(ROOT, [0, -1_048_577], NONE)], 3, 7)
}

#[test]
fn widths_of_borders(rt: HostRuntime) -> Result<(), Fail> {
    let colours = [RED; 4];
    refuses(
        &rt,
        &[Border(ROOT, NONE, FOUR, [1, 4097, 1, 1], colours, [0; 8])],
        12,
        23,
    )?;
    refuses(
        &rt,
        &[Border(ROOT, NONE, FOUR, [1, 3, 1, 2], colours, [0; 8])],
        12,
        21,
    )?;
    refuses(
        &rt,
        &[Border(ROOT, NONE, FOUR, [3, 1, 2, 1], colours, [0; 8])],
        12,
        21,
    )
}

#[test]
fn texels_that_are_not_premultiplied(rt: HostRuntime) -> Result<(), Fail> {
    let texels = [RED, [1, 0, 0, 0]];
    let wrong = add_image(rt.alloc(), 9, [2, 1], &texels)?;
    refuses_all(&rt, 0, &[&wrong], 11, 4 + 9 + 4)?;
    // The image of two texels is added first, 17 bytes before the update.
    let right = add_image(rt.alloc(), 9, [2, 1], &[RED, BLACK])?;
    let update = update_image(rt.alloc(), 9, [0, 0, 2, 1], &texels)?;
    refuses_all(&rt, 0, &[&right, &update], 11, 4 + 17 + 13 + 4)
}

#[test]
fn updates_of_what_an_image_does_not_have(rt: HostRuntime) -> Result<(), Fail> {
    let image = add_image(rt.alloc(), 9, [2, 1], &[RED, BLACK])?;
    let wide = update_image(rt.alloc(), 9, [2, 0, 1, 1], &[RED])?;
    refuses_all(&rt, 0, &[&image, &wide], 3, 4 + 17 + 9)?;
    let high = update_image(rt.alloc(), 9, [1, 1, 1, 1], &[RED])?;
    refuses_all(&rt, 0, &[&image, &high], 3, 4 + 17 + 11)
}

#[test]
fn updates_of_no_image(rt: HostRuntime) -> Result<(), Fail> {
    let update = update_image(rt.alloc(), 9, [0, 0, 1, 1], &[RED])?;
    refuses_all(&rt, 0, &[&update], 10, 5)?;
    // A pipeline has its own images: the root has image 9 here, and pipeline 1 has none.
    let image = add_image(rt.alloc(), 9, [1, 1], &[BLACK])?;
    let first = sent(rt.alloc(), &[&image])?;
    let second = transaction(rt.alloc(), 1, true, &[&update])?;
    expect(&rt, &[&first, &second], &[Accepted, Refused(10, 5)])
}

#[test]
fn operations_for_the_root_alone(rt: HostRuntime) -> Result<(), Fail> {
    refuses_all(&rt, 1, &[&DROP_TILES], 9, 4)?;
    refuses_all(&rt, 1, &[&tiles(1, 0)], 9, 4)
}

#[test]
fn a_tag_after_a_list_with_a_fault(rt: HostRuntime) -> Result<(), Fail> {
    // The list is a Pop and the End: two bytes.
    let list = list(rt.alloc(), 1, &[Pop])?;
    refuses_all(&rt, 0, &[&list, &[99]], 1, 4 + 9 + 2)
}
