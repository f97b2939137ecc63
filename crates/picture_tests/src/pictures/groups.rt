//! Contexts: groups, their opacity and their blend modes.

use super::colours::{BLACK, BLUE, CLEAR, GREEN, RED, WHITE};
use super::operations::{list, opacity, view};
use super::parts::Part::{Pop, Push, Solid};
use super::parts::{Colour, NONE, Part, ROOT};
use super::transactions::Answer::Frame;
use super::transactions::shown;
use super::{expect, expect_pixels};
use std::process::Abort;
use std::test::Fail;

/// The number of the blend mode Multiply.
const MULTIPLY: u8 = 1;

/// The number of the blend mode Difference.
const DIFFERENCE: u8 = 7;

/// A solid that is one pixel.
const fn dot(colour: Colour) -> Part<'static> {
    Solid(ROOT, NONE, [0, 0, 1, 1], colour)
}

/// The begin of a context of a blend mode.
const fn mode(number: u8) -> Part<'static> {
    Push(ROOT, NONE, 255, NONE, number, 0)
}

/// A view of one pixel shows a list as this colour.
fn expect_dot(
    rt: &(impl Abort + AllocGlobal),
    behind: Colour,
    parts: &[Part<'_>],
    want: Colour,
) -> Result<(), Fail> {
    let list = list(rt.alloc(), 1, parts)?;
    let frame = shown(rt.alloc(), &[&view([1, 1], behind), &list])?;
    expect(rt, &[&frame], &[Frame([1, 1], &[(0, 1)], &[want])])
}

#[test]
fn a_group_is_blended_with_its_slice_alone(rt: HostRuntime) -> Result<(), Fail> {
    let group = [mode(MULTIPLY), dot(RED), Pop];
    expect_dot(&rt, WHITE, &[dot(GREEN), group[0], group[1], Pop], BLACK)?;
    expect_dot(&rt, WHITE, &group, RED)
}

#[test]
fn an_opaque_item_hides_a_group_before_it(rt: HostRuntime) -> Result<(), Fail> {
    let (begin, white) = (mode(DIFFERENCE), dot(WHITE));
    expect_dot(&rt, CLEAR, &[dot(BLUE), begin, white, Pop, dot(RED)], RED)?;
    let yellow = [255, 255, 0, 255];
    expect_dot(
        &rt,
        CLEAR,
        &[dot(BLUE), dot(RED), begin, white, Pop],
        yellow,
    )
}

#[test]
fn a_group_of_half_opacity(rt: HostRuntime) -> Result<(), Fail> {
    let begin = Push(ROOT, NONE, 128, NONE, 0, 0);
    expect_dot(
        &rt,
        WHITE,
        &[dot(GREEN), begin, dot(RED), Pop],
        [0, 127, 128, 255],
    )
}

#[test]
fn a_bound_opacity_replaces_the_context_s_own(rt: HostRuntime) -> Result<(), Fail> {
    let parts = [
        Solid(ROOT, NONE, [0, 0, 64, 64], GREEN),
        Push(ROOT, NONE, 255, 1, 0, 0),
        Solid(ROOT, NONE, [0, 0, 4, 4], WHITE),
        Pop,
    ];
    let list = list(rt.alloc(), 1, &parts)?;
    let unset = shown(rt.alloc(), &[&view([64, 64], BLACK), &list])?;
    let half = shown(rt.alloc(), &[&opacity(1, 128)])?;
    let quarter = shown(rt.alloc(), &[&opacity(1, 64)])?;
    let whole = shown(rt.alloc(), &[&opacity(1, 255)])?;
    expect_pixels(
        &rt,
        &[&unset, &half, &quarter, &whole],
        &[
            (0, 0, 0, WHITE),
            (1, 0, 0, [128, 255, 128, 255]),
            (1, 4, 0, GREEN),
            (2, 0, 0, [64, 255, 64, 255]),
            (3, 0, 0, WHITE),
        ],
    )
}

/// A grey of alpha 200 in a group, over a grey of alpha 150: the blend has alpha 233.
fn expect_blend(
    rt: &(impl Abort + AllocGlobal),
    number: u8,
    levels: [u8; 2],
    want: u8,
) -> Result<(), Fail> {
    let [s, d] = levels;
    let list = [dot([d, d, d, 150]), mode(number), dot([s, s, s, 200]), Pop];
    expect_dot(rt, CLEAR, &list, [want, want, want, 233])
}

#[test]
fn blends_of_a_darker_backdrop(rt: HostRuntime) -> Result<(), Fail> {
    let wants = [113, 78, 137, 101, 102, 113, 101, 66, 114];
    for (number, want) in wants.iter().enumerate() {
        expect_blend(&rt, number as u8, [100, 60], *want)?;
    }
    Ok(())
}

#[test]
fn blends_of_a_lighter_backdrop(rt: HostRuntime) -> Result<(), Fail> {
    let wants = [172, 143, 192, 183, 162, 172, 183, 94, 134];
    for (number, want) in wants.iter().enumerate() {
        expect_blend(&rt, number as u8, [150, 100], *want)?;
    }
    Ok(())
}
