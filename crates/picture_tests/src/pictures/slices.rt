//! Scroll frames, and the slices that items of one scroll frame form.

use super::colours::{BLACK, BLUE, CLEAR, GREEN, HALF, RED, WHITE, grey};
use super::operations::{list, scroll, tiles, view};
use super::parts::Part::{Chain, Frame, RectClip, Solid};
use super::parts::{NONE, Part, ROOT};
use super::transactions::{Answer, shown};
use super::{expect, expect_pixels};
use std::alloc::{AllocError, Global};
use std::process::Abort;
use std::test::Fail;

#[test]
fn a_scroll_is_clamped_where_it_is_used(rt: HostRuntime) -> Result<(), Fail> {
    let low = [
        Frame(ROOT, 3, [100, 100], [100, 100]),
        Solid(1, NONE, [0, 500, 1, 501], RED),
    ];
    let high = [
        Frame(ROOT, 3, [100, 100], [100, 900]),
        Solid(1, NONE, [0, 500, 1, 501], RED),
    ];
    let low = list(rt.alloc(), 1, &low)?;
    let high = list(rt.alloc(), 2, &high)?;
    let first = shown(
        rt.alloc(),
        &[&view([1, 1], CLEAR), &low, &scroll(3, [0, 500])],
    )?;
    let second = shown(rt.alloc(), &[&high])?;
    expect(
        &rt,
        &[&first, &second],
        &[
            Answer::Frame([1, 1], &[(0, 1)], &[CLEAR]),
            Answer::Frame([1, 1], &[(0, 2)], &[RED]),
        ],
    )
}

#[test]
fn a_scroll_frame_scrolls_in_another(rt: HostRuntime) -> Result<(), Fail> {
    let parts = [
        Frame(ROOT, 1, [64, 64], [64, 256]),
        Frame(1, 2, [32, 32], [32, 64]),
        RectClip(1, [0, 0, 32, 32]),
        Chain(NONE, &[0]),
        Solid(1, NONE, [0, 0, 64, 256], GREEN),
        Solid(2, 0, [0, 0, 8, 8], RED),
    ];
    let list = list(rt.alloc(), 1, &parts)?;
    let first = shown(rt.alloc(), &[&view([64, 64], WHITE), &list])?;
    let second = shown(rt.alloc(), &[&scroll(2, [0, 4])])?;
    expect_pixels(
        &rt,
        &[&first, &second],
        &[
            (0, 0, 7, RED),
            (0, 0, 8, GREEN),
            (1, 0, 3, RED),
            (1, 0, 4, GREEN),
        ],
    )
}

#[test]
fn a_second_slice_is_blended_over_the_first(rt: HostRuntime) -> Result<(), Fail> {
    let edges = [0, 0, 1, 1];
    let one = [
        Solid(ROOT, NONE, edges, HALF),
        Solid(ROOT, NONE, edges, HALF),
    ];
    let two = [
        Frame(ROOT, 1, [1, 1], [1, 1]),
        Solid(ROOT, NONE, edges, HALF),
        Solid(1, NONE, edges, HALF),
    ];
    let one = list(rt.alloc(), 1, &one)?;
    let two = list(rt.alloc(), 2, &two)?;
    let first = shown(rt.alloc(), &[&view([1, 1], WHITE), &one])?;
    let second = shown(rt.alloc(), &[&two])?;
    expect(
        &rt,
        &[&first, &second],
        &[
            Answer::Frame([1, 1], &[(0, 1)], &[grey(63)]),
            Answer::Frame([1, 1], &[(0, 2)], &[grey(64)]),
        ],
    )
}

/// A half black pixel of a node, at this x.
fn half_pixel(node: u16, x: i32) -> Part<'static> {
    Solid(node, NONE, [x, 0, x.saturating_add(1), 1], HALF)
}

/// Nine scroll frames, and an item of each from this one on: the last two on the left, the others on
/// the right.
fn neighbours(alloc: Global, first: u16) -> Result<Vec<Part<'static>>, AllocError> {
    let mut list = Vec::new(alloc);
    for number in 1..10u16 {
        list.push(Frame(ROOT, number, [2, 1], [2, 1]))?;
    }
    for node in first..8 {
        list.push(half_pixel(node, 1))?;
    }
    list.push(half_pixel(8, 0))?;
    list.push(half_pixel(9, 0))?;
    Ok(list)
}

/// A view of two pixels, white behind all, shows a list so.
fn expect_greys(
    rt: &(impl Abort + AllocGlobal),
    parts: &[Part<'_>],
    levels: [u8; 2],
) -> Result<(), Fail> {
    let [left, right] = levels;
    let list = list(rt.alloc(), 1, parts)?;
    let frame = shown(rt.alloc(), &[&view([2, 1], WHITE), &list])?;
    expect(
        rt,
        &[&frame],
        &[Answer::Frame([2, 1], &[(0, 1)], &[grey(left), grey(right)])],
    )
}

#[test]
fn the_runs_from_the_eighth_on_are_one_slice(rt: HostRuntime) -> Result<(), Fail> {
    let nine = neighbours(rt.alloc(), 1)?;
    expect_greys(&rt, &nine, [63, 2])?;
    let eight = neighbours(rt.alloc(), 2)?;
    expect_greys(&rt, &eight, [64, 4])
}

#[test]
fn slices_of_two_scroll_frames_exchanged(rt: HostRuntime) -> Result<(), Fail> {
    let red = Solid(1, NONE, [0, 0, 4, 4], RED);
    let blue = Solid(2, NONE, [2, 0, 6, 4], BLUE);
    let frames = [
        Frame(ROOT, 1, [64, 64], [64, 64]),
        Frame(ROOT, 2, [64, 64], [64, 64]),
    ];
    let first = [frames[0], frames[1], red, blue];
    let second = [frames[0], frames[1], blue, red];
    let first = list(rt.alloc(), 1, &first)?;
    let second = list(rt.alloc(), 2, &second)?;
    let first = shown(rt.alloc(), &[&view([64, 64], BLACK), &first])?;
    let second = shown(rt.alloc(), &[&second])?;
    expect_pixels(
        &rt,
        &[&first, &second],
        &[
            (0, 3, 0, BLUE),
            (0, 6, 0, BLACK),
            (1, 3, 0, RED),
            (1, 4, 0, BLUE),
        ],
    )
}

#[test]
fn scrolling_and_tiles_keep_a_filled_view(rt: HostRuntime) -> Result<(), Fail> {
    let parts = [
        Frame(ROOT, 1, [64, 64], [64, 256]),
        Solid(1, NONE, [0, 0, 64, 256], RED),
    ];
    let list = list(rt.alloc(), 1, &parts)?;
    let first = shown(rt.alloc(), &[&tiles(64, 64), &view([64, 64], WHITE), &list])?;
    let second = shown(rt.alloc(), &[&scroll(1, [0, 10])])?;
    let third = shown(rt.alloc(), &[&scroll(1, [0, 0]), &tiles(64, 1)])?;
    expect_pixels(
        &rt,
        &[&first, &second, &third],
        &[
            (0, 63, 63, RED),
            (1, 0, 0, RED),
            (1, 63, 63, RED),
            (2, 0, 63, RED),
        ],
    )
}
