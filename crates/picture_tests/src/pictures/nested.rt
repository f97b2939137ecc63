//! Iframes: pictures of pipelines in pipelines.

use super::colours::{BLACK, BLUE, GREEN, HALF, RED, WHITE, grey};
use super::operations::{REMOVE, add_glyph, add_image, list, scroll, update_image, view};
use super::parts::Part::{Border, Chain, Frame, Iframe, Image, RoundClip, Solid, Text};
use super::parts::{Colour, INSIDE, NONE, Part, ROOT};
use super::transactions::{Answer, sent, shown, transaction};
use super::{expect, expect_pixels};
use std::alloc::Global;
use std::test::Fail;

#[test]
fn an_iframe_shows_its_pipeline_s_list(rt: HostRuntime) -> Result<(), Fail> {
    let outer = [Iframe(ROOT, NONE, [1, 1, 3, 3], 1)];
    let inner = [Solid(ROOT, NONE, [0, 0, 8, 8], RED)];
    let (n, r, black) = (BLACK, RED, [BLACK; 16]);
    let red = [n, n, n, n, n, r, r, n, n, r, r, n, n, n, n, n];
    let outer = list(rt.alloc(), 3, &outer)?;
    let inner = list(rt.alloc(), 7, &inner)?;
    let first = shown(rt.alloc(), &[&view([4, 4], BLACK), &outer])?;
    let second = transaction(rt.alloc(), 1, true, &[&inner])?;
    let third = transaction(rt.alloc(), 1, true, &[&REMOVE])?;
    expect(
        &rt,
        &[&first, &second, &third],
        &[
            Answer::Frame([4, 4], &[(0, 3)], &black),
            Answer::Frame([4, 4], &[(0, 3), (1, 7)], &red),
            Answer::Frame([4, 4], &[(0, 3)], &black),
        ],
    )
}

/// A red image of 16 by 16 texels.
const TEXELS: [Colour; 256] = [RED; 256];

/// The colour of a border's bottom.
const DARK: Colour = [7, 7, 7, 255];

/// What the window's frame is: a bar with text, a page below it, and a shade over its foot.
const WINDOW: [Part<'static>; 4] = [
    Solid(ROOT, NONE, [0, 0, 640, 40], [224, 224, 224, 255]),
    Text(
        ROOT,
        NONE,
        [8, 8, 200, 32],
        1,
        BLACK,
        &[(5, [10, 10]), (6, [20, 10])],
    ),
    Iframe(ROOT, NONE, [0, 40, 640, 480], 1),
    Solid(ROOT, NONE, [0, 440, 640, 480], HALF),
];

/// The page: a scroll frame with a rounded box, an image and a border.
const PAGE: [Part<'static>; 7] = [
    Frame(ROOT, 1, [640, 440], [640, 2000]),
    RoundClip(1, INSIDE, [20, 20, 620, 220], [2, 2, 2, 2, 2, 2, 2, 2]),
    Chain(NONE, &[0]),
    Solid(1, NONE, [0, 0, 640, 2000], WHITE),
    Solid(1, 0, [20, 20, 620, 220], BLUE),
    Image(1, NONE, [40, 60, 200, 76], 9, [0, 0]),
    Border(
        1,
        NONE,
        [300, 60, 400, 120],
        [2, 2, 2, 2],
        [RED, GREEN, DARK, BLACK],
        [0, 0, 0, 0, 0, 0, 0, 0],
    ),
];

/// The transaction of the page and its image.
fn page(alloc: Global) -> Result<Vec<u8>, Fail> {
    let page = list(alloc, 2, &PAGE)?;
    let image = add_image(alloc, 9, [16, 16], &TEXELS)?;
    transaction(alloc, 1, false, &[&page, &image])
}

#[test]
fn a_window_with_a_page(rt: HostRuntime) -> Result<(), Fail> {
    let page = page(rt.alloc())?;
    let window = list(rt.alloc(), 1, &WINDOW)?;
    let full = add_glyph(rt.alloc(), 5, [2, 2], &[255, 255, 255, 255])?;
    let faint = add_glyph(rt.alloc(), 6, [2, 2], &[128, 128, 128, 128])?;
    let glyphs = sent(rt.alloc(), &[&full, &faint])?;
    let frame = shown(rt.alloc(), &[&view([640, 480], WHITE), &window])?;
    expect_pixels(
        &rt,
        &[&page, &glyphs, &frame],
        &[
            (2, 0, 0, grey(224)),
            (2, 10, 10, BLACK),
            (2, 12, 10, grey(224)),
            (2, 20, 60, [255, 159, 159, 255]),
            (2, 0, 479, grey(127)),
            (2, 40, 100, RED),
            (2, 199, 115, RED),
            (2, 200, 115, BLUE),
            (2, 300, 100, RED),
            (2, 300, 130, BLACK),
            (2, 399, 130, GREEN),
            (2, 350, 159, DARK),
            (2, 350, 130, BLUE),
        ],
    )
}

#[test]
fn a_page_scrolls_below_the_bar(rt: HostRuntime) -> Result<(), Fail> {
    let page = page(rt.alloc())?;
    let window = list(rt.alloc(), 1, &WINDOW)?;
    let texel = update_image(rt.alloc(), 9, [1, 0, 1, 1], &[GREEN])?;
    let frame = shown(rt.alloc(), &[&view([64, 128], WHITE), &window])?;
    let little = transaction(rt.alloc(), 1, true, &[&scroll(1, [0, 30])])?;
    let far = transaction(rt.alloc(), 1, true, &[&scroll(1, [0, 100])])?;
    let update = transaction(rt.alloc(), 1, true, &[&texel])?;
    let back = transaction(rt.alloc(), 1, true, &[&scroll(1, [0, 0])])?;
    expect_pixels(
        &rt,
        &[&page, &frame, &little, &far, &update, &back],
        &[
            (1, 20, 60, [255, 159, 159, 255]),
            (2, 20, 36, grey(224)),
            (2, 20, 40, BLUE),
            (3, 40, 40, BLUE),
            (5, 40, 100, RED),
            (5, 41, 100, GREEN),
            (5, 57, 100, GREEN),
        ],
    )
}
