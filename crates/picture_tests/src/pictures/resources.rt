//! Images and text: what is stored, and what is shown of it.

use super::colours::{BLACK, BLUE, GREEN, RED, WHITE, grey};
use super::expect;
use super::operations::{
    add_glyph, add_image, delete_font, delete_image, list, update_image, view,
};
use super::parts::Part::{Image, Push, Text};
use super::parts::{NONE, Part, ROOT};
use super::transactions::Answer::{Frame, Refused};
use super::transactions::shown;
use std::test::Fail;

/// Two glyphs beside each other.
const LETTERS: Part<'static> = Text(
    ROOT,
    NONE,
    [0, 0, 2, 1],
    1,
    WHITE,
    &[(5, [0, 0]), (6, [1, 0])],
);

/// A row of four pixels of image 9, from its second texel.
const ROW: Part<'static> = Image(ROOT, NONE, [0, 0, 4, 1], 9, [1, 0]);

/// Image 9 as one pixel.
const DOT: Part<'static> = Image(ROOT, NONE, [0, 0, 1, 1], 9, [0, 0]);

#[test]
fn glyphs_are_masks_of_the_text_s_colour(rt: HostRuntime) -> Result<(), Fail> {
    let list = list(rt.alloc(), 1, &[LETTERS])?;
    let glyph = add_glyph(rt.alloc(), 5, [1, 1], &[200])?;
    let first = shown(rt.alloc(), &[&view([2, 1], BLACK), &glyph, &list])?;
    let glyph = add_glyph(rt.alloc(), 6, [1, 1], &[255])?;
    let second = shown(rt.alloc(), &[&glyph])?;
    let third = shown(rt.alloc(), &[&delete_font(1)])?;
    expect(
        &rt,
        &[&first, &second, &third],
        &[
            Frame([2, 1], &[(0, 1)], &[grey(200), BLACK]),
            Frame([2, 1], &[(0, 1)], &[grey(200), WHITE]),
            Frame([2, 1], &[(0, 1)], &[BLACK, BLACK]),
        ],
    )
}

#[test]
fn an_image_repeats_from_its_first_texel(rt: HostRuntime) -> Result<(), Fail> {
    let list = list(rt.alloc(), 1, &[ROW])?;
    let image = add_image(rt.alloc(), 9, [3, 1], &[RED, GREEN, BLUE])?;
    let frame = shown(rt.alloc(), &[&view([4, 1], BLACK), &image, &list])?;
    expect(
        &rt,
        &[&frame],
        &[Frame([4, 1], &[(0, 1)], &[GREEN, BLUE, RED, GREEN])],
    )
}

#[test]
fn an_image_that_is_deleted_shows_nothing(rt: HostRuntime) -> Result<(), Fail> {
    let behind = [1, 2, 3, 4];
    let list = list(rt.alloc(), 1, &[DOT])?;
    let red = add_image(rt.alloc(), 9, [1, 1], &[RED])?;
    let blue = add_image(rt.alloc(), 9, [1, 1], &[BLUE])?;
    let first = shown(rt.alloc(), &[&view([1, 1], behind), &red, &list])?;
    let gone = shown(rt.alloc(), &[&delete_image(9)])?;
    let again = shown(rt.alloc(), &[&blue])?;
    let twice = shown(rt.alloc(), &[&delete_image(9), &delete_image(9)])?;
    let last = shown(rt.alloc(), &[])?;
    expect(
        &rt,
        &[&first, &gone, &again, &twice, &last],
        &[
            Frame([1, 1], &[(0, 1)], &[RED]),
            Frame([1, 1], &[(0, 1)], &[behind]),
            Frame([1, 1], &[(0, 1)], &[BLUE]),
            Refused(10, 10),
            Frame([1, 1], &[(0, 1)], &[BLUE]),
        ],
    )
}

#[test]
fn a_refused_list_undoes_the_update_before_it(rt: HostRuntime) -> Result<(), Fail> {
    let part = [0, 0, 1, 1];
    let dot = list(rt.alloc(), 1, &[DOT])?;
    let no_mode = list(rt.alloc(), 2, &[Push(ROOT, NONE, 255, NONE, 9, 0)])?;
    let red = add_image(rt.alloc(), 9, [1, 1], &[RED])?;
    let blue = update_image(rt.alloc(), 9, part, &[BLUE])?;
    let green = update_image(rt.alloc(), 9, part, &[GREEN])?;
    let first = shown(rt.alloc(), &[&view([1, 1], BLACK), &red, &dot])?;
    let refused = shown(rt.alloc(), &[&blue, &no_mode])?;
    let after = shown(rt.alloc(), &[])?;
    let last = shown(rt.alloc(), &[&green])?;
    expect(
        &rt,
        &[&first, &refused, &after, &last],
        &[
            Frame([1, 1], &[(0, 1)], &[RED]),
            Refused(7, 38),
            Frame([1, 1], &[(0, 1)], &[RED]),
            Frame([1, 1], &[(0, 1)], &[GREEN]),
        ],
    )
}
