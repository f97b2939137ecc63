//! Small scenes made from a seed, each drawn in two ways.

ghost use Rattle.std.specs.Prelude.{◌<◌};

use crate::parts::{ListBytes, NONE};
use crate::point::slices_colour;
use crate::rolls::Rolls;
use crate::stage::{Stage, on_a_stage};
use picture_slices::Slice;
use scene_slices::scene_slices;
use scene_state::{Scene, paint_at};
use std::alloc::{AllocError, Global};
use wr_geom::NoMemory;

/// How many scenes are made.
const SCENES: u8 = 100;

/// A view of 8 by 8 pixels over translucent grey.
const SET_VIEW: [u8; 9] = [10, 8, 0, 8, 0, 30, 30, 30, 60];

/// An image of key 9 and two pixels, one of them translucent.
const ADD_IMAGE: [u8; 17] = [5, 9, 0, 0, 0, 2, 0, 1, 0, 1, 2, 3, 255, 4, 4, 4, 90];

/// The mask of glyph 5 in font 1, of two by two pixels.
const ADD_GLYPH: [u8; 13] = [8, 1, 0, 5, 0, 2, 0, 2, 0, 200, 255, 10, 0];

/// A number of pixels as a column or row.
fn pixels(rolls: &mut Rolls) -> i32 {
    i32::from(rolls.below(8)) - 2
}

/// A node of the root's list.
fn node(rolls: &mut Rolls) -> u16 {
    u16::from(rolls.below(4))
}

/// A chain of the root's list, or none.
fn chain(rolls: &mut Rolls) -> u16 {
    rolls.one_of([NONE, 0, 1, 2])
}

/// A frame, a scroll frame in it, and another in that one; three clips, and a chain for each.
fn definitions(list: &mut ListBytes, rolls: &mut Rolls) -> Result<(), AllocError> {
    list.frame(0, pixels(rolls))?;
    list.scroll_frame(1, 1)?;
    list.scroll_frame(2, 2)?;
    list.side = 6;
    list.clip(0, pixels(rolls))?;
    list.clip(node(rolls), pixels(rolls))?;
    let is_out = rolls.below(2) == 0;
    list.round_clip(node(rolls), pixels(rolls), is_out)?;
    list.chain(NONE, 0)?;
    list.chain(0, 1)?;
    list.chain(rolls.one_of([NONE, 0, 1, 1]), 2)
}

/// A solid of a rolled colour.
fn solid(list: &mut ListBytes, rolls: &mut Rolls) -> Result<(), AllocError> {
    list.colour = rolls.colour();
    let (node, chain) = (node(rolls), chain(rolls));
    let (x, y) = (pixels(rolls), pixels(rolls));
    list.solid(node, chain, x, y)
}

/// An image, a border, a text or an Iframe.
fn other(list: &mut ListBytes, rolls: &mut Rolls) -> Result<(), AllocError> {
    list.colour = rolls.colour();
    let x = pixels(rolls);
    match rolls.below(4) {
        0 => list.image(x, 9),
        1 => list.border(x),
        2 => list.text(node(rolls), x, 5),
        _ => list.iframe(node(rolls), chain(rolls), x, 1),
    }
}

/// Two items in a context of a rolled mode, opacity and chain.
fn context(list: &mut ListBytes, rolls: &mut Rolls) -> Result<(), AllocError> {
    list.mode = rolls.below(9);
    let opacity = if rolls.below(2) == 0 {
        255
    } else {
        rolls.below(255)
    };
    let (node, chain) = (node(rolls), chain(rolls));
    list.push(node, chain, opacity, NONE)?;
    solid(list, rolls)?;
    other(list, rolls)?;
    list.pop()
}

/// Items of all forms.
fn items(list: &mut ListBytes, rolls: &mut Rolls, count: u8) -> Result<(), AllocError> {
    for _ in 0..count {
        list.side = i32::from(rolls.below(5)) + 3;
        match rolls.below(4) {
            0 => context(list, rolls)?,
            1 => other(list, rolls)?,
            _ => solid(list, rolls)?,
        }
    }
    Ok(())
}

/// Sets the list of pipeline 1: two solids and an image, one of them in a scroll frame.
fn set_inner(stage: &mut Stage, rolls: &mut Rolls) -> Result<(), AllocError> {
    let mut list = ListBytes::new(stage.alloc);
    list.scroll_frame(0, 1)?;
    list.clip(1, pixels(rolls))?;
    list.chain(NONE, 0)?;
    list.colour = rolls.colour();
    list.side = 4;
    list.solid(0, NONE, pixels(rolls), 1)?;
    list.solid(1, 0, pixels(rolls), 0)?;
    list.image(pixels(rolls), 9)?;
    stage.set_list(1, list)
}

/// Sets the root's list, and scrolls its scroll frames.
fn set_root(stage: &mut Stage, rolls: &mut Rolls) -> Result<(), AllocError> {
    let mut list = ListBytes::new(stage.alloc);
    definitions(&mut list, rolls)?;
    items(&mut list, rolls, 10)?;
    stage.set_list(0, list)?;
    stage.scroll(0, 1, rolls.below(5))?;
    stage.scroll(0, 2, rolls.below(5))
}

/// Whether slices show the scene's picture in each pixel of a row.
fn show_row(alloc: Global, scene: &Scene, slices: &[Slice], y: u16) -> Result<bool, AllocError>
    requires { y < scene.now.view.1 }
{
    let (width, _) = scene.view();
    let behind = scene.clear();
    for x in 0..width {
        let painted = paint_at(scene, x, y);
        let shown = slices_colour(alloc, slices, scene.store(), behind, x.into(), y.into())?;
        if shown != painted {
            return Ok(false);
        }
    }
    Ok(true)
}

/// Whether they show it in each row.
fn show_picture(alloc: Global, scene: &Scene, slices: &[Slice]) -> Result<bool, AllocError> {
    let (_, height) = scene.view();
    for y in 0..height {
        if !show_row(alloc, scene, slices, y)? {
            return Ok(false);
        }
    }
    Ok(true)
}

/// Whether one more scene is shown the same in both ways.
fn is_shown(stage: &mut Stage, rolls: &mut Rolls) -> Result<bool, NoMemory> {
    set_inner(stage, rolls)?;
    set_root(stage, rolls)?;
    let slices = scene_slices(stage.alloc, &stage.scene)?;
    let same = show_picture(stage.alloc, &stage.scene, slices.as_slice())?;
    Ok(same && stage.is_whole)
}

/// Whether all scenes are.
fn are_shown(stage: &mut Stage) -> Result<bool, NoMemory> {
    stage.apply(0, &SET_VIEW)?;
    stage.apply(0, &ADD_IMAGE)?;
    stage.apply(0, &ADD_GLYPH)?;
    let mut rolls = Rolls::new(7);
    for _ in 0..SCENES {
        if !is_shown(stage, &mut rolls)? {
            return Ok(false);
        }
    }
    Ok(true)
}

#[test]
fn slices_of_a_hundred_scenes_show_their_pictures(rt: HostRuntime) {
    assert_eq!(rt; on_a_stage(rt.alloc(), are_shown), Ok(true));
}
