//! Lists made from a seed.

use crate::list_bytes::{ListBytes, NONE};
use crate::rolls::Rolls;
use std::alloc::{AllocError, Global};

/// A column or row of the view, or a little outside it.
fn at(rolls: &mut Rolls) -> i32 {
    i32::from(rolls.below(110)) - 12
}

/// Eight pixels, and fewer than so many more.
fn side(rolls: &mut Rolls, more: u8) -> i32 {
    8 + i32::from(rolls.below(more.max(1)))
}

/// A rectangle with sides of eight pixels, and fewer than so many more.
fn rect(rolls: &mut Rolls, more: u8) -> [i32; 4] {
    let (x, y) = (at(rolls), at(rolls));
    let (width, height) = (side(rolls, more), side(rolls, more));
    [x, y, x.saturating_add(width), y.saturating_add(height)]
}

/// A chain of the root's list, or none.
fn chain(rolls: &mut Rolls) -> u16 {
    rolls.one_of([NONE, 0, 1, 2])
}

/// A frame, a scroll frame in it, and another in that one; three clips, and a chain for each.
fn definitions(list: &mut ListBytes, rolls: &mut Rolls) -> Result<(), AllocError> {
    list.frame(0, at(rolls), 2)?;
    list.scroll_frame(1, 1, [64, 64, 64, 900])?;
    list.scroll_frame(2, 2, [32, 32, 32, 600])?;
    list.clip(0, rect(rolls, 100))?;
    list.clip(u16::from(rolls.below(4)), rect(rolls, 100))?;
    let (node, is_out) = (u16::from(rolls.below(4)), rolls.below(2) == 0);
    list.round_clip(node, is_out, rect(rolls, 90), 3)?;
    list.chain(NONE, 0)?;
    list.chain(0, 1)?;
    list.chain(rolls.one_of([NONE, 0, 1, 1]), 2)
}

/// Chooses where the next item stands.
fn choose_spot(list: &mut ListBytes, rolls: &mut Rolls) {
    list.node = u16::from(rolls.below(4));
    list.chain = chain(rolls);
}

/// A solid, an image, a border, a text or an Iframe.
fn item(list: &mut ListBytes, rolls: &mut Rolls) -> Result<(), AllocError> {
    choose_spot(list, rolls);
    let (rect, colour) = (rect(rolls, 70), rolls.colour());
    match rolls.below(7) {
        0 => list.image(rect, 9),
        1 => list.border(rect, 2, colour, 3),
        2 => list.text(rect, colour, [(5, rect[0], rect[1]), (6, 3, 3)]),
        3 => list.iframe(rect, 1),
        _ => list.solid(rect, colour),
    }
}

/// Two items in a context, whose opacity is property 1 or its own.
fn context(list: &mut ListBytes, rolls: &mut Rolls) -> Result<(), AllocError> {
    choose_spot(list, rolls);
    let (opacity, mode) = (rolls.below(255), rolls.below(9));
    let property = rolls.one_of([1, 1, NONE, NONE]);
    list.push(opacity, property, mode)?;
    item(list, rolls)?;
    item(list, rolls)?;
    list.pop()
}

/// A list of the root.
pub fn rolled_root(alloc: Global, rolls: &mut Rolls) -> Result<ListBytes, AllocError> {
    let mut list = ListBytes::new(alloc);
    definitions(&mut list, rolls)?;
    for _ in 0..8 {
        if rolls.below(4) == 0 {
            context(&mut list, rolls)?;
        } else {
            item(&mut list, rolls)?;
        }
    }
    Ok(list)
}

/// A list of pipeline 1: two solids and an image, one of them in a scroll frame under a clip.
pub fn rolled_inner(alloc: Global, rolls: &mut Rolls) -> Result<ListBytes, AllocError> {
    let mut list = ListBytes::new(alloc);
    list.scroll_frame(0, 1, [64, 64, 64, 300])?;
    list.clip(1, rect(rolls, 90))?;
    list.chain(NONE, 0)?;
    list.solid(rect(rolls, 70), rolls.colour())?;
    list.image(rect(rolls, 70), 9)?;
    list.node = 1;
    list.chain = 0;
    list.solid(rect(rolls, 90), rolls.colour())?;
    Ok(list)
}
