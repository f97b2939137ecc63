//! Scroll frames.

use crate::list_bytes::ListBytes;
use crate::ops::Ops;
use crate::stage::{GREEN, RED, Stage, on_a_stage};
use wr_geom::NoMemory;

/// How many pixels a tile has.
const TILE: u64 = 64 * 64;

/// A view of 64 by 64 pixels, which is one tile.
fn view(stage: &Stage) -> Result<Ops, NoMemory> {
    let mut ops = stage.ops(0);
    ops.set_view(64, 64, [0, 0, 0, 255])?;
    ops.set_policy(64, 64)?;
    Ok(ops)
}

/// A red square in a scroll frame, over the green content of another one around it.
fn nested(stage: &mut Stage) -> Result<(), NoMemory> {
    let mut list = ListBytes::new(stage.alloc());
    list.scroll_frame(0, 1, [64, 64, 64, 256])?;
    list.scroll_frame(1, 2, [32, 32, 32, 64])?;
    list.clip(1, [0, 0, 32, 32])?;
    list.chain(65535, 0)?;
    list.node = 1;
    list.solid([0, 0, 64, 256], GREEN)?;
    list.node = 2;
    list.chain = 0;
    list.solid([0, 0, 8, 8], RED)?;
    let mut ops = view(stage)?;
    ops.set_list(list)?;
    stage.show(ops, 1, TILE)
}

/// Whether the inner one scrolls at the cost of the rows that change.
fn scrolls_the_inner(stage: &mut Stage) -> Result<(), NoMemory> {
    nested(stage)?;
    let mut ops = stage.ops(0);
    ops.scroll(2, 4)?;
    stage.show(ops, 1, 64)?;
    stage.expect_pixel(0, 3, RED);
    stage.expect_pixel(0, 4, GREEN);
    Ok(())
}

#[test]
fn a_scroll_frame_inside_another(rt: HostRuntime) {
    assert!(rt; on_a_stage(rt.alloc(), scrolls_the_inner) == Ok(true));
}

/// Scrolls a frame down to a row.
fn scroll_to(stage: &mut Stage, y: u32, tiles: u32, drawn: u64) -> Result<(), NoMemory> {
    let mut ops = stage.ops(0);
    ops.scroll(1, y)?;
    stage.show(ops, tiles, drawn)
}

/// Whether tiles are drawn when they are first seen alone.
fn scrolls_back(stage: &mut Stage) -> Result<(), NoMemory> {
    let mut list = ListBytes::new(stage.alloc());
    list.scroll_frame(0, 1, [64, 64, 64, 256])?;
    list.node = 1;
    list.solid([0, 0, 64, 256], RED)?;
    let mut ops = view(stage)?;
    ops.set_list(list)?;
    stage.accept(ops)?;
    scroll_to(stage, 0, 1, TILE)?;
    scroll_to(stage, 10, 2, TILE)?;
    scroll_to(stage, 0, 2, 0)
}

#[test]
fn scrolling_back_costs_nothing(rt: HostRuntime) {
    assert!(rt; on_a_stage(rt.alloc(), scrolls_back) == Ok(true));
}
