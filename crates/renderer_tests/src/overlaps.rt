//! More scroll frames than slices of their own.

use crate::list_bytes::ListBytes;
use crate::stage::{SHADE, Stage, WHITE, on_a_stage};
use wr_geom::NoMemory;

/// Nine scroll frames.
fn frames(list: &mut ListBytes) -> Result<(), NoMemory> {
    for sid in 1..10u16 {
        list.scroll_frame(0, sid, [2, 1, 2, 1])?;
    }
    Ok(())
}

/// Shades in the second column by the frames from the first one to the seventh, and in the first one by the last two.
fn shades(list: &mut ListBytes, first: u16) -> Result<(), NoMemory> {
    for node in first..8 {
        list.node = node;
        list.solid([1, 0, 2, 1], SHADE)?;
    }
    for node in 8..10u16 {
        list.node = node;
        list.solid([0, 0, 1, 1], SHADE)?;
    }
    Ok(())
}

/// Shows the shades of the frames from this one on.
fn show_shades(stage: &mut Stage, first: u16) -> Result<(), NoMemory> {
    let mut list = ListBytes::new(stage.alloc());
    frames(&mut list)?;
    shades(&mut list, first)?;
    let mut ops = stage.ops(0);
    ops.set_view(2, 1, WHITE)?;
    ops.set_list(list)?;
    let payload = ops.finish(true)?;
    stage.apply(payload.as_slice())?;
    Ok(())
}

/// Whether the shades show, of nine frames and of eight.
fn shows_shades(stage: &mut Stage) -> Result<(), NoMemory> {
    show_shades(stage, 1)?;
    let tiles = stage.renderer.tiles().len();
    stage.expect(tiles == 8);
    stage.expect_pixel(0, 0, [63, 63, 63, 255]);
    stage.expect_pixel(1, 0, [2, 2, 2, 255]);
    show_shades(stage, 2)?;
    stage.expect_pixel(0, 0, [64, 64, 64, 255]);
    stage.expect_pixel(1, 0, [4, 4, 4, 255]);
    Ok(())
}

#[test]
fn the_last_slice_takes_what_is_left(rt: HostRuntime) {
    assert!(rt; on_a_stage(rt.alloc(), shows_shades) == Ok(true));
}
