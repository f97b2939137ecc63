//! A property that is a context's opacity.

use crate::list_bytes::ListBytes;
use crate::stage::{GREEN, Stage, WHITE, on_a_stage};
use wr_geom::NoMemory;

/// How many pixels a tile has.
const TILE: u64 = 64 * 64;

/// A white square over green, in a context whose opacity is property 1.
fn square(stage: &mut Stage) -> Result<(), NoMemory> {
    let mut list = ListBytes::new(stage.alloc());
    list.solid([0, 0, 64, 64], GREEN)?;
    list.push(255, 1, 0)?;
    list.solid([0, 0, 4, 4], WHITE)?;
    list.pop()?;
    let mut ops = stage.ops(0);
    ops.set_view(64, 64, [0, 0, 0, 255])?;
    ops.set_policy(64, 64)?;
    ops.set_list(list)?;
    stage.show(ops, 1, TILE)
}

/// Sets the property, at the cost of so many pixels, and expects this corner.
fn fade(stage: &mut Stage, opacity: u8, drawn: u64, corner: [u8; 4]) -> Result<(), NoMemory> {
    let mut ops = stage.ops(0);
    ops.set_opacity(1, opacity)?;
    stage.show(ops, 1, drawn)?;
    stage.expect_pixel(0, 0, corner);
    Ok(())
}

/// Whether each opacity shows.
fn fades(stage: &mut Stage) -> Result<(), NoMemory> {
    square(stage)?;
    stage.expect_pixel(0, 0, WHITE);
    fade(stage, 128, 16, [128, 255, 128, 255])?;
    fade(stage, 64, TILE, [64, 255, 64, 255])?;
    fade(stage, 255, 16, WHITE)
}

#[test]
fn a_context_fades(rt: HostRuntime) {
    assert!(rt; on_a_stage(rt.alloc(), fades) == Ok(true));
}
