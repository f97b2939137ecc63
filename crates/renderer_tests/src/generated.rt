//! Transactions made from a seed, each with a frame.

use crate::rolled_ops::{first, rolled_ops, rolled_scene};
use crate::rolls::Rolls;
use crate::stage::{Stage, on_a_stage};
use wr_geom::NoMemory;

/// How many transactions each pair of lists gets.
const CHANGES: u8 = 10;

/// How many pairs of lists there are.
const SCENES: u8 = 6;

/// Applies a rolled transaction with a frame, and expects the painter's pixels.
fn change(stage: &mut Stage, rolls: &mut Rolls) -> Result<(), NoMemory> {
    let ops = rolled_ops(stage, rolls)?;
    let payload = ops.finish(true)?;
    let answer = stage.apply(payload.as_slice())?;
    stage.expect(answer.is_some());
    stage.expect_sample();
    Ok(())
}

/// Expects that the budget is kept.
fn expect_few_tiles(stage: &mut Stage) {
    let tiles = stage.renderer.tiles().len();
    let budget = stage.renderer.scene().policy().budget;
    stage.expect(tiles <= budget);
}

/// Sets a list of a pipeline, without a frame.
fn set_scene(stage: &mut Stage, rolls: &mut Rolls, pipeline: u8) -> Result<(), NoMemory> {
    let ops = rolled_scene(stage, rolls, pipeline)?;
    stage.accept(ops)
}

/// A new list of each pipeline, and then changes.
fn change_scene(stage: &mut Stage, rolls: &mut Rolls) -> Result<(), NoMemory> {
    set_scene(stage, rolls, 1)?;
    set_scene(stage, rolls, 0)?;
    for _ in 0..CHANGES {
        change(stage, rolls)?;
        expect_few_tiles(stage);
    }
    Ok(())
}

/// Whether each frame has the painter's pixels.
fn stays_painted(stage: &mut Stage) -> Result<(), NoMemory> {
    let mut rolls = Rolls::new(11);
    first(stage)?;
    for _ in 0..SCENES {
        change_scene(stage, &mut rolls)?;
    }
    Ok(())
}

#[test]
fn each_frame_has_the_painters_pixels(rt: HostRuntime) {
    assert!(rt; on_a_stage(rt.alloc(), stays_painted) == Ok(true));
}
