//! How many tiles stay.

use crate::list_bytes::ListBytes;
use crate::stage::{RED, Stage, on_a_stage};
use wr_geom::NoMemory;

/// Shows four tiles twice, of which so many stay, at these costs.
fn show_twice(stage: &mut Stage, budget: u32, tiles: u32, costs: [u64; 2]) -> Result<(), NoMemory> {
    let mut list = ListBytes::new(stage.alloc());
    list.solid([0, 0, 128, 128], RED)?;
    let mut ops = stage.ops(0);
    ops.set_view(128, 128, [0, 0, 0, 255])?;
    ops.set_policy(64, budget)?;
    ops.set_list(list)?;
    stage.show(ops, tiles, costs[0])?;
    let again = stage.ops(0);
    stage.show(again, tiles, costs[1])?;
    stage.expect_pixel(0, 0, RED);
    stage.expect_pixel(127, 127, RED);
    Ok(())
}

fn keeps_all(stage: &mut Stage) -> Result<(), NoMemory> {
    show_twice(stage, 64, 4, [16384, 0])
}

#[test]
fn tiles_within_the_budget_stay(rt: HostRuntime) {
    assert!(rt; on_a_stage(rt.alloc(), keeps_all) == Ok(true));
}

fn keeps_one(stage: &mut Stage) -> Result<(), NoMemory> {
    show_twice(stage, 1, 1, [16384, 12288])
}

#[test]
fn tiles_over_the_budget_are_drawn_again(rt: HostRuntime) {
    assert!(rt; on_a_stage(rt.alloc(), keeps_one) == Ok(true));
}
