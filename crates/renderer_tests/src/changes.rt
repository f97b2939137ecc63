//! What a changed list costs.

use crate::list_bytes::ListBytes;
use crate::stage::{RED, Stage, on_a_stage};
use wr_geom::NoMemory;

/// Shows a red square from a column on.
fn show_square(stage: &mut Stage, x: i32, drawn: u64) -> Result<(), NoMemory> {
    let mut list = ListBytes::new(stage.alloc());
    list.solid([x, 0, x.saturating_add(4), 4], RED)?;
    let mut ops = stage.ops(0);
    ops.set_view(64, 64, [0, 0, 0, 255])?;
    ops.set_policy(64, 64)?;
    ops.set_list(list)?;
    stage.show(ops, 1, drawn)
}

/// Whether a moved square costs what it left and has now, and the same list nothing.
fn moves_a_square(stage: &mut Stage) -> Result<(), NoMemory> {
    show_square(stage, 0, 4096)?;
    show_square(stage, 8, 48)?;
    let opened = stage.renderer.opened();
    show_square(stage, 8, 0)?;
    let after = stage.renderer.opened();
    stage.expect(opened == after && opened == 4144);
    Ok(())
}

#[test]
fn a_moved_square_costs_its_dirt(rt: HostRuntime) {
    assert!(rt; on_a_stage(rt.alloc(), moves_a_square) == Ok(true));
}

/// Whether a list without items shows the view's colour.
fn shows_nothing(stage: &mut Stage) -> Result<(), NoMemory> {
    let mut ops = stage.ops(0);
    ops.set_view(2, 1, [1, 2, 3, 4])?;
    ops.set_list_bytes(&[0])?;
    stage.show(ops, 0, 0)?;
    stage.expect_pixel(0, 0, [1, 2, 3, 4]);
    stage.expect_pixel(1, 0, [1, 2, 3, 4]);
    Ok(())
}

#[test]
fn an_empty_list_keeps_no_tile(rt: HostRuntime) {
    assert!(rt; on_a_stage(rt.alloc(), shows_nothing) == Ok(true));
}
