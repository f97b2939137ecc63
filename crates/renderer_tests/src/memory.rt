//! Transactions that are applied again after memory ran out.

use crate::pixels::is_painted;
use crate::rolled_ops::{first, rolled_ops, rolled_scene};
use crate::rolls::Rolls;
use crate::stage::{Stage, on_a_stage};
use renderer::Answer;
use wr_geom::NoMemory;

/// Applies a payload, and again where memory runs out. The last frame is painted then.
fn apply_again(stage: &mut Stage, payload: &[u8]) -> Result<Option<Answer>, NoMemory> {
    let opened = stage.renderer.opened();
    match stage.apply(payload) {
        Ok(answer) => Ok(answer),
        Err(_) => {
            let is_so = opened == 0 || is_painted(&stage.renderer, 7);
            stage.expect(is_so);
            stage.apply(payload)
        }
    }
}

/// Shows a rolled list, and then the change of another seed.
fn show_both(stage: &mut Stage) -> Result<(), NoMemory> {
    let mut rolls = Rolls::new(3);
    first(stage)?;
    let list = rolled_scene(stage, &mut rolls, 0)?.finish(true)?;
    let listed = apply_again(stage, list.as_slice())?;
    stage.expect(listed.is_some());
    stage.expect_sample();
    let change = rolled_ops(stage, &mut rolls)?.finish(true)?;
    let changed = apply_again(stage, change.as_slice())?;
    stage.expect(changed.is_some());
    stage.expect_sample();
    Ok(())
}

#[test]
fn a_frame_is_shown_again_after_memory_ran_out(rt: HostRuntime) {
    let shown = on_a_stage(rt.alloc(), show_both);
    assert!(rt; shown == Ok(true) || shown == Err(NoMemory));
}
