//! Transactions that are refused.

use crate::rolled_ops::{first, rolled_scene};
use crate::rolls::Rolls;
use crate::stage::{Stage, on_a_stage};
use renderer::Renderer;
use wr_geom::NoMemory;

/// How many tiles are kept, how many pixels were drawn in all, the last generation, and the scene's view and budget.
#[derive(Clone, Copy, PartialEq, Eq)]
struct Held {
    tiles: u32,
    opened: u64,
    last: u64,
    view: (u16, u16),
    budget: u32,
}

fn held_by(renderer: &Renderer) -> Held {
    let scene = renderer.scene();
    Held {
        tiles: renderer.tiles().len(),
        opened: renderer.opened(),
        last: renderer.gens().last(),
        view: scene.view(),
        budget: scene.policy().budget,
    }
}

/// A list of an undefined tag, after operations of all kinds.
fn refuse(stage: &mut Stage) -> Result<(), NoMemory> {
    let mut ops = stage.ops(0);
    ops.drop_tiles()?;
    ops.set_view(20, 20, [1, 1, 1, 1])?;
    ops.set_policy(100, 1)?;
    ops.add_glyph(5, 1, 1, &[9])?;
    ops.scroll(1, 40)?;
    ops.set_list_bytes(&[99])?;
    let payload = ops.finish(true)?;
    let answer = stage.apply(payload.as_slice())?;
    stage.expect(answer == None);
    Ok(())
}

/// Shows a rolled list.
fn show_scene(stage: &mut Stage) -> Result<(), NoMemory> {
    first(stage)?;
    let mut rolls = Rolls::new(5);
    let ops = rolled_scene(stage, &mut rolls, 0)?;
    let payload = ops.finish(true)?;
    let answer = stage.apply(payload.as_slice())?;
    stage.expect(answer.is_some());
    stage.expect_painted();
    Ok(())
}

/// Whether scene, tiles and last frame stand after a refusal: the frame is painted, and costs nothing again.
fn stands(stage: &mut Stage) -> Result<(), NoMemory> {
    show_scene(stage)?;
    let before = held_by(&stage.renderer);
    refuse(stage)?;
    let after = held_by(&stage.renderer);
    stage.expect(before == after && before.tiles > 0);
    stage.expect_painted();
    let again = stage.ops(0);
    stage.show(again, before.tiles, 0)
}

#[test]
fn a_refusal_leaves_all(rt: HostRuntime) {
    assert!(rt; on_a_stage(rt.alloc(), stands) == Ok(true));
}

/// Whether a renderer starts with a view of one pixel and no frame.
fn starts(stage: &mut Stage) -> Result<(), NoMemory> {
    let is_empty = stage.renderer.last_frame().is_none();
    let found = held_by(&stage.renderer);
    stage.expect(is_empty && found.tiles == 0 && found.opened == 0 && found.view == (1, 1));
    Ok(())
}

#[test]
fn a_renderer_starts_with_nothing(rt: HostRuntime) {
    assert!(rt; on_a_stage(rt.alloc(), starts) == Ok(true));
}
