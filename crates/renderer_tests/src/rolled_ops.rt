//! Transactions made from a seed.

use crate::ops::Ops;
use crate::rolled_lists::{rolled_inner, rolled_root};
use crate::rolls::Rolls;
use crate::stage::Stage;
use std::alloc::AllocError;
use wr_geom::NoMemory;

/// The first transaction: a view, what is stored, and small tiles.
pub fn first(stage: &mut Stage) -> Result<(), NoMemory> {
    let mut ops = stage.ops(0);
    ops.set_view(90, 80, [30, 30, 30, 60])?;
    ops.set_policy(64, 12)?;
    ops.add_glyph(5, 2, 2, &[200, 255, 10, 0])?;
    ops.add_glyph(6, 4, 1, &[1, 255, 90, 128])?;
    stage.accept(ops)
}

/// Another policy: tiles of other sides or another budget.
fn set_policy(ops: &mut Ops, rolls: &mut Rolls) -> Result<(), AllocError> {
    let side = rolls.one_of([64, 64, 64, 100]);
    let budget = u32::from(rolls.one_of([1, 3, 12, 40]));
    ops.set_policy(side, budget)
}

/// Another view.
fn set_view(ops: &mut Ops, rolls: &mut Rolls) -> Result<(), AllocError> {
    let height = u16::from(rolls.below(30)) + 70;
    let clear = rolls.colour();
    ops.set_view(90, height, clear)
}

/// An operation that pipeline 0 alone has, or a mask.
fn rolled_root_op(ops: &mut Ops, rolls: &mut Rolls) -> Result<(), AllocError> {
    match rolls.below(6) {
        0 => set_policy(ops, rolls),
        1 => set_view(ops, rolls),
        2 => ops.drop_tiles(),
        3 => ops.delete_font(),
        _ => ops.add_glyph(5, 1, 1, &[rolls.below(255)]),
    }
}

/// A move or a property.
fn rolled_move(ops: &mut Ops, rolls: &mut Rolls) -> Result<(), AllocError> {
    match rolls.below(4) {
        0 => ops.set_opacity(1, rolls.below(255)),
        1 => ops.set_offset(2, u32::from(rolls.below(40))),
        2 => ops.scroll(1, u32::from(rolls.below(90))),
        _ => ops.scroll(2, u32::from(rolls.below(90))),
    }
}

/// Stores an image of two by two texels, where none is stored; changes a texel of it or deletes it where one is.
fn rolled_image(ops: &mut Ops, rolls: &mut Rolls, is_stored: bool) -> Result<(), AllocError> {
    let [b, g, r, a] = rolls.colour();
    if !is_stored {
        let texels = [b, g, r, a, 4, 5, 6, 7, 0, 0, 0, 0, 9, 0, 200, 255];
        return ops.add_image(9, 2, 2, &texels);
    }
    if rolls.below(3) == 0 {
        return ops.delete_image(9);
    }
    ops.update_texel(9, 1, 0, [b, g, r, a])
}

/// Another list.
fn rolled_list(
    stage: &Stage,
    ops: &mut Ops,
    rolls: &mut Rolls,
    pipeline: u8,
) -> Result<(), AllocError> {
    let list = if pipeline == 0 {
        rolled_root(stage.alloc(), rolls)?
    } else {
        rolled_inner(stage.alloc(), rolls)?
    };
    ops.set_list(list)
}

/// An operation of any kind.
fn rolled_op(
    stage: &Stage,
    ops: &mut Ops,
    rolls: &mut Rolls,
    pipeline: u8,
) -> Result<(), AllocError> {
    let is_stored = stage.renderer.scene().store().image(pipeline, 9).is_some();
    match rolls.below(8) {
        0 => rolled_list(stage, ops, rolls, pipeline),
        1 | 2 => rolled_image(ops, rolls, is_stored),
        3 if pipeline == 0 => rolled_root_op(ops, rolls),
        3 if rolls.below(3) == 0 => ops.remove_pipeline(),
        _ => rolled_move(ops, rolls),
    }
}

/// The operations of a transaction: one of a kind, and a move.
pub fn rolled_ops(stage: &Stage, rolls: &mut Rolls) -> Result<Ops, AllocError> {
    let pipeline = u8::from(rolls.below(3) == 0);
    let mut ops = stage.ops(pipeline);
    rolled_op(stage, &mut ops, rolls, pipeline)?;
    rolled_move(&mut ops, rolls)?;
    Ok(ops)
}

/// The operations that set a list of a pipeline.
pub fn rolled_scene(stage: &Stage, rolls: &mut Rolls, pipeline: u8) -> Result<Ops, AllocError> {
    let mut ops = stage.ops(pipeline);
    rolled_list(stage, &mut ops, rolls, pipeline)?;
    Ok(ops)
}
