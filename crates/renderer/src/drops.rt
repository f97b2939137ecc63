//! Which transactions give all kept tiles up.

ghost use Rattle.std.specs.Prelude.{◌≡◌, ◌||◌};
ghost use Rattle.txn_format.specs.Models.{op_model, placed_models};
ghost use Rattle.kept_tiles.specs.Tiles.{kept_of};
ghost use Rattle.renderer.specs.Drops.{any_gives_up, gives_up, has_sides, policy_after, sides_of, tiles_left};

use kept_tiles::KeptTiles;
use scene_state::Policy;
use tile_grid::TileSides;
use txn_format::{Op, Placed, Txn};

/// The sides of a policy's tiles.
pub(crate) fn sides_of(policy: Policy) -> TileSides
    ensures { result ≡ sides_of policy }
{
    TileSides {
        width: policy.tw,
        height: policy.th,
    }
}

/// Whether a policy's tiles have these sides.
pub(crate) fn has_sides(policy: Policy, tw: u16, th: u16) -> bool
    ensures { result ≡ has_sides policy tw th }
{
    policy.tw == tw && policy.th == th
}

/// The policy after an operation.
fn policy_after(op: Op<'_>, policy: Policy) -> Policy
    ensures { result ≡ policy_after (op_model op.entry) policy }
{
    match op {
        Op::TilePolicy { tw, th, budget } => Policy { tw, th, budget },
        Op::SetList { .. }
        | Op::RemovePipeline
        | Op::Scroll { .. }
        | Op::SetOffset { .. }
        | Op::SetOpacity { .. }
        | Op::AddImage { .. }
        | Op::UpdateImage { .. }
        | Op::DeleteImage { .. }
        | Op::AddGlyph { .. }
        | Op::DeleteFont { .. }
        | Op::SetView { .. }
        | Op::DropTiles => policy,
    }
}

/// Whether an operation under this policy gives all tiles up.
fn gives_up(op: Op<'_>, policy: Policy) -> bool
    ensures { result ≡ gives_up (op_model op.entry) policy }
{
    match op {
        Op::DropTiles => true,
        Op::TilePolicy { tw, th, .. } => !has_sides(policy, tw, th),
        Op::SetList { .. }
        | Op::RemovePipeline
        | Op::Scroll { .. }
        | Op::SetOffset { .. }
        | Op::SetOpacity { .. }
        | Op::AddImage { .. }
        | Op::UpdateImage { .. }
        | Op::DeleteImage { .. }
        | Op::AddGlyph { .. }
        | Op::DeleteFont { .. }
        | Op::SetView { .. } => false,
    }
}

/// Whether one of some operations, the first of them under this policy, gives all tiles up.
fn any_gives_up(ops: &[Placed<'_>], policy: Policy) -> bool
    ensures { result ≡ any_gives_up (placed_models ops.now) policy }
{
    let mut is_given_up = false;
    let mut now = policy;
    for placed in ops {
        is_given_up = is_given_up || gives_up(placed.op, now);
        now = policy_after(placed.op, now);
    }
    is_given_up
}

/// Gives all kept tiles up, if a transaction does so under this policy. It takes no memory.
pub(crate) fn drop_tiles(kept: &mut KeptTiles, txn: &Txn<'_>, policy: Policy)
    ensures kept { kept_of kept.new ≡ tiles_left txn.now policy (kept_of kept.old) }
    ensures opened { kept.new.store.opened ≡ kept.old.store.opened }
{
    if any_gives_up(txn.ops(), policy) {
        kept.trim(0);
    }
}
