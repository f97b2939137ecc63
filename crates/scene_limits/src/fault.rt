//! The first limit that a scene breaks.

ghost use Rattle.std.specs.Prelude.{◌≡◌, IfOk};
ghost use Rattle.scene_limits.specs.Limits.{scene_fault};

use crate::marks::reached;
use crate::places::is_scene_far;
use crate::totals::{are_large, go_deep, scene_totals};
use pipelines::Pipelines;
use std::alloc::Global;
use wr_geom::NoMemory;
use wr_io::Code;

/// The first limit of the expanded scene that is broken, or none: `TooDeep` where more than 64 contexts nest,
/// an item has more than 255 clips, or a node of a drawn pipeline is more than 2^27 pixels from (0, 0) on an
/// axis; else `TooManyItems` where there are more than 65,536 items, 1,048,576 glyphs or 1,048,576 clips.
#[tactic(auto, using(crate::proofs::Refusals::limits), unfolding(crate::specs::Limits::scene_fault))]
pub fn scene_fault(alloc: Global, pipelines: &Pipelines) -> Result<Option<Code>, NoMemory>
    ensures { IfOk result (λ fault. fault ≡ scene_fault pipelines.now) }
{
    let reached = reached(pipelines);
    let totals = scene_totals(pipelines, &reached);
    if go_deep(totals) || is_scene_far(alloc, pipelines, &reached)? {
        return Ok(Some(Code::TooDeep));
    }
    if are_large(totals) {
        return Ok(Some(Code::TooManyItems));
    }
    Ok(None)
}
