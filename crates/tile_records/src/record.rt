//! Records of tiles.

ghost use Rattle.std.specs.Prelude.{◌≡◌, []};
ghost use Rattle.tile_records.specs.Interning.{ids_keys, record_keys};
ghost use Rattle.tile_records.specs.Counts.{lowered_all, IsReleased, Moves};

use crate::{Id, Interner};

/// What a tile is drawn from: the entries of a slice that matter in it, in their order, each by its id.
#[derive(Debug, Drop)]
pub struct TileRecord {
    /// In the order in which they are drawn.
    pub ids: Vec<Id>,
}

/// Holds each id once less.
fn lower_each(interner: &mut Interner, ids: &[Id])
    ensures { interner.new ≡ lowered_all interner.old (ids_keys ids.now) }
{
    for id in ids {
        interner.lower(*id);
    }
}

/// Releases each id as often as a record names it. It takes no memory.
pub fn give_up(interner: &mut Interner, old: TileRecord)
    ensures counts { IsReleased interner.old interner.new (record_keys old) }
    ensures moves { Moves interner.old interner.new (record_keys old) [] }
{
    lower_each(interner, old.ids.as_slice());
}
