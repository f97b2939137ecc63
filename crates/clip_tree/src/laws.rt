//! What holds of placed clips in every display list. The function is empty: its contract is the law.

ghost use Rattle.clip_tree.specs.Laws.{PlacedOfNone, NoneLeavesAll, PlacedAfterParents, EmptyChainIsItsParent, PlacedForEachNumber, PlacedAreFew, PlacedByTable, PlacedMoveWithNodes};

/// A chain's clips stand after its parent's; there are at most 255, as many as their numbers; the table of
/// offsets places them as the nodes' offsets do, and they move with the nodes.
pub fn placed_laws()
    ensures none { PlacedOfNone }
    ensures all { NoneLeavesAll }
    ensures parents { PlacedAfterParents }
    ensures empty { EmptyChainIsItsParent }
    ensures each { PlacedForEachNumber }
    ensures few { PlacedAreFew }
    ensures table { PlacedByTable }
    ensures moved { PlacedMoveWithNodes }
{}
