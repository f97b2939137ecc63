//! What holds of this crate's definitions in every display list. Each function is empty: its contract is
//! the law.

ghost use Rattle.spatial_tree.specs.Laws.{OffsetOfRoot, OffsetFromParent, OffsetsAreNear, OffsetsMoveWithOrigin, TableHasOffsets, TableHasAll, TableIsNear};
ghost use Rattle.spatial_tree.specs.Laws.{RootIsNotScrolled, ScrollFromParent};
ghost use Rattle.spatial_tree.specs.Laws.{ClipsOfNone, ClipsAfterParents, ClipForEachNumber, ClipsAreFew, ClipsAreCounted, ClipsAreClips};

/// Offsets follow from a node's parent, move with the root's, and stay near; the table has them all.
pub fn offset_laws()
    ensures root { OffsetOfRoot }
    ensures parent { OffsetFromParent }
    ensures near { OffsetsAreNear }
    ensures moved { OffsetsMoveWithOrigin }
    ensures table { TableHasOffsets }
    ensures all { TableHasAll }
    ensures near_table { TableIsNear }
{}

/// The outermost scroll frame of a node follows from its parent's.
pub fn scroll_laws()
    ensures root { RootIsNotScrolled }
    ensures parent { ScrollFromParent }
{}

/// A chain's clips stand after its parent's; there are at most 255, and each meets the checks of clips.
pub fn chain_laws()
    ensures none { ClipsOfNone }
    ensures parents { ClipsAfterParents }
    ensures each { ClipForEachNumber }
    ensures few { ClipsAreFew }
    ensures counted { ClipsAreCounted }
    ensures clips { ClipsAreClips }
{}
