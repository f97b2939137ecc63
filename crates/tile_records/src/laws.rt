//! Laws of the definitions. Each function is empty: its contract is the law.

ghost use Rattle.tile_records.specs.Laws.{PickedOfNothing, PickedOfPrimitive, PickedOfGroup, PickedHasValues, PickedIsBalanced, PickedIsShallow, PickedAreEntries};
ghost use Rattle.tile_records.specs.Laws.{MiddlesMatterInside, DirtIsEnough, NothingIsStale, SameIsClean, DirtIsInTile};
ghost use Rattle.tile_records.specs.Laws.{AcquiredInParts, MovesInParts, HeldStay, ClaimedStay, CoveredAreHeld};

use primitives::entry_order_laws;

/// What is picked of a slice's entries for a tile has all that matters there. It does nothing.
pub fn picking_laws()
    ensures nothing { PickedOfNothing }
    ensures primitive { PickedOfPrimitive }
    ensures group { PickedOfGroup }
    ensures values { PickedHasValues }
    ensures balanced { PickedIsBalanced }
    ensures shallow { PickedIsShallow }
    ensures entries { PickedAreEntries }
{}

/// Outside of the dirt of two records nothing is stale. It does nothing.
pub fn dirt_laws()
    ensures middles { MiddlesMatterInside }
    ensures enough { DirtIsEnough }
    ensures stale { NothingIsStale }
    ensures same { SameIsClean }
    ensures tile { DirtIsInTile }
{
    entry_order_laws();
}

/// Ids may be held and released part by part, and those that others hold stay. It does nothing.
pub fn holding_laws()
    ensures acquired { AcquiredInParts }
    ensures moves { MovesInParts }
    ensures held { HeldStay }
    ensures claimed { ClaimedStay }
    ensures covered { CoveredAreHeld }
{}
