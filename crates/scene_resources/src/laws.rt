//! What holds of resources from a scene to the next. Each function is empty: its contract is the law.

ghost use Rattle.scene_resources.specs.Laws.{NextCounterIsABound, StoresAgree, TilesStaySound, TilesAreSoundAbove};
ghost use Rattle.scene_resources.specs.Laws.{SlicesAreCurrent};

/// A transaction gives each resource that it adds or updates a generation above the last one, so kept tiles that were sound
/// stay sound. It does nothing.
pub fn next_laws()
    ensures next { NextCounterIsABound }
    ensures agrees { StoresAgree }
    ensures sound { TilesStaySound }
    ensures below { TilesAreSoundAbove }
{}

/// The slices of a scene use the images and masks that it stores. It does nothing.
pub fn slice_resource_laws()
    ensures stored { SlicesAreCurrent }
{}
