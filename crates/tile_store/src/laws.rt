ghost use Rattle.tile_store.specs.Keys.{SameKeysAreEqual};
ghost use Rattle.tile_store.specs.Laws.{TouchKeepsPixels, SwapKeepsPixels, PutKeepsPixels, RemoveKeepsPixels, PopKeepsPixels, WindowRowChangesAlone};

use crate::store::TileStore;

/// What holds of keys of tiles, for whoever reasons about the definitions. It does nothing.
pub fn key_laws()
    ensures { SameKeysAreEqual }
{}

/// Pixels change only through a window: what each call leaves of the tiles that stay kept. It does nothing.
pub fn pixel_laws<R>(_store: &TileStore<R>)
    ensures touch { TouchKeepsPixels R }
    ensures swap_note { SwapKeepsPixels R }
    ensures put { PutKeepsPixels R }
    ensures remove { RemoveKeepsPixels R }
    ensures pop_over { PopKeepsPixels R }
    ensures row_mut { WindowRowChangesAlone R }
{}
