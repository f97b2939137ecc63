//! What joins slices, kept tiles and frames. Each function is empty: its contract is the law.

ghost use Rattle.shown_frames.specs.Laws.{TilesPaintSlices, TilesAreApart, TilesAreFew, TilesAreCurrent};
ghost use Rattle.shown_frames.specs.Laws.{ViewsAreViewParts, PictureSlicesAreViewParts};
ghost use Rattle.shown_frames.specs.Laws.{SlicesCanBeShown, SlicesArePlaced, SoundTilesCanBeShown};

/// Tiles that show the entries of slices compose to the slices' picture. The tiles of a frame are few, and each has a key
/// of its own. Their entries use what is stored now where those of the slices do. It does nothing.
pub fn frame_laws()
    ensures composed { TilesPaintSlices }
    ensures apart { TilesAreApart }
    ensures few { TilesAreFew }
    ensures current { TilesAreCurrent }
{}

/// Slices of a view can be shown by tiles and placed in planes of its sides, and sound tiles can be composed. It does nothing.
pub fn showing_laws()
    ensures view { ViewsAreViewParts }
    ensures parts { PictureSlicesAreViewParts }
    ensures shown { SlicesCanBeShown }
    ensures placed { SlicesArePlaced }
    ensures tiles { SoundTilesCanBeShown }
{}
