//! Laws of the definitions. Each function is empty: its contract is the law.

ghost use Rattle.kept_tiles.specs.Showing.{WorkKeepsOneKey, WorkShows};

/// Once the work on tiles with keys of their own is done, and kept tiles are sound, each of them shows its entries; and no
/// key is kept twice. It does nothing.
pub fn work_laws()
    ensures shows { WorkShows }
    ensures keys { WorkKeepsOneKey }
{}
