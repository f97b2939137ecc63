//! What holds of entries and of top items. Each function is empty: its contract is the law.

ghost use Rattle.scene_flatten.specs.Laws.{ItemEntriesAreRows, ItemEntriesPaint, PipelineEntriesPaint};
ghost use Rattle.scene_flatten.specs.Laws.{TopsAreShallow, TopsHaveFewEntries};
ghost use Rattle.scene_flatten.specs.Laws.{TopPaintsItsItem, TopsHaveTheirClips, TopsPaintTheirItems, TopsPaintTheRoot};

/// Entries that run over a stack give what the painter gives of their items, and are primitives and whole
/// groups. It does nothing.
pub fn entry_laws()
    ensures item { ItemEntriesPaint }
    ensures pipeline { PipelineEntriesPaint }
    ensures rows { ItemEntriesAreRows }
{}

/// The entries of top items give what the painter gives of them, and all of a scene's what its root pipeline
/// gives; they keep within the limits of a scene. It does nothing.
pub fn flat_laws()
    ensures top { TopPaintsItsItem }
    ensures tops { TopsPaintTheirItems }
    ensures root { TopsPaintTheRoot }
    ensures clips { TopsHaveTheirClips }
    ensures shallow { TopsAreShallow }
    ensures few { TopsHaveFewEntries }
{}
