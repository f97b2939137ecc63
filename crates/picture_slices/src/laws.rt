//! What holds of slices. Each function is empty: its contract is the law.

ghost use Rattle.picture_slices.specs.Laws.{SlicesAreGood, SlicesHaveTheKeys};
ghost use Rattle.picture_slices.specs.Laws.{SlicesAreShallow, SlicesHaveFewEntries};
ghost use Rattle.picture_slices.specs.Laws.{ShownIsWhatTopsPaint, TopsPaintNothingElse};
ghost use Rattle.picture_slices.specs.Laws.{SlicePaintsItsTops, SlicesPaintTheTops};

/// The slices of a picture are at most eight, with keys of their own, and good to draw. It does nothing.
pub fn slice_laws()
    ensures good { SlicesAreGood }
    ensures keys { SlicesHaveTheKeys }
    ensures shallow { SlicesAreShallow }
    ensures few { SlicesHaveFewEntries }
{}

/// At each point of the view slices paint what their tops paint there. It does nothing.
pub fn value_laws()
    ensures shown { ShownIsWhatTopsPaint }
    ensures nothing_else { TopsPaintNothingElse }
    ensures slice { SlicePaintsItsTops }
    ensures slices { SlicesPaintTheTops }
{}
