ghost use Rattle.std.specs.Prelude.{◌≡◌, ◌↔◌, true};
ghost use Rattle.std.specs.declared.cmp.Ordering.TheVariants.{Equal};
ghost use Rattle.clip_masks.specs.declared.clip.Clip.{Clip as ClipValue};
ghost use Rattle.clip_masks.specs.Laws.{CoverageIsByte, SameClipsAreEqual, ShiftedHasMovedSamples, ShiftedCoversMoved};
ghost use Rattle.clip_masks.specs.Laws.{ChainOfNone, ChainOfBoth, ChainOfNothing, ChainAtMostOuter, ShiftedChainCoversMoved};
ghost use Rattle.clip_masks.specs.Laws.{CutIsInside, ChainBesideCut, ChainWithinCut};

use super::Clip;
use std::cmp::{Ord, PartialEq};

/// What holds of every clip, for whoever reasons about the definitions. It does nothing.
pub fn clip_laws()
    ensures byte { CoverageIsByte }
    ensures same { SameClipsAreEqual }
    ensures moved_samples { ShiftedHasMovedSamples }
    ensures moved_pixels { ShiftedCoversMoved }
{}

/// What holds of every chain of clips, and of a rectangle that one cuts. It does nothing.
pub fn chain_laws()
    ensures none { ChainOfNone }
    ensures both { ChainOfBoth }
    ensures nothing { ChainOfNothing }
    ensures at_most { ChainAtMostOuter }
    ensures moved_pixels { ShiftedChainCoversMoved }
    ensures inside { CutIsInside }
    ensures beside { ChainBesideCut }
    ensures within { ChainWithinCut }
{}

/// `==` and the order of clips tell different ones apart. It does nothing.
pub fn clip_order_laws()
    ensures equality { (a b : ClipValue) → (⟦<Clip as PartialEq>⟧.eq a b ≡ true) ↔ (a ≡ b) }
    ensures order { (a b : ClipValue) → (⟦<Clip as Ord>⟧.cmp a b ≡ Equal) ↔ (a ≡ b) }
{}
