//! Laws of the definitions. Each function is empty: its contract is the law.

ghost use Rattle.std.specs.Prelude.{◌≡◌, ◌<◌, ◌^◌, true};
ghost use Rattle.primitives.specs.Facts.{IsEntry};
ghost use Rattle.primitives.specs.PrimitiveModel.{IsPrimitive};
ghost use Rattle.blend_rules.specs.declared.mode.Mode.{Mode as ModeValue};
ghost use Rattle.containers.specs.Laws.{TellsEqual, TiesEqual};
ghost use Rattle.primitives.specs.declared.entry.Entry.{Entry as EntryValue};
ghost use Rattle.primitives.specs.declared.kind.GlyphUse.{GlyphUse as GlyphValue};
ghost use Rattle.primitives.specs.declared.kind.Kind.{Kind as KindValue};
ghost use Rattle.primitives.specs.Laws.{ColourIsPixel, CoveredIsPixel, ClearWhereNotVisible, OpaqueIsFull, OpaqueReplaces};
ghost use Rattle.primitives.specs.Laws.{ShiftedHasColours, ShiftedHasCoveredColours, ShiftedSteps, ShiftedRuns, ShiftedIsVisible};
ghost use Rattle.primitives.specs.Laws.{FullClipsDoNothing, RunsInParts, BalancedLeavesGroups, BalancedKnowsTopAlone};
ghost use Rattle.primitives.specs.Laws.{RowsLeaveRoom, RoomIsEnough, ShiftedIsShallow, FewerClipsAreShallow};
ghost use Rattle.primitives.specs.Laws.{RowsAreBalanced, RunKeepsPixels, HiddenLeavesStack, HiddenListLeavesStack};

use crate::{Entry, GlyphUse, Kind, Primitive};
use blend_rules::Mode;
use clip_masks::{Clip, clip_order_laws};
use containers::sequence_laws;
use std::cmp::{Ord, PartialEq};

/// What holds of the colours of primitives, for whoever reasons about the definitions. It does nothing.
pub fn colour_laws()
    ensures pixel { ColourIsPixel }
    ensures covered { CoveredIsPixel }
    ensures not_visible { ClearWhereNotVisible }
    ensures full { OpaqueIsFull }
    ensures replaces { OpaqueReplaces }
{}

/// Moved primitives and entries do at moved points what they did. It does nothing.
pub fn shift_laws()
    ensures colours { ShiftedHasColours }
    ensures covered { ShiftedHasCoveredColours }
    ensures steps { ShiftedSteps }
    ensures runs { ShiftedRuns }
    ensures visible { ShiftedIsVisible }
{}

/// What holds of entries that run over a stack of colours. It does nothing.
pub fn run_laws()
    ensures parts { RunsInParts }
    ensures full_clips { FullClipsDoNothing }
    ensures groups { BalancedLeavesGroups }
    ensures top { BalancedKnowsTopAlone }
    ensures rows { RowsAreBalanced }
    ensures pixels { RunKeepsPixels }
    ensures hidden { HiddenLeavesStack }
    ensures hidden_list { HiddenListLeavesStack }
{}

/// How deep groups of entries nest. It does nothing.
pub fn nesting_laws()
    ensures rows { RowsLeaveRoom }
    ensures enough { RoomIsEnough }
    ensures shifted { ShiftedIsShallow }
    ensures fewer_clips { FewerClipsAreShallow }
{}

/// `==` and the order of entries tell different ones apart. It does nothing.
pub fn entry_order_laws()
    ensures equality { TellsEqual ⟦<Entry as PartialEq>⟧.eq }
    ensures order { TiesEqual ⟦<Entry as Ord>⟧.cmp }
{
    exact_laws::<Entry>();
    entry_equality();
}

/// What the type of an entry knows of it, for whoever reads one out of memory. It does nothing.
pub fn know_entry(entry: &Entry)
    ensures { IsEntry entry.now }
{
    match entry {
        Entry::Primitive(primitive) => know_primitive(primitive),
        Entry::Push { opacity, .. } => know_byte(*opacity),
        Entry::Pop => {}
    }
}

/// What the type of a primitive knows of it. It does nothing.
fn know_primitive(p: &Primitive)
    ensures { IsPrimitive p.now }
{
    let _rect = p.rect();
}

/// A byte is below 256. It does nothing.
fn know_byte(byte: u8)
    ensures { byte < 2 ^ 8 }
{}

/// Where `==` holds of equal values alone, it and the order tell different ones apart. It does nothing.
fn exact_laws<T: Ord>()
    ensures equality { ((a b : T) → T.eq a b ≡ true → a ≡ b) → TellsEqual T.eq }
    ensures order { ((a b : T) → T.eq a b ≡ true → a ≡ b) → TiesEqual T.cmp }
{}

/// `==` tells different glyphs apart. It does nothing.
fn glyph_equality()
    ensures { (a b : GlyphValue) → ⟦<GlyphUse as PartialEq>⟧.eq a b ≡ true → a ≡ b }
{}

/// `==` tells different modes apart. It does nothing.
fn mode_equality()
    ensures { (a b : ModeValue) → ⟦<Mode as PartialEq>⟧.eq a b ≡ true → a ≡ b }
{}

/// `==` tells different kinds apart. It does nothing.
fn kind_equality()
    ensures { (a b : KindValue) → ⟦<Kind as PartialEq>⟧.eq a b ≡ true → a ≡ b }
{
    exact_laws::<GlyphUse>();
    sequence_laws::<GlyphUse>();
    glyph_equality();
}

/// `==` tells different entries apart. It does nothing.
fn entry_equality()
    ensures { (a b : EntryValue) → ⟦<Entry as PartialEq>⟧.eq a b ≡ true → a ≡ b }
{
    clip_order_laws();
    sequence_laws::<Clip>();
    mode_equality();
    kind_equality();
}
