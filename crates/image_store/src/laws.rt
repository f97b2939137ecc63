//! What holds of stores and of their changes. Each function is empty: its contract is the law.

ghost use Rattle.std.specs.Prelude.{ℕ};
ghost use Rattle.image_store.specs.Models.{ImageModel, MaskModel};
ghost use Rattle.image_store.specs.StoreModel.{StoreModel};
ghost use Rattle.image_store.specs.Laws.{PatchedByTexel, FirstBadIsFirst, NoneIsBad, ImageIsPut, ImageIsGone, GlyphIsPut, FontIsGone};
ghost use Rattle.image_store.specs.Laws.{AddingIsAStep, UpdatingIsAStep, AddingGlyphIsAStep, DeletingIsAStep, DeletingFontIsAStep, StepsKeepBound};

/// What holds of every patched image, and of the first texel that is refused. It does nothing.
pub fn image_laws()
    ensures patched { PatchedByTexel }
    ensures first { FirstBadIsFirst }
    ensures none { NoneIsBad }
{}

/// What stands in a store after a change, at the key that was changed and at others. It does nothing.
pub fn lookup_laws()
    ensures image_put { (p k : ℕ) (image : ImageModel) (store : StoreModel) → ImageIsPut p k image store }
    ensures image_gone { (p k : ℕ) (store : StoreModel) → ImageIsGone p k store }
    ensures glyph_put { (p f g : ℕ) (mask : MaskModel) (store : StoreModel) → GlyphIsPut p f g mask store }
    ensures font_gone { (p f : ℕ) (store : StoreModel) → FontIsGone p f store }
{}

/// Each change brings nothing but what has the new generation, and none is above the counter. It does
/// nothing.
pub fn generation_laws()
    ensures added { AddingIsAStep }
    ensures updated { UpdatingIsAStep }
    ensures glyph_added { AddingGlyphIsAStep }
    ensures deleted { DeletingIsAStep }
    ensures font_deleted { DeletingFontIsAStep }
    ensures bound { StepsKeepBound }
{}
