//! Clones that equal their source.

ghost use Rattle.std.specs.Prelude.{Some, None, refl};
ghost use Rattle.std.proofs.Common.{rules};

/// A type whose clones equal their source.
pub trait Exact: Clone {
    ghost use Rattle.std.specs.Prelude.{◌≡◌};

    ghost exact: { (x y : Self) → Self.is_clone x y → y ≡ x };
}

impl Exact for bool {
    ghost exact = { λ x y e. e };
}

impl Exact for u8 {
    ghost exact = { λ x y e. e };
}

impl Exact for u16 {
    ghost exact = { λ x y e. e };
}

impl Exact for u32 {
    ghost exact = { λ x y e. e };
}

impl Exact for u64 {
    ghost exact = { λ x y e. e };
}

impl Exact for usize {
    ghost exact = { λ x y e. e };
}

impl Exact for i32 {
    ghost exact = { λ x y e. e };
}

impl<A: Exact, B: Exact> Exact for (A, B) {
    ghost exact = { λ x y e i. (A.exact x.0 y.0 e.0 i, B.exact x.1 y.1 e.1 i) };
}

impl<T: Exact> Exact for Option<T> {
    ghost exact = { elim [ None ↦ elim [ None ↦ λ h. refl | Some b ↦ λ h. Prim.search rules ] | Some a ↦ elim [ None ↦ λ h. Prim.search rules | Some b ↦ λ h. Prim.search rules ] ] };
}
