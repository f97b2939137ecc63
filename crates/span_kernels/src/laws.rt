//! What the bytes that kernels leave have to do with colours. Each function is empty: its contract is the law.

ghost use Rattle.span_kernels.specs.Laws.{OverByPlane, ScaledByPlane, MaskedByPlane, BlendedByPlane, BlendedAlpha, WovenPixels};

/// Each kernel's byte is the one that the colour rule gives in that plane. It does nothing.
pub fn kernel_laws()
    ensures over { OverByPlane }
    ensures scaled { ScaledByPlane }
    ensures masked { MaskedByPlane }
    ensures blended { BlendedByPlane }
    ensures alpha { BlendedAlpha }
    ensures woven { WovenPixels }
{}
