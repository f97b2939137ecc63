ghost use Rattle.blend_rules.specs.Colour.{HasBytes, IsPremultiplied, IsPixel};
ghost use Rattle.blend_rules.specs.Laws.{ProductByFull, ProductOfFull, ProductByNone, ProductOfNone, ProductAtMostFirst, ProductAtMostSecond};
ghost use Rattle.blend_rules.specs.Laws.{ScaledByFull, ScaledByNone, ScaledIsPremultiplied, ScaledIsPixel};
ghost use Rattle.blend_rules.specs.Laws.{BlendIsPremultiplied, BlendIsPixel, ClearSourceLeaves, ClearBackdropShows, OpaqueCovers, NormalNeedsNoLimit};
ghost use Rattle.blend_rules.specs.Laws.{PixelsOfTheirBytes, BytesOfTheirPixels};

use super::Px;

/// What holds of every product, for whoever reasons about the definitions. It does nothing.
pub fn product_laws()
    ensures by_full { ProductByFull }
    ensures of_full { ProductOfFull }
    ensures by_none { ProductByNone }
    ensures of_none { ProductOfNone }
    ensures at_most_first { ProductAtMostFirst }
    ensures at_most_second { ProductAtMostSecond }
{}

/// What holds of every scaled colour. It does nothing.
pub fn scale_laws()
    ensures by_full { ScaledByFull }
    ensures by_none { ScaledByNone }
    ensures premultiplied { ScaledIsPremultiplied }
    ensures pixel { ScaledIsPixel }
{}

/// What holds of every blend. It does nothing.
pub fn blend_laws()
    ensures premultiplied { BlendIsPremultiplied }
    ensures pixel { BlendIsPixel }
    ensures clear_source { ClearSourceLeaves }
    ensures clear_backdrop { ClearBackdropShows }
    ensures opaque { OpaqueCovers }
    ensures no_limit { NormalNeedsNoLimit }
{}

/// What holds of rows of pixels and the bytes that spell them. It does nothing.
pub fn pixel_laws()
    ensures pixels { PixelsOfTheirBytes }
    ensures bytes { BytesOfTheirPixels }
{}

/// What the type of a colour knows of its bytes, for whoever reads one out of memory. It does
/// nothing.
pub fn know_bytes(p: Px)
    ensures bytes { HasBytes p }
    ensures pixel { IsPremultiplied p → IsPixel p }
{}
