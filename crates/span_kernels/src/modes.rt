//! The modes on sixteen bytes of a colour plane. Each value is a difference of two sums, held below the alpha of both.

ghost use Rattle.std.specs.Prelude.{◌≡◌, ◌-◌, ◌*◌, slice_index, min, nat_le, if◌then◌else◌};
ghost use Rattle.blend_rules.specs.Colour.{alpha_sum, blended_channel, dark_value, light_value};
ghost use Rattle.blend_rules.specs.declared.mode.Mode.{Mode};
ghost use Rattle.blend_rules.specs.declared.mode.Mode.TheVariants.{Multiply, Screen, Overlay, Darken, Lighten, HardLight, Difference, Exclusion};
ghost use Rattle.span_kernels.specs.Lanes.{AreLanes, IsBelow};

use crate::lanes::{
    choose_lanes, excess_lanes, four_lanes, greater_lanes, lesser_lanes, limited_lanes, over_lanes,
    product_lanes, rest_lanes, two_lanes,
};
use blend_rules::Mode;
use std::simd::prelude::*;

/// A mode on sixteen bytes of a colour plane, and its name.
pub(crate) trait ModeLanes {
    ghost named: { Mode };

    fn mode() -> Mode
        ensures { result ≡ named };

    /// `s` over `d` under the alphas `sa` and `da`.
    fn blend(sa: u8x16, da: u8x16, s: u8x16, d: u8x16) -> u8x16
        requires source { IsBelow s sa }
        requires backdrop { IsBelow d da }
        ensures { AreLanes result (λ k. blended_channel named
            (slice_index sa k) (slice_index da k) (slice_index s k) (slice_index d k)) };
}

/// By how much a sum exceeds another, between 0 and the alpha of `sa` over `da`.
#[inline(always)]
fn held(sa: u8x16, da: u8x16, more: u16x16, less: u16x16) -> u8x16
    ensures { AreLanes result (λ k. min (alpha_sum (slice_index sa k) (slice_index da k))
        (slice_index more k - slice_index less k)) }
{
    limited_lanes(over_lanes(sa, sa, da), rest_lanes(more, less))
}

/// No byte.
#[inline(always)]
fn none() -> u8x16
    ensures { AreLanes result (λ _. 0) }
{
    u8x16::splat(0)
}

/// The product of both, beside each where the other is not.
#[derive(Clone, Copy, Drop)]
pub(crate) struct MultiplyLanes;

impl ModeLanes for MultiplyLanes {
    ghost named = { Multiply };

    #[inline(always)]
    fn mode() -> Mode {
        Mode::Multiply
    }

    #[inline(always)]
    fn blend(sa: u8x16, da: u8x16, s: u8x16, d: u8x16) -> u8x16 {
        let more = four_lanes(s, d, product_lanes(s, d), none());
        let less = two_lanes(product_lanes(s, da), product_lanes(d, sa));
        held(sa, da, more, less)
    }
}

/// Both, less their product.
#[derive(Clone, Copy, Drop)]
pub(crate) struct ScreenLanes;

impl ModeLanes for ScreenLanes {
    ghost named = { Screen };

    #[inline(always)]
    fn mode() -> Mode {
        Mode::Screen
    }

    #[inline(always)]
    fn blend(sa: u8x16, da: u8x16, s: u8x16, d: u8x16) -> u8x16 {
        let less = two_lanes(product_lanes(d, s), none());
        held(sa, da, two_lanes(s, d), less)
    }
}

/// Dark where `x` is at most half of `xa`, and else light.
#[inline(always)]
fn contrast(sa: u8x16, da: u8x16, s: u8x16, d: u8x16, x: u8x16, xa: u8x16) -> u8x16
    requires source { IsBelow s sa }
    requires backdrop { IsBelow d da }
    requires tested { IsBelow x xa }
    ensures { AreLanes result (λ k. min (alpha_sum (slice_index sa k) (slice_index da k))
        (if nat_le (2 * slice_index x k) (slice_index xa k)
        then dark_value (slice_index sa k) (slice_index da k) (slice_index s k) (slice_index d k)
        else light_value (slice_index sa k) (slice_index da k) (slice_index s k) (slice_index d k))) }
{
    let left = excess_lanes(xa, x);
    let both = product_lanes(s, d);
    let rest = product_lanes(excess_lanes(da, d), excess_lanes(sa, s));
    let once = choose_lanes(x, left, both, product_lanes(sa, da));
    let again = choose_lanes(x, left, both, none());
    let twice = choose_lanes(x, left, none(), rest);
    let less = four_lanes(product_lanes(s, da), product_lanes(d, sa), twice, twice);
    held(sa, da, four_lanes(s, d, once, again), less)
}

/// Dark or light, as the backdrop is.
#[derive(Clone, Copy, Drop)]
pub(crate) struct OverlayLanes;

impl ModeLanes for OverlayLanes {
    ghost named = { Overlay };

    #[inline(always)]
    fn mode() -> Mode {
        Mode::Overlay
    }

    #[inline(always)]
    fn blend(sa: u8x16, da: u8x16, s: u8x16, d: u8x16) -> u8x16 {
        contrast(sa, da, s, d, d, da)
    }
}

/// The darker of both.
#[derive(Clone, Copy, Drop)]
pub(crate) struct DarkenLanes;

impl ModeLanes for DarkenLanes {
    ghost named = { Darken };

    #[inline(always)]
    fn mode() -> Mode {
        Mode::Darken
    }

    #[inline(always)]
    fn blend(sa: u8x16, da: u8x16, s: u8x16, d: u8x16) -> u8x16 {
        let most = greater_lanes(product_lanes(s, da), product_lanes(d, sa));
        held(sa, da, two_lanes(s, d), two_lanes(most, none()))
    }
}

/// The lighter of both.
#[derive(Clone, Copy, Drop)]
pub(crate) struct LightenLanes;

impl ModeLanes for LightenLanes {
    ghost named = { Lighten };

    #[inline(always)]
    fn mode() -> Mode {
        Mode::Lighten
    }

    #[inline(always)]
    fn blend(sa: u8x16, da: u8x16, s: u8x16, d: u8x16) -> u8x16 {
        let least = lesser_lanes(product_lanes(s, da), product_lanes(d, sa));
        held(sa, da, two_lanes(s, d), two_lanes(least, none()))
    }
}

/// Dark or light, as the source is.
#[derive(Clone, Copy, Drop)]
pub(crate) struct HardLightLanes;

impl ModeLanes for HardLightLanes {
    ghost named = { HardLight };

    #[inline(always)]
    fn mode() -> Mode {
        Mode::HardLight
    }

    #[inline(always)]
    fn blend(sa: u8x16, da: u8x16, s: u8x16, d: u8x16) -> u8x16 {
        contrast(sa, da, s, d, s, sa)
    }
}

/// How far both are apart.
#[derive(Clone, Copy, Drop)]
pub(crate) struct DifferenceLanes;

impl ModeLanes for DifferenceLanes {
    ghost named = { Difference };

    #[inline(always)]
    fn mode() -> Mode {
        Mode::Difference
    }

    #[inline(always)]
    fn blend(sa: u8x16, da: u8x16, s: u8x16, d: u8x16) -> u8x16 {
        let least = lesser_lanes(product_lanes(s, da), product_lanes(d, sa));
        held(sa, da, two_lanes(s, d), two_lanes(least, least))
    }
}

/// Both, less their product twice.
#[derive(Clone, Copy, Drop)]
pub(crate) struct ExclusionLanes;

impl ModeLanes for ExclusionLanes {
    ghost named = { Exclusion };

    #[inline(always)]
    fn mode() -> Mode {
        Mode::Exclusion
    }

    #[inline(always)]
    fn blend(sa: u8x16, da: u8x16, s: u8x16, d: u8x16) -> u8x16 {
        let product = product_lanes(d, s);
        held(sa, da, two_lanes(s, d), two_lanes(product, product))
    }
}
