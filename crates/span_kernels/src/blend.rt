//! Rows blended in a mode.

ghost use Rattle.std.specs.Prelude.{◌≡◌, ◌≤◌, ◌<◌, length, slice_index, EachIndex};
ghost use Rattle.blend_rules.specs.Colour.{blended_channel};
ghost use Rattle.blend_rules.specs.declared.mode.Mode.TheVariants.{Normal};

use crate::lanes::lanes_at;
use crate::modes::{
    DarkenLanes, DifferenceLanes, ExclusionLanes, HardLightLanes, LightenLanes, ModeLanes,
    MultiplyLanes, OverlayLanes, ScreenLanes,
};
use crate::over::over_row;
use crate::step::{Step, step_row};
use blend_rules::{Mode, Px, blend};
use std::simd::prelude::*;

/// A mode with a row of a source, its alphas, and the alphas of the backdrop.
#[derive(Drop)]
struct ByMode<'a, M> {
    mode: M,
    s: &'a [u8],
    sa: &'a [u8],
    da: &'a [u8],
}

/// A colour with the same byte in its three colour channels.
#[inline(always)]
fn grey(byte: u8, alpha: u8) -> Px
    ensures { result ≡ record { b = byte; g = byte; r = byte; a = alpha } }
{
    Px {
        b: byte,
        g: byte,
        r: byte,
        a: alpha,
    }
}

impl<M: ModeLanes> Step for ByMode<'_, M> {
    ghost gives = { λ self at d. blended_channel M.named
        (slice_index self.sa.now at) (slice_index self.da.now at) (slice_index self.s.now at) d };

    ghost fits = { λ self at d. (at < length self.s.now) × (at < length self.sa.now) × (at < length self.da.now)
        × (slice_index self.s.now at ≤ slice_index self.sa.now at) × (d ≤ slice_index self.da.now at) };

    #[inline(always)]
    #[tactic(auto, unfolding(blend_rules::specs::Colour::blended))]
    fn byte(&self, at: usize, d: u8) -> u8 {
        let source = grey(self.s[at], self.sa[at]);
        blend(M::mode(), source, grey(d, self.da[at])).b
    }

    #[inline(always)]
    fn lanes(&self, at: usize, d: u8x16) -> u8x16 {
        M::blend(
            lanes_at(self.sa, at),
            lanes_at(self.da, at),
            lanes_at(self.s, at),
            d,
        )
    }
}

/// A row of a source blended over a row of a backdrop in a mode.
#[inline(always)]
fn mode_row<M: ModeLanes + Drop>(mode: M, d: &mut [u8], s: &[u8], sa: &[u8], da: &[u8])
    requires source { length s.now ≡ length d.old }
    requires alphas { length sa.now ≡ length d.old }
    requires backdrop_alphas { length da.now ≡ length d.old }
    requires premultiplied { EachIndex s.now (λ k. slice_index s.now k ≤ slice_index sa.now k) }
    requires backdrop { EachIndex d.old (λ k. slice_index d.old k ≤ slice_index da.now k) }
    ensures { EachIndex d.new (λ k. slice_index d.new k ≡ blended_channel M.named
        (slice_index sa.now k) (slice_index da.now k) (slice_index s.now k) (slice_index d.old k)) }
{
    step_row(d, &ByMode { mode, s, sa, da });
}

/// A row of a source over a row of a backdrop in mode Normal.
#[inline(always)]
fn normal_row(d: &mut [u8], s: &[u8], sa: &[u8], da: &[u8])
    requires source { length s.now ≡ length d.old }
    requires alphas { length sa.now ≡ length d.old }
    requires backdrop_alphas { length da.now ≡ length d.old }
    requires premultiplied { EachIndex s.now (λ k. slice_index s.now k ≤ slice_index sa.now k) }
    requires backdrop { EachIndex d.old (λ k. slice_index d.old k ≤ slice_index da.now k) }
    ensures { EachIndex d.new (λ k. slice_index d.new k ≡ blended_channel Normal
        (slice_index sa.now k) (slice_index da.now k) (slice_index s.now k) (slice_index d.old k)) }
{
    over_row(d, s, sa);
}

/// A row of a colour plane of a source blended over one of a backdrop, in a mode. `sa` are the alphas of the source and
/// `da` those of the backdrop before the blend. All rows have one length. It takes no memory.
pub fn blend_row(m: Mode, d: &mut [u8], s: &[u8], sa: &[u8], da: &[u8])
    requires source { length s.now ≡ length d.old }
    requires alphas { length sa.now ≡ length d.old }
    requires backdrop_alphas { length da.now ≡ length d.old }
    requires premultiplied { EachIndex s.now (λ k. slice_index s.now k ≤ slice_index sa.now k) }
    requires backdrop { EachIndex d.old (λ k. slice_index d.old k ≤ slice_index da.now k) }
    ensures { EachIndex d.new (λ k. slice_index d.new k ≡ blended_channel m
        (slice_index sa.now k) (slice_index da.now k) (slice_index s.now k) (slice_index d.old k)) }
{
    match m {
        Mode::Normal => normal_row(d, s, sa, da),
        Mode::Multiply => mode_row(MultiplyLanes, d, s, sa, da),
        Mode::Screen => mode_row(ScreenLanes, d, s, sa, da),
        Mode::Overlay => mode_row(OverlayLanes, d, s, sa, da),
        Mode::Darken => mode_row(DarkenLanes, d, s, sa, da),
        Mode::Lighten => mode_row(LightenLanes, d, s, sa, da),
        Mode::HardLight => mode_row(HardLightLanes, d, s, sa, da),
        Mode::Difference => mode_row(DifferenceLanes, d, s, sa, da),
        Mode::Exclusion => mode_row(ExclusionLanes, d, s, sa, da),
    }
}
