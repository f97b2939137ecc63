//! Sources over backdrops.

ghost use Rattle.std.specs.Prelude.{◌≡◌, ◌≤◌, ◌<◌, ℕ, length, slice_index, EachIndex};
ghost use Rattle.blend_rules.specs.Colour.{product};
ghost use Rattle.span_kernels.specs.Bytes.{over_byte};

use crate::lanes::{lanes_at, over_lanes, product_lanes};
use crate::step::{Step, step_row};
use blend_rules::mul;
use std::simd::prelude::*;

// A byte of a source under the alpha `sa`, over a byte of a backdrop.
#[inline(always)]
fn over(sa: u8, s: u8, d: u8) -> u8
    requires { s ≤ sa }
    ensures { result ≡ over_byte sa s d }
{
    s + (d - mul(d, sa))
}

/// One byte of a source, and its alpha.
#[derive(Drop)]
struct Solid {
    s: u8,
    sa: u8,
}

impl Step for Solid {
    ghost gives = { λ self _ d. over_byte self.sa self.s d };

    ghost fits = { λ self _ _. self.s ≤ self.sa };

    #[inline(always)]
    fn byte(&self, _at: usize, d: u8) -> u8 {
        over(self.sa, self.s, d)
    }

    #[inline(always)]
    fn lanes(&self, _at: usize, d: u8x16) -> u8x16 {
        over_lanes(u8x16::splat(self.sa), u8x16::splat(self.s), d)
    }
}

/// A row of a source, and its alphas.
#[derive(Drop)]
struct Source<'a> {
    s: &'a [u8],
    sa: &'a [u8],
}

impl Step for Source<'_> {
    ghost gives = { λ self at d. over_byte (slice_index self.sa.now at) (slice_index self.s.now at) d };

    ghost fits = { λ self at _. (at < length self.s.now) × (at < length self.sa.now)
        × (slice_index self.s.now at ≤ slice_index self.sa.now at) };

    #[inline(always)]
    fn byte(&self, at: usize, d: u8) -> u8 {
        over(self.sa[at], self.s[at], d)
    }

    #[inline(always)]
    fn lanes(&self, at: usize, d: u8x16) -> u8x16 {
        over_lanes(lanes_at(self.sa, at), lanes_at(self.s, at), d)
    }
}

/// One byte of a source and its alpha, under a row of a mask.
#[derive(Drop)]
struct Masked<'a> {
    s: u8,
    sa: u8,
    mask: &'a [u8],
}

impl Step for Masked<'_> {
    ghost gives = { λ self at d. over_byte (product self.sa (slice_index self.mask.now at))
        (product self.s (slice_index self.mask.now at)) d };

    ghost fits = { λ self at _. (at < length self.mask.now) × (self.s ≤ self.sa) };

    #[inline(always)]
    fn byte(&self, at: usize, d: u8) -> u8 {
        let share = self.mask[at];
        over(mul(self.sa, share), mul(self.s, share), d)
    }

    #[inline(always)]
    fn lanes(&self, at: usize, d: u8x16) -> u8x16 {
        let share = lanes_at(self.mask, at);
        let alphas = product_lanes(u8x16::splat(self.sa), share);
        over_lanes(alphas, product_lanes(u8x16::splat(self.s), share), d)
    }
}

/// A byte of a source under the alpha `sa` over each byte of a row. It takes no memory.
pub fn over_solid(d: &mut [u8], s: u8, sa: u8)
    requires premultiplied { s ≤ sa }
    ensures { EachIndex d.new (λ k. slice_index d.new k ≡ over_byte sa s (slice_index d.old k)) }
{
    step_row(d, &Solid { s, sa });
}

/// A row of a source under its alphas over a row of the same length. It takes no memory.
pub fn over_row(d: &mut [u8], s: &[u8], sa: &[u8])
    requires source { length s.now ≡ length d.old }
    requires alphas { length sa.now ≡ length d.old }
    requires premultiplied { EachIndex s.now (λ k. slice_index s.now k ≤ slice_index sa.now k) }
    ensures { EachIndex d.new (λ k. slice_index d.new k
        ≡ over_byte (slice_index sa.now k) (slice_index s.now k) (slice_index d.old k)) }
{
    step_row(d, &Source { s, sa });
}

/// A byte of a source under the alpha `sa` over each byte of a row, as far as a mask of the same length lets it through:
/// both are scaled by the mask's byte, of 255. It takes no memory.
pub fn over_masked(d: &mut [u8], s: u8, sa: u8, mask: &[u8])
    requires mask { length mask.now ≡ length d.old }
    requires premultiplied { s ≤ sa }
    ensures { EachIndex d.new (λ k. slice_index d.new k ≡ over_byte (product sa (slice_index mask.now k))
        (product s (slice_index mask.now k)) (slice_index d.old k)) }
{
    step_row(d, &Masked { s, sa, mask });
}
