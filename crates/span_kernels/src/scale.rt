//! Rows scaled by a share of 255.

ghost use Rattle.std.specs.Prelude.{◌≡◌, ◌<◌, ⊤, length, slice_index, EachIndex};
ghost use Rattle.blend_rules.specs.Colour.{product};

use crate::lanes::{lanes_at, product_lanes};
use crate::step::{Step, step_row};
use blend_rules::mul;
use std::simd::prelude::*;

/// One factor for all bytes.
#[derive(Drop)]
struct Factor {
    c: u8,
}

impl Step for Factor {
    ghost gives = { λ self _ d. product d self.c };

    ghost fits = { λ _ _ _. ⊤ };

    #[inline(always)]
    fn byte(&self, _at: usize, d: u8) -> u8 {
        mul(d, self.c)
    }

    #[inline(always)]
    fn lanes(&self, _at: usize, d: u8x16) -> u8x16 {
        product_lanes(d, u8x16::splat(self.c))
    }
}

/// A row of factors.
#[derive(Drop)]
struct Factors<'a> {
    c: &'a [u8],
}

impl Step for Factors<'_> {
    ghost gives = { λ self at d. product d (slice_index self.c.now at) };

    ghost fits = { λ self at _. at < length self.c.now };

    #[inline(always)]
    fn byte(&self, at: usize, d: u8) -> u8 {
        mul(d, self.c[at])
    }

    #[inline(always)]
    fn lanes(&self, at: usize, d: u8x16) -> u8x16 {
        product_lanes(d, lanes_at(self.c, at))
    }
}

/// Each byte times `c` of 255. It takes no memory.
pub fn scale_by(d: &mut [u8], c: u8)
    ensures { EachIndex d.new (λ k. slice_index d.new k ≡ product (slice_index d.old k) c) }
{
    step_row(d, &Factor { c });
}

/// Each byte times that of a row of the same length, of 255. It takes no memory.
pub fn scale_row(d: &mut [u8], c: &[u8])
    requires { length c.now ≡ length d.old }
    ensures { EachIndex d.new (λ k. slice_index d.new k ≡ product (slice_index d.old k) (slice_index c.now k)) }
{
    step_row(d, &Factors { c });
}
