//! The one loop over a row.

ghost use Rattle.std.specs.Prelude.{◌≡◌, ◌≤◌, ◌<◌, ◌+◌, ◌*◌, ◌/◌, ℕ, length, slice_index, EachIndex};
ghost use Rattle.span_kernels.specs.Lanes.{AreLanes};
ghost use Rattle.span_kernels.specs.Stepped.{IsStepped};

use crate::lanes::lanes_at;
use std::simd::prelude::*;

/// What a kernel makes of a byte at an index of a row, and of the sixteen from one on.
pub(crate) trait Step {
    ghost gives: { Self → ℕ → ℕ → ℕ };

    ghost fits: { Self → ℕ → ℕ → Type 0 };

    /// The new byte at an index in place of `d`.
    fn byte(&self, at: usize, d: u8) -> u8
        requires { fits self.now at d }
        ensures { result ≡ gives self.now at d };

    /// The sixteen new bytes from an index on in place of `d`.
    fn lanes(&self, at: usize, d: u8x16) -> u8x16
        requires { (k : ℕ) → k < 16 → fits self.now (at + k) (slice_index d k) }
        ensures { AreLanes result (λ k. gives self.now (at + k) (slice_index d k)) };
}

/// Takes a step at each index of a row: at two blocks of sixteen a time, at a last block, and at the rest.
#[inline(always)]
pub(crate) fn step_row<K: Step>(d: &mut [u8], step: &K)
    requires { EachIndex d.old (λ k. K.fits step.now k (slice_index d.old k)) }
    ensures { EachIndex d.new (λ k. slice_index d.new k ≡ K.gives step.now k (slice_index d.old k)) }
{
    step_pairs(d, step);
    step_odd(d, step);
    step_rest(d, step);
}

/// Takes a step at sixteen indices.
#[inline(always)]
fn step_block<K: Step>(d: &mut [u8], step: &K, at: usize)
    requires room { at + 16 ≤ length d.old }
    requires fits { (k : ℕ) → at ≤ k → k < at + 16 → K.fits step.now k (slice_index d.old k) }
    ensures { IsStepped (K.gives step.now) at (at + 16) d.old d.new }
{
    let old = lanes_at(d, at);
    step.lanes(at, old).copy_to_slice(&mut d[at..]);
}

/// Takes a step at each index of the whole pairs of blocks.
#[inline(always)]
fn step_pairs<K: Step>(d: &mut [u8], step: &K)
    requires { EachIndex d.old (λ k. K.fits step.now k (slice_index d.old k)) }
    ensures { IsStepped (K.gives step.now) 0 (32 * (length d.old / 32)) d.old d.new }
{
    for pair in 0..d.len() / 32 {
        step_block(d, step, 32 * pair);
        step_block(d, step, 32 * pair + 16);
    }
}

/// Takes a step at each index of a block after the whole pairs, where there is one.
#[inline(always)]
fn step_odd<K: Step>(d: &mut [u8], step: &K)
    requires { (k : ℕ) → 32 * (length d.old / 32) ≤ k → k < length d.old → K.fits step.now k (slice_index d.old k) }
    ensures { IsStepped (K.gives step.now) (32 * (length d.old / 32)) (16 * (length d.old / 16)) d.old d.new }
{
    if d.len() % 32 >= 16 {
        step_block(d, step, 32 * (d.len() / 32));
    }
}

/// Takes a step at each index after the whole blocks.
#[inline(always)]
fn step_rest<K: Step>(d: &mut [u8], step: &K)
    requires { (k : ℕ) → 16 * (length d.old / 16) ≤ k → k < length d.old → K.fits step.now k (slice_index d.old k) }
    ensures { IsStepped (K.gives step.now) (16 * (length d.old / 16)) (length d.old) d.old d.new }
{
    for i in 16 * (d.len() / 16)..d.len() {
        d[i] = step.byte(i, d[i]);
    }
}
