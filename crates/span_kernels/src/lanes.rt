//! What is done to sixteen bytes at a time.

ghost use Rattle.std.specs.Prelude.{◌≡◌, ◌≤◌, ◌<◌, ◌+◌, ◌-◌, ℕ, length, slice_index, min, max, nat_le, if◌then◌else◌};
ghost use Rattle.blend_rules.specs.Colour.{product};
ghost use Rattle.span_kernels.specs.Bytes.{over_byte};
ghost use Rattle.span_kernels.specs.Lanes.{AreLanes, IsBelow};

use std::simd::prelude::*;

/// The sixteen bytes of a row from an index on.
#[inline(always)]
pub(crate) fn lanes_at(row: &[u8], at: usize) -> u8x16
    requires { at + 16 ≤ length row.now }
    ensures { AreLanes result (λ k. slice_index row.now (at + k)) }
{
    u8x16::from_slice(&row[at..])
}

/// Each byte of `x` times that of `y`, as a share of 255.
#[inline(always)]
pub(crate) fn product_lanes(x: u8x16, y: u8x16) -> u8x16
    ensures { AreLanes result (λ k. product (slice_index x k) (slice_index y k)) }
{
    let more = y.cast::<u16>() + u16x16::splat(1);
    let wide = x.cast::<u16>() * more;
    (wide >> u16x16::splat(8)).cast::<u8>()
}

/// Each byte of a source over that of a backdrop.
#[inline(always)]
pub(crate) fn over_lanes(sa: u8x16, s: u8x16, d: u8x16) -> u8x16
    requires { IsBelow s sa }
    ensures { AreLanes result (λ k. over_byte (slice_index sa k) (slice_index s k) (slice_index d k)) }
{
    s + (d - product_lanes(d, sa))
}

/// By how much each byte of `x` exceeds that of `y`.
#[inline(always)]
pub(crate) fn excess_lanes(x: u8x16, y: u8x16) -> u8x16
    requires { IsBelow y x }
    ensures { AreLanes result (λ k. slice_index x k - slice_index y k) }
{
    x - y
}

/// The sum of two bytes.
#[inline(always)]
pub(crate) fn two_lanes(x: u8x16, y: u8x16) -> u16x16
    ensures { AreLanes result (λ k. slice_index x k + slice_index y k) }
{
    x.cast::<u16>() + y.cast::<u16>()
}

/// The sum of four bytes.
#[inline(always)]
pub(crate) fn four_lanes(w: u8x16, x: u8x16, y: u8x16, z: u8x16) -> u16x16
    ensures { AreLanes result (λ k. slice_index w k + slice_index x k + (slice_index y k + slice_index z k)) }
{
    two_lanes(w, x) + two_lanes(y, z)
}

/// By how much each number of `more` exceeds that of `less`, 0 where it does not.
#[inline(always)]
pub(crate) fn rest_lanes(more: u16x16, less: u16x16) -> u16x16
    ensures { AreLanes result (λ k. slice_index more k - slice_index less k) }
{
    more.saturating_sub(less)
}

/// The lesser of each number and a byte.
#[inline(always)]
pub(crate) fn limited_lanes(limit: u8x16, x: u16x16) -> u8x16
    ensures { AreLanes result (λ k. min (slice_index limit k) (slice_index x k)) }
{
    x.simd_min(limit.cast::<u16>()).cast::<u8>()
}

/// Each byte of `low` where that of `x` is at most that of `y`, and else that of `high`.
#[inline(always)]
pub(crate) fn choose_lanes(x: u8x16, y: u8x16, low: u8x16, high: u8x16) -> u8x16
    ensures { AreLanes result (λ k. if nat_le (slice_index x k) (slice_index y k)
        then slice_index low k else slice_index high k) }
{
    x.simd_le(y).select(low, high)
}

/// The lesser byte of each two.
#[inline(always)]
pub(crate) fn lesser_lanes(x: u8x16, y: u8x16) -> u8x16
    ensures { AreLanes result (λ k. min (slice_index x k) (slice_index y k)) }
{
    x.simd_min(y)
}

/// The greater byte of each two.
#[inline(always)]
pub(crate) fn greater_lanes(x: u8x16, y: u8x16) -> u8x16
    ensures { AreLanes result (λ k. max (slice_index x k) (slice_index y k)) }
{
    x.simd_max(y)
}
