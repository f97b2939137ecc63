//! Four planes woven into one row of pixels.

ghost use Rattle.std.specs.Prelude.{◌≡◌, ◌≤◌, ◌<◌, ◌+◌, ◌*◌, ◌/◌, ℕ, length, take};
ghost use Rattle.std.specs.Simd.Lanes.{chunk};
ghost use Rattle.span_kernels.specs.Bytes.{interleaved};

use std::simd::prelude::*;

/// Sixteen bytes of each plane in turn, as four blocks of sixteen.
#[inline(always)]
fn weave_lanes(b: u8x16, g: u8x16, r: u8x16, a: u8x16) -> (u8x16, u8x16, u8x16, u8x16)
    ensures len { (length result.0 ≡ 16) × (length result.1 ≡ 16) × (length result.2 ≡ 16) × (length result.3 ≡ 16) }
    ensures first { result.0 ≡ interleaved (take 4 b) (take 4 g) (take 4 r) (take 4 a) }
    ensures second { result.1 ≡ interleaved (chunk 4 4 b) (chunk 4 4 g) (chunk 4 4 r) (chunk 4 4 a) }
    ensures third { result.2 ≡ interleaved (chunk 8 4 b) (chunk 8 4 g) (chunk 8 4 r) (chunk 8 4 a) }
    ensures fourth { result.3 ≡ interleaved (chunk 12 4 b) (chunk 12 4 g) (chunk 12 4 r) (chunk 12 4 a) }
{
    let (blue_red, blue_red_2) = b.interleave(r);
    let (green_alpha, green_alpha_2) = g.interleave(a);
    let (first, second) = blue_red.interleave(green_alpha);
    let (third, fourth) = blue_red_2.interleave(green_alpha_2);
    (first, second, third, fourth)
}

/// Weaves the whole blocks of sixteen pixels.
#[inline(always)]
fn weave_blocks(b: &[u8], g: &[u8], r: &[u8], a: &[u8], out: &mut [u8])
    requires green { length g.now ≡ length b.now }
    requires red { length r.now ≡ length b.now }
    requires alpha { length a.now ≡ length b.now }
    requires out { length out.old ≡ 4 * length b.now }
    ensures { let n = 16 * (length b.now / 16) in
        take (4 * n) out.new ≡ interleaved (take n b.now) (take n g.now) (take n r.now) (take n a.now) }
{
    for block in 0..b.len() / 16 {
        let i = 16 * block;
        let (first, second, third, fourth) = weave_lanes(
            u8x16::from_slice(&b[i..]),
            u8x16::from_slice(&g[i..]),
            u8x16::from_slice(&r[i..]),
            u8x16::from_slice(&a[i..]),
        );
        first.copy_to_slice(&mut out[4 * i..]);
        second.copy_to_slice(&mut out[4 * i + 16..]);
        third.copy_to_slice(&mut out[4 * i + 32..]);
        fourth.copy_to_slice(&mut out[4 * i + 48..]);
    }
}

/// Weaves the pixels after the whole blocks of sixteen.
#[inline(always)]
fn weave_rest(b: &[u8], g: &[u8], r: &[u8], a: &[u8], out: &mut [u8])
    requires green { length g.now ≡ length b.now }
    requires red { length r.now ≡ length b.now }
    requires alpha { length a.now ≡ length b.now }
    requires out { length out.old ≡ 4 * length b.now }
    requires blocks { let n = 16 * (length b.now / 16) in
        take (4 * n) out.old ≡ interleaved (take n b.now) (take n g.now) (take n r.now) (take n a.now) }
    ensures { out.new ≡ interleaved b.now g.now r.now a.now }
{
    for i in 16 * (b.len() / 16)..b.len() {
        u8x4::from_array([b[i], g[i], r[i], a[i]]).copy_to_slice(&mut out[4 * i..]);
    }
}

/// Writes the bytes of four rows of one length in turn, blue, green, red and alpha of each pixel. `out` is four times
/// as long. It takes no memory.
pub fn weave_row(b: &[u8], g: &[u8], r: &[u8], a: &[u8], out: &mut [u8])
    requires green { length g.now ≡ length b.now }
    requires red { length r.now ≡ length b.now }
    requires alpha { length a.now ≡ length b.now }
    requires out { length out.old ≡ 4 * length b.now }
    ensures { out.new ≡ interleaved b.now g.now r.now a.now }
{
    weave_blocks(b, g, r, a, out);
    weave_rest(b, g, r, a, out);
}
