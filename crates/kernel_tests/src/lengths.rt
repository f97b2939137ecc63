//! Each kernel against the colour rules, on rows of every length from 0 to 67.

ghost use Rattle.std.specs.Prelude.{◌≡◌, ◌≤◌, ◌<◌, ◌*◌, length, replicate, IfOk};

use crate::rows::{
    CORNERS, is_blended, is_repeated, is_scaled, is_woven, put_below, put_corners, put_indices,
};
use blend_rules::Mode;
use span_kernels::{
    blend_row, copy, copy_repeated, fill, over_masked, over_row, over_solid, scale_by, scale_row,
    weave_row,
};
use std::alloc::{AllocError, Global};
use std::test::Fail;

/// Scales corner bytes by corner bytes, one factor for all and a row of them.
fn scales(d: &mut [u8], old: &mut [u8], c: &mut [u8]) -> bool
    requires old { length old.old ≡ length d.old }
    requires factors { length c.old ≡ length d.old }
{
    for pair in 0..36 {
        put_corners(old, pair % 6);
        put_corners(c, pair / 6);
        copy(d, old);
        scale_row(d, c);
        if !is_scaled(d, old, c) {
            return false;
        }
        let factor = CORNERS[pair / 6];
        fill(c, factor);
        copy(d, old);
        scale_by(d, factor);
        if !is_scaled(d, old, c) {
            return false;
        }
    }
    true
}

/// Lays rows of corner bytes over rows of corner bytes.
fn covers(d: &mut [u8], old: &mut [u8], s: &mut [u8], sa: &mut [u8], da: &mut [u8]) -> bool
    requires old { length old.old ≡ length d.old }
    requires source { length s.old ≡ length d.old }
    requires alphas { length sa.old ≡ length d.old }
    requires backdrop_alphas { length da.old ≡ length d.old }
{
    fill(da, 255);
    for three in 0..216 {
        put_corners(old, three % 6);
        put_corners(s, three / 6 % 6);
        put_corners(sa, three / 36);
        put_below(old, da);
        put_below(s, sa);
        copy(d, old);
        over_row(d, s, sa);
        if !is_blended(Mode::Normal, d, old, s, sa, da) {
            return false;
        }
    }
    true
}

/// Lays single corner bytes over rows of corner bytes.
fn covers_with_one(d: &mut [u8], old: &mut [u8], s: &mut [u8], sa: &mut [u8], da: &mut [u8]) -> bool
    requires old { length old.old ≡ length d.old }
    requires source { length s.old ≡ length d.old }
    requires alphas { length sa.old ≡ length d.old }
    requires backdrop_alphas { length da.old ≡ length d.old }
{
    fill(da, 255);
    for three in 0..216 {
        put_corners(old, three % 6);
        put_below(old, da);
        let alpha = CORNERS[three / 36];
        let byte = CORNERS[three / 6 % 6].min(alpha);
        fill(sa, alpha);
        fill(s, byte);
        put_below(s, sa);
        copy(d, old);
        over_solid(d, byte, alpha);
        if !is_blended(Mode::Normal, d, old, s, sa, da) {
            return false;
        }
    }
    true
}

/// Lays single corner bytes under masks of corner bytes over rows of corner bytes. The rows turn with the length.
fn covers_under_masks(
    d: &mut [u8],
    old: &mut [u8],
    s: &mut [u8],
    sa: &mut [u8],
    mask: &mut [u8],
    da: &mut [u8],
) -> bool
    requires old { length old.old ≡ length d.old }
    requires source { length s.old ≡ length d.old }
    requires alphas { length sa.old ≡ length d.old }
    requires mask { length mask.old ≡ length d.old }
    requires backdrop_alphas { length da.old ≡ length d.old }
{
    fill(da, 255);
    let turn = d.len() % 36;
    for pair in 0..36 {
        put_corners(old, (pair + turn) % 6);
        put_corners(mask, (pair + turn) / 6 % 6);
        put_below(old, da);
        let alpha = CORNERS[pair / 6];
        let byte = CORNERS[pair % 6].min(alpha);
        fill(sa, alpha);
        scale_row(sa, mask);
        fill(s, byte);
        scale_row(s, mask);
        put_below(s, sa);
        copy(d, old);
        over_masked(d, byte, alpha, mask);
        if !is_blended(Mode::Normal, d, old, s, sa, da) {
            return false;
        }
    }
    true
}

/// Blends corner bytes over corner bytes in a mode. The alphas of both turn with the length.
fn blends(m: Mode, d: &mut [u8], old: &mut [u8], s: &mut [u8], sa: &mut [u8], da: &mut [u8]) -> bool
    requires old { length old.old ≡ length d.old }
    requires source { length s.old ≡ length d.old }
    requires alphas { length sa.old ≡ length d.old }
    requires backdrop_alphas { length da.old ≡ length d.old }
{
    let turn = d.len() % 36;
    for pair in 0..36 {
        put_corners(old, pair % 6);
        put_corners(s, pair / 6);
        put_corners(sa, (pair + turn) % 6);
        put_corners(da, (pair + turn) / 6 % 6);
        put_below(old, da);
        put_below(s, sa);
        copy(d, old);
        blend_row(m, d, s, sa, da);
        if !is_blended(m, d, old, s, sa, da) {
            return false;
        }
    }
    true
}

/// Weaves four rows of corner bytes.
fn weaves(b: &mut [u8], g: &mut [u8], r: &mut [u8], a: &mut [u8], out: &mut [u8]) -> bool
    requires green { length g.old ≡ length b.old }
    requires red { length r.old ≡ length b.old }
    requires alpha { length a.old ≡ length b.old }
    requires out { length out.old ≡ 4 * length b.old }
{
    put_corners(b, 0);
    put_corners(g, 1);
    put_corners(r, 2);
    put_corners(a, 3);
    weave_row(b, g, r, a, out);
    is_woven(out, b, g, r, a)
}

/// Rows of a length, each of zeros.
fn zeros(alloc: Global, length: usize) -> Result<Vec<u8>, AllocError>
    requires { length < 512 }
    ensures { IfOk result (λ row. row.items ≡ replicate length 0) }
{
    Ok(vec![in alloc; 0; length]?)
}

#[test]
fn scales_rows_of_every_length(rt: HostRuntime) -> Result<(), Fail> {
    for length in 0..68 {
        let (mut d, mut old) = (zeros(rt.alloc(), length)?, zeros(rt.alloc(), length)?);
        let mut c = zeros(rt.alloc(), length)?;
        assert!(rt; scales(&mut d, &mut old, &mut c), "length {length}");
    }
    Ok(())
}

#[test]
fn covers_rows_of_every_length(rt: HostRuntime) -> Result<(), Fail> {
    for length in 0..68 {
        let (mut d, mut old) = (zeros(rt.alloc(), length)?, zeros(rt.alloc(), length)?);
        let (mut s, mut sa) = (zeros(rt.alloc(), length)?, zeros(rt.alloc(), length)?);
        let mut da = zeros(rt.alloc(), length)?;
        assert!(rt;
            covers(&mut d, &mut old, &mut s, &mut sa, &mut da),
            "length {length}"
        );
    }
    Ok(())
}

#[test]
fn covers_rows_with_one_byte(rt: HostRuntime) -> Result<(), Fail> {
    for length in 0..68 {
        let (mut d, mut old) = (zeros(rt.alloc(), length)?, zeros(rt.alloc(), length)?);
        let (mut s, mut sa) = (zeros(rt.alloc(), length)?, zeros(rt.alloc(), length)?);
        let mut da = zeros(rt.alloc(), length)?;
        assert!(rt;
            covers_with_one(&mut d, &mut old, &mut s, &mut sa, &mut da),
            "length {length}"
        );
    }
    Ok(())
}

#[test]
fn covers_rows_under_masks(rt: HostRuntime) -> Result<(), Fail> {
    for length in 0..68 {
        let (mut d, mut old) = (zeros(rt.alloc(), length)?, zeros(rt.alloc(), length)?);
        let (mut s, mut sa) = (zeros(rt.alloc(), length)?, zeros(rt.alloc(), length)?);
        let (mut mask, mut da) = (zeros(rt.alloc(), length)?, zeros(rt.alloc(), length)?);
        assert!(rt;
            covers_under_masks(&mut d, &mut old, &mut s, &mut sa, &mut mask, &mut da),
            "length {length}"
        );
    }
    Ok(())
}

/// Blends rows of a length in a mode.
fn blends_length(alloc: Global, m: Mode, length: usize) -> Result<bool, AllocError>
    requires { length < 512 }
{
    let (mut d, mut old) = (zeros(alloc, length)?, zeros(alloc, length)?);
    let (mut s, mut sa) = (zeros(alloc, length)?, zeros(alloc, length)?);
    let mut da = zeros(alloc, length)?;
    Ok(blends(m, &mut d, &mut old, &mut s, &mut sa, &mut da))
}

#[test]
fn blends_rows_in_each_mode(rt: HostRuntime) -> Result<(), Fail> {
    for length in 0..68 {
        for number in 0..9 {
            let m = Mode::from_byte(number).ok_or("no mode")?;
            assert!(rt;
                blends_length(rt.alloc(), m, length)?,
                "length {length}, mode {number}"
            );
        }
    }
    Ok(())
}

#[test]
fn weaves_rows_of_every_length(rt: HostRuntime) -> Result<(), Fail> {
    for length in 0..68 {
        let (mut b, mut g) = (zeros(rt.alloc(), length)?, zeros(rt.alloc(), length)?);
        let (mut r, mut a) = (zeros(rt.alloc(), length)?, zeros(rt.alloc(), length)?);
        let mut out = zeros(rt.alloc(), 4 * length)?;
        assert!(rt;
            weaves(&mut b, &mut g, &mut r, &mut a, &mut out),
            "length {length}"
        );
    }
    Ok(())
}

/// Repeats a row of indices from each of its bytes on.
fn repeats(d: &mut [u8], s: &mut [u8]) -> bool
    requires { length s.old ≤ 256 }
{
    put_indices(s);
    for first in 0..s.len() {
        copy_repeated(d, s, first);
        if !is_repeated(d, s, first) {
            return false;
        }
    }
    true
}

#[test]
fn repeats_rows_of_every_length(rt: HostRuntime) -> Result<(), Fail> {
    for length in 0..68 {
        for period in [1, 2, 3, 5, 16, 31, 67, 80] {
            let (mut d, mut s) = (zeros(rt.alloc(), length)?, zeros(rt.alloc(), period)?);
            assert!(rt; repeats(&mut d, &mut s), "length {length}, period {period}");
        }
    }
    Ok(())
}

#[test]
fn a_covered_byte_may_stay(rt: HostRuntime) -> Result<(), Fail> {
    for length in [0, 1, 15, 16, 17, 33] {
        let mut d = zeros(rt.alloc(), length)?;
        fill(&mut d, 200);
        over_solid(&mut d, 100, 128);
        assert!(rt; d.iter().all(|byte| *byte == 200), "length {length}");
    }
    Ok(())
}

/// Lays a row of zeros under alphas of 128 over a row of ones.
fn lay_nothing(d: &mut [u8], s: &mut [u8], sa: &mut [u8])
    requires source { length s.old ≡ length d.old }
    requires alphas { length sa.old ≡ length d.old }
{
    fill(d, 1);
    fill(s, 0);
    fill(sa, 128);
    put_below(s, sa);
    over_row(d, s, sa);
}

#[test]
fn nothing_over_one_leaves_it(rt: HostRuntime) -> Result<(), Fail> {
    let mut d = zeros(rt.alloc(), 37)?;
    let (mut s, mut sa) = (zeros(rt.alloc(), 37)?, zeros(rt.alloc(), 37)?);
    lay_nothing(&mut d, &mut s, &mut sa);
    assert!(rt; d.iter().all(|byte| *byte == 1));
    Ok(())
}
