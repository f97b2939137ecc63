//! Rows of corner bytes, and rows that are compared with the colour rules byte by byte.

ghost use Rattle.std.specs.Prelude.{◌≡◌, ◌≤◌, ◌<◌, ◌*◌, length, slice_index, EachIndex};

use blend_rules::{Mode, Px, blend, mul};

/// Bytes at which a rule is most likely to be wrong.
pub(crate) const CORNERS: [u8; 6] = [0, 1, 127, 128, 254, 255];

/// Sets a row to the corner bytes in turn, from one of them on.
pub(crate) fn put_corners(row: &mut [u8], first: usize)
    requires { first < 6 }
{
    for i in 0..row.len() {
        row[i] = CORNERS[(i % 6 + first) % 6];
    }
}

/// Sets each byte of a row to its index.
pub(crate) fn put_indices(row: &mut [u8])
    requires { length row.old ≤ 256 }
    ensures { length row.new ≡ length row.old }
{
    for i in 0..row.len() {
        row[i] = i as u8;
    }
}

/// Lessens each byte of a row to that of another.
pub(crate) fn put_below(row: &mut [u8], most: &[u8])
    requires { length most.now ≡ length row.old }
    ensures { EachIndex row.new (λ k. slice_index row.new k ≤ slice_index most.now k) }
{
    for i in 0..row.len() {
        row[i] = row[i].min(most[i]);
    }
}

/// A colour with the same byte in its three colour channels.
fn grey(byte: u8, alpha: u8) -> Px
    ensures { result ≡ record { b = byte; g = byte; r = byte; a = alpha } }
{
    Px {
        b: byte,
        g: byte,
        r: byte,
        a: alpha,
    }
}

/// Whether each byte of a row is that of another times a factor.
pub(crate) fn is_scaled(new: &[u8], old: &[u8], c: &[u8]) -> bool
    requires old { length old.now ≡ length new.now }
    requires factors { length c.now ≡ length new.now }
{
    for i in 0..new.len() {
        if new[i] != mul(old[i], c[i]) {
            return false;
        }
    }
    true
}

/// Whether each byte of a row is the blended one.
pub(crate) fn is_blended(m: Mode, new: &[u8], old: &[u8], s: &[u8], sa: &[u8], da: &[u8]) -> bool
    requires old { length old.now ≡ length new.now }
    requires source { length s.now ≡ length new.now }
    requires alphas { length sa.now ≡ length new.now }
    requires backdrop_alphas { length da.now ≡ length new.now }
    requires premultiplied { EachIndex s.now (λ k. slice_index s.now k ≤ slice_index sa.now k) }
    requires backdrop { EachIndex old.now (λ k. slice_index old.now k ≤ slice_index da.now k) }
{
    for i in 0..new.len() {
        let source = grey(s[i], sa[i]);
        if new[i] != blend(m, source, grey(old[i], da[i])).b {
            return false;
        }
    }
    true
}

/// Whether a row has the bytes of four others in turn.
pub(crate) fn is_woven(out: &[u8], b: &[u8], g: &[u8], r: &[u8], a: &[u8]) -> bool
    requires out { length out.now ≡ 4 * length b.now }
    requires green { length g.now ≡ length b.now }
    requires red { length r.now ≡ length b.now }
    requires alpha { length a.now ≡ length b.now }
{
    for i in 0..b.len() {
        let pixel = [out[4 * i], out[4 * i + 1], out[4 * i + 2], out[4 * i + 3]];
        if pixel != [b[i], g[i], r[i], a[i]] {
            return false;
        }
    }
    true
}

/// Whether a row has the bytes of another again and again, from one of them on.
pub(crate) fn is_repeated(out: &[u8], row: &[u8], first: usize) -> bool
    requires { first < length row.now }
{
    for i in 0..out.len() {
        if out[i] != row[(first + i % row.len()) % row.len()] {
            return false;
        }
    }
    true
}
