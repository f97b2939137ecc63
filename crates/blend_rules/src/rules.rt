ghost use Rattle.std.specs.Prelude.{◌≡◌, ◌≤◌, ◌+◌, ◌-◌, min};
ghost use Rattle.blend_rules.specs.Colour.{product, IsPremultiplied, clear, alpha_sum, scaled, blended, source_over};

use super::values::{
    Darkened, Differing, Excluded, HardLit, Lightened, ModeValue, Multiplied, Overlaid, Screened,
};
use crate::{Mode, Px};

/// `floor((x * y + x) / 256)`: `x` times `y` of 255, nearly. It is not symmetric: `mul(1, 128)` is 0
/// and `mul(128, 1)` is 1.
#[inline(always)]
#[tactic(auto, unfolding(crate::specs::Colour::product))]
pub fn mul(x: u8, y: u8) -> u8
    ensures value { result ≡ product x y }
    ensures by_full { y ≡ 255 → result ≡ x }
    ensures of_full { x ≡ 255 → result ≡ y }
    ensures by_none { y ≡ 0 → result ≡ 0 }
    ensures of_none { x ≡ 0 → result ≡ 0 }
    ensures at_most_first { result ≤ x }
    ensures at_most_second { result ≤ y }
{
    ((x as u16 * y as u16 + x as u16) >> 8) as u8
}

/// The colour with each byte times `c` of 255.
#[inline(always)]
#[tactic(auto, unfolding(crate::specs::Colour::scaled))]
pub fn scale(p: Px, c: u8) -> Px
    ensures value { result ≡ scaled p c }
    ensures by_full { c ≡ 255 → result ≡ p }
    ensures by_none { c ≡ 0 → result ≡ clear }
    ensures premultiplied { IsPremultiplied p → IsPremultiplied result }
{
    Px {
        b: mul(p.b, c),
        g: mul(p.g, c),
        r: mul(p.r, c),
        a: mul(p.a, c),
    }
}

// A byte of a source under the alpha `sa`, over a byte of a backdrop.
#[inline(always)]
#[tactic(auto, using(crate::proofs::Channels::over_fits))]
fn over(sa: u8, s: u8, d: u8) -> u8
    requires { s ≤ sa }
    ensures { result ≡ s + (d - product d sa) }
{
    s + (d - mul(d, sa))
}

// A source over a backdrop, byte by byte.
#[inline(always)]
#[tactic(auto, unfolding(crate::specs::Colour::source_over))]
fn over_bytes(s: Px, d: Px) -> Px
    requires { IsPremultiplied s }
    ensures { result ≡ source_over s d }
{
    Px {
        b: over(s.a, s.b, d.b),
        g: over(s.a, s.g, d.g),
        r: over(s.a, s.r, d.r),
        a: over(s.a, s.a, d.a),
    }
}

/// The alpha of a source under the alpha `sa`, over a backdrop under `da`.
#[inline(always)]
fn alpha_of(sa: u8, da: u8) -> u8
    ensures { result ≡ alpha_sum sa da }
{
    over(sa, sa, da)
}

/// A mode's value on one channel, held below the alpha of both.
#[inline(always)]
fn channel_by<V: ModeValue>(alpha: u8, sa: u8, da: u8, s: u8, d: u8) -> u8
    requires source { s ≤ sa }
    requires backdrop { d ≤ da }
    ensures { result ≡ min alpha (V.value sa da s d) }
{
    V::of(sa, da, s, d).min(alpha as u16) as u8
}

/// A source over a backdrop by a mode's value.
#[inline(always)]
fn blend_by<V: ModeValue>(s: Px, d: Px) -> Px
    requires source { IsPremultiplied s }
    requires backdrop { IsPremultiplied d }
    ensures { result ≡ record {
      b = min (alpha_sum s.a d.a) (V.value s.a d.a s.b d.b);
      g = min (alpha_sum s.a d.a) (V.value s.a d.a s.g d.g);
      r = min (alpha_sum s.a d.a) (V.value s.a d.a s.r d.r);
      a = alpha_sum s.a d.a;
    } }
{
    let alpha = alpha_of(s.a, d.a);
    Px {
        b: channel_by::<V>(alpha, s.a, d.a, s.b, d.b),
        g: channel_by::<V>(alpha, s.a, d.a, s.g, d.g),
        r: channel_by::<V>(alpha, s.a, d.a, s.r, d.r),
        a: alpha,
    }
}

/// The mode is chosen once, outside the channels.
#[inline(always)]
#[tactic(auto, unfolding(crate::specs::Colour::blended))]
fn blend_in(m: Mode, s: Px, d: Px) -> Px
    requires source { IsPremultiplied s }
    requires backdrop { IsPremultiplied d }
    ensures { result ≡ blended m s d }
{
    match m {
        Mode::Normal => over_bytes(s, d),
        Mode::Multiply => blend_by::<Multiplied>(s, d),
        Mode::Screen => blend_by::<Screened>(s, d),
        Mode::Overlay => blend_by::<Overlaid>(s, d),
        Mode::Darken => blend_by::<Darkened>(s, d),
        Mode::Lighten => blend_by::<Lightened>(s, d),
        Mode::HardLight => blend_by::<HardLit>(s, d),
        Mode::Difference => blend_by::<Differing>(s, d),
        Mode::Exclusion => blend_by::<Excluded>(s, d),
    }
}

/// The colour `s` blended over `d` in a mode. Both must be premultiplied.
#[inline(always)]
pub fn blend(m: Mode, s: Px, d: Px) -> Px
    requires source { IsPremultiplied s }
    requires backdrop { IsPremultiplied d }
    ensures value { result ≡ blended m s d }
    ensures premultiplied { IsPremultiplied result }
    ensures clear_source { s ≡ clear → result ≡ d }
    ensures clear_backdrop { d ≡ clear → result ≡ s }
    ensures opaque { m ≡ Mode.Normal → s.a ≡ 255 → result ≡ s }
    ensures no_limit { m ≡ Mode.Normal → result ≡ source_over s d }
{
    blend_in(m, s, d)
}
