//! The value of each mode but Normal on one colour channel, before it is held below an alpha.

ghost use Rattle.std.specs.Prelude.{◌≡◌, ℕ, ◌+◌, ◌≤◌};
ghost use Rattle.blend_rules.specs.Colour.{product, multiply_value, screen_value, dark_value, light_value, overlay_value, darken_value, lighten_value, hard_light_value, difference_value, exclusion_value};

use super::rules::mul;

/// A mode's value on one colour channel.
pub(crate) trait ModeValue {
    ghost value: { ℕ → ℕ → ℕ → ℕ → ℕ };

    /// The value of `s` over `d` under the alphas `sa` and `da`.
    fn of(sa: u8, da: u8, s: u8, d: u8) -> u16
        requires source { s ≤ sa }
        requires backdrop { d ≤ da }
        ensures { result ≡ value sa da s d };
}

/// The product of both, beside each where the other is not.
pub(crate) struct Multiplied;

impl ModeValue for Multiplied {
    ghost value = { multiply_value };

    #[inline(always)]
    fn of(sa: u8, da: u8, s: u8, d: u8) -> u16 {
        (both(s, d) + mul(s, d) as u16).saturating_sub(shares(sa, da, s, d))
    }
}

/// Both, less their product.
pub(crate) struct Screened;

impl ModeValue for Screened {
    ghost value = { screen_value };

    #[inline(always)]
    fn of(_sa: u8, _da: u8, s: u8, d: u8) -> u16 {
        both(s, d).saturating_sub(mul(d, s) as u16)
    }
}

/// Dark or light, as the backdrop is.
pub(crate) struct Overlaid;

impl ModeValue for Overlaid {
    ghost value = { overlay_value };

    #[inline(always)]
    fn of(sa: u8, da: u8, s: u8, d: u8) -> u16 {
        if 2 * d as u16 <= da as u16 {
            dark(sa, da, s, d)
        } else {
            light(sa, da, s, d)
        }
    }
}

/// The darker of both.
pub(crate) struct Darkened;

impl ModeValue for Darkened {
    ghost value = { darken_value };

    #[inline(always)]
    fn of(sa: u8, da: u8, s: u8, d: u8) -> u16 {
        both(s, d).saturating_sub(mul(s, da).max(mul(d, sa)) as u16)
    }
}

/// The lighter of both.
pub(crate) struct Lightened;

impl ModeValue for Lightened {
    ghost value = { lighten_value };

    #[inline(always)]
    fn of(sa: u8, da: u8, s: u8, d: u8) -> u16 {
        both(s, d).saturating_sub(mul(s, da).min(mul(d, sa)) as u16)
    }
}

/// Dark or light, as the source is.
pub(crate) struct HardLit;

impl ModeValue for HardLit {
    ghost value = { hard_light_value };

    #[inline(always)]
    fn of(sa: u8, da: u8, s: u8, d: u8) -> u16 {
        if 2 * s as u16 <= sa as u16 {
            dark(sa, da, s, d)
        } else {
            light(sa, da, s, d)
        }
    }
}

/// How far both are apart.
pub(crate) struct Differing;

impl ModeValue for Differing {
    ghost value = { difference_value };

    #[inline(always)]
    fn of(sa: u8, da: u8, s: u8, d: u8) -> u16 {
        both(s, d).saturating_sub(2 * mul(s, da).min(mul(d, sa)) as u16)
    }
}

/// Both, less their product twice.
pub(crate) struct Excluded;

impl ModeValue for Excluded {
    ghost value = { exclusion_value };

    #[inline(always)]
    fn of(_sa: u8, _da: u8, s: u8, d: u8) -> u16 {
        both(s, d).saturating_sub(2 * mul(d, s) as u16)
    }
}

/// The sum of two bytes.
#[inline(always)]
fn both(s: u8, d: u8) -> u16
    ensures { result ≡ s + d }
{
    s as u16 + d as u16
}

/// What each alpha takes of the other's byte, in sum.
#[inline(always)]
fn shares(sa: u8, da: u8, s: u8, d: u8) -> u16
    ensures value { result ≡ product s da + product d sa }
    ensures small { result ≤ s + d }
{
    mul(s, da) as u16 + mul(d, sa) as u16
}

/// The product twice, beside each where the other is not.
#[inline(always)]
fn dark(sa: u8, da: u8, s: u8, d: u8) -> u16
    ensures { result ≡ dark_value sa da s d }
{
    (both(s, d) + 2 * mul(s, d) as u16).saturating_sub(shares(sa, da, s, d))
}

/// The complements' product twice, off the alphas' product.
#[inline(always)]
fn light(sa: u8, da: u8, s: u8, d: u8) -> u16
    requires source { s ≤ sa }
    requires backdrop { d ≤ da }
    ensures { result ≡ light_value sa da s d }
{
    let complements = 2 * mul(da - d, sa - s) as u16;
    (both(s, d) + mul(sa, da) as u16).saturating_sub(shares(sa, da, s, d) + complements)
}
