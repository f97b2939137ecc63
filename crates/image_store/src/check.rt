//! The first texel that isn't premultiplied.

ghost use Rattle.std.specs.Prelude.{◌≡◌, ◌<◌, ◌≤◌, ◌+◌, ◌*◌, ◌/◌, ◌^◌, length, None, IfSome};
ghost use Rattle.blend_rules.specs.Colour.{is_premultiplied, colour_from};
ghost use Rattle.blend_rules.specs.Pixels.{pixels};
ghost use Rattle.image_store.specs.Bands.{HasPixels};
ghost use Rattle.image_store.specs.Changes.{bad_from};

#[tactic(auto, unfolding(blend_rules::specs::Colour::is_premultiplied))]
fn is_sound_texel(bytes: &[u8], at: usize) -> bool
    requires { at + 4 ≤ length bytes.now }
    ensures value { result ≡ is_premultiplied (colour_from bytes.now at) }
    ensures byte { (colour_from bytes.now at).a < 2 ^ 8 }
{
    let alpha = bytes[at + 3];
    bytes[at] <= alpha && bytes[at + 1] <= alpha && bytes[at + 2] <= alpha
}

/// The number of the first texel that isn't premultiplied, where the first of all has a number.
pub(crate) fn first_bad_texel(bytes: &[u8], number: usize) -> Option<usize>
    requires room { number + length bytes.now / 4 ≤ 2 ^ 32 }
    ensures value { result ≡ bad_from number (pixels bytes.now) }
    ensures within { IfSome result (λ i. i < number + length bytes.now / 4) }
    ensures pixels { result ≡ None → HasPixels (pixels bytes.now) }
{
    for i in 0..bytes.len() / 4 {
        if !is_sound_texel(bytes, 4 * i) {
            return Some(number + i);
        }
    }
    None
}

/// The same, where a number tells whether there may be one.
#[tactic(auto, using(crate::proofs::Checking::none_bad))]
pub(crate) fn first_bad_where(over: u8, bytes: &[u8], number: usize) -> Option<usize>
    requires room { number + length bytes.now / 4 ≤ 2 ^ 32 }
    requires sound { over ≡ 0 → HasPixels (pixels bytes.now) }
    ensures value { result ≡ bad_from number (pixels bytes.now) }
    ensures within { IfSome result (λ i. i < number + length bytes.now / 4) }
    ensures pixels { result ≡ None → HasPixels (pixels bytes.now) }
{
    if over == 0 {
        return None;
    }
    first_bad_texel(bytes, number)
}
