//! Interleaved colours taken apart into their planes.

ghost use Rattle.std.specs.Prelude.{◌≡◌, ◌<◌, ◌≤◌, ◌+◌, ◌*◌, ◌/◌, ◌^◌, ◌↔◌, ℕ, min, length, take, drop, slice_index};
ghost use Rattle.blend_rules.specs.Colour.{IsPixel, colour_from};
ghost use Rattle.blend_rules.specs.Pixels.{pixels};
ghost use Rattle.image_store.specs.Bands.{HasPixels, opaque_count, IsSplit};
ghost use Rattle.blend_rules.specs.declared.plane.Plane.TheVariants.{B, G, R, A};

use blend_rules::Px;

/// What one pass over texels found.
#[derive(Clone, Copy)]
pub(crate) struct Tested {
    /// By how much a colour byte exceeds its alpha at most: 0 exactly where all are premultiplied.
    pub(crate) over: u8,
    /// How many alphas are 255.
    pub(crate) opaque: usize,
}

/// The bytes of colours, each into its plane, and none above its alpha. They are tested in the same pass.
fn split_texels(bytes: &[u8], b: &mut [u8], g: &mut [u8], r: &mut [u8], a: &mut [u8]) -> Tested
    requires bytes { length bytes.now ≡ 4 * length b.old }
    requires green { length g.old ≡ length b.old }
    requires red { length r.old ≡ length b.old }
    requires alpha { length a.old ≡ length b.old }
    ensures blue { (i : ℕ) → i < length b.old → slice_index b.new i ≡ min (slice_index bytes.now (4 * i)) (slice_index bytes.now (4 * i + 3)) }
    ensures green { (i : ℕ) → i < length b.old → slice_index g.new i ≡ min (slice_index bytes.now (4 * i + 1)) (slice_index bytes.now (4 * i + 3)) }
    ensures red { (i : ℕ) → i < length b.old → slice_index r.new i ≡ min (slice_index bytes.now (4 * i + 2)) (slice_index bytes.now (4 * i + 3)) }
    ensures alpha { (i : ℕ) → i < length b.old → slice_index a.new i ≡ slice_index bytes.now (4 * i + 3) }
    ensures byte { (i : ℕ) → i < length b.old → slice_index bytes.now (4 * i + 3) < 2 ^ 8 }
    ensures sound { result.over ≡ 0 → (i : ℕ) → i < length b.old → IsPixel (colour_from bytes.now (4 * i)) }
    ensures exact { ((i : ℕ) → i < length b.old → IsPixel (colour_from bytes.now (4 * i))) → result.over ≡ 0 }
    ensures opaque { result.opaque ≡ opaque_count a.new }
{
    let mut over = 0u8;
    let mut opaque = 0usize;
    for i in 0..b.len() {
        let p = Px {
            b: bytes[4 * i],
            g: bytes[4 * i + 1],
            r: bytes[4 * i + 2],
            a: bytes[4 * i + 3],
        };
        b[i] = p.b.min(p.a);
        g[i] = p.g.min(p.a);
        r[i] = p.r.min(p.a);
        a[i] = p.a;
        over = most_over(over, p);
        opaque += usize::from(p.a == 255);
    }
    Tested { over, opaque }
}

/// The greater of a number and of how much a colour's bytes exceed its alpha.
#[inline(always)]
fn most_over(over: u8, p: Px) -> u8
    ensures before { result ≡ 0 → over ≡ 0 }
    ensures here { result ≡ 0 → IsPixel p }
    ensures exact { over ≡ 0 → IsPixel p → result ≡ 0 }
{
    over.max(p.b.max(p.g).max(p.r).saturating_sub(p.a))
}

/// How many bytes are 255.
pub(crate) fn count_opaque(alpha: &[u8]) -> usize
    ensures { result ≡ opaque_count alpha.now }
{
    alpha.iter().filter(|a| **a == 255).count()
}

/// The bytes of colours, each into its plane from an index on and none above its alpha, with what the pass found.
fn split_into(
    bytes: &[u8],
    at: usize,
    b: &mut [u8],
    g: &mut [u8],
    r: &mut [u8],
    a: &mut [u8],
) -> Tested
    requires whole { length bytes.now ≡ 4 * (length bytes.now / 4) }
    requires room { at + length bytes.now / 4 ≤ length b.old }
    requires green { length g.old ≡ length b.old }
    requires red { length r.old ≡ length b.old }
    requires alpha { length a.old ≡ length b.old }
    ensures blue { IsSplit B bytes.now at b.old b.new }
    ensures green { IsSplit G bytes.now at g.old g.new }
    ensures red { IsSplit R bytes.now at r.old r.new }
    ensures alpha { IsSplit A bytes.now at a.old a.new }
    ensures byte { (i : ℕ) → i < length bytes.now / 4 → (colour_from bytes.now (4 * i)).a < 2 ^ 8 }
    ensures over { result.over ≡ 0 ↔ HasPixels (pixels bytes.now) }
    ensures opaque { result.opaque ≡ opaque_count (take (length bytes.now / 4) (drop at a.new)) }
{
    let end = at + bytes.len() / 4;
    split_texels(
        bytes,
        &mut b[at..end],
        &mut g[at..end],
        &mut r[at..end],
        &mut a[at..end],
    )
}

/// The bytes of colours, each into its plane from an index on and none above its alpha, with what the pass found.
pub(crate) fn split_planes(
    bytes: &[u8],
    at: usize,
    b: &mut Vec<u8>,
    g: &mut Vec<u8>,
    r: &mut Vec<u8>,
    a: &mut Vec<u8>,
) -> Tested
    requires whole { length bytes.now ≡ 4 * (length bytes.now / 4) }
    requires room { at + length bytes.now / 4 ≤ length b.old.items }
    requires green { length g.old.items ≡ length b.old.items }
    requires red { length r.old.items ≡ length b.old.items }
    requires alpha { length a.old.items ≡ length b.old.items }
    ensures blue { IsSplit B bytes.now at b.old.items b.new.items }
    ensures green { IsSplit G bytes.now at g.old.items g.new.items }
    ensures red { IsSplit R bytes.now at r.old.items r.new.items }
    ensures alpha { IsSplit A bytes.now at a.old.items a.new.items }
    ensures byte { (i : ℕ) → i < length bytes.now / 4 → (colour_from bytes.now (4 * i)).a < 2 ^ 8 }
    ensures over { result.over ≡ 0 ↔ HasPixels (pixels bytes.now) }
    ensures opaque { result.opaque ≡ opaque_count (take (length bytes.now / 4) (drop at a.new.items)) }
{
    split_into(
        bytes,
        at,
        b.as_mut_slice(),
        g.as_mut_slice(),
        r.as_mut_slice(),
        a.as_mut_slice(),
    )
}
