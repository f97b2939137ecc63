ghost use Rattle.std.specs.Prelude.{◌≡◌, ◌≤◌, ◌<◌, ◌⊎◌, ◌≤ℤ◌, ◌<ℤ◌, ◌+ℤ◌, pos, ℕ, length, EachIndex, slice_index};
ghost use Rattle.wr_geom.specs.Bounds.{IsCoordinate};
ghost use Rattle.blend_rules.specs.Colour.{product};

use super::Clip;
use blend_rules::mul;

impl Clip {
    ghost use Rattle.clip_masks.specs.Coverage.{coverage};

    /// Multiplies each byte of a row, which begins at (x0, y), by the clip's cover there.
    ///
    /// Only the bytes of pixels that a corner's arc crosses are looked at one by one: elsewhere a
    /// cover of 0 fills, and one of 255 leaves the row as it is.
    pub(crate) fn scale_row(&self, y: i32, x0: i32, out: &mut [u8])
        ensures { EachIndex out.new (λ k. slice_index out.new k
            ≡ product (slice_index out.old k) (coverage self.now (x0 +ℤ pos k) y)) }
    {
        let spans = self.shape.spans(y);
        let len = out.len();
        let left = index_of(spans.left, x0, len);
        let from = index_of(spans.from, x0, len);
        let to = index_of(spans.to, x0, len);
        let right = index_of(spans.right, x0, len);
        self.scale_part(y, x0, left, from, out);
        self.scale_part(y, x0, to, right, out);
        if self.out {
            clear_part(from, to, out);
        } else {
            clear_part(0, left, out);
            clear_part(right, len, out);
        }
    }

    /// Multiplies the bytes from index `from` up to `to` by the clip's cover, pixel by pixel.
    fn scale_part(&self, y: i32, x0: i32, from: usize, to: usize, out: &mut [u8])
        requires ordered { from ≤ to }
        requires within { to ≤ length out.old }
        requires range { (k : ℕ) → from ≤ k → k < to → IsCoordinate (x0 +ℤ pos k) }
        ensures scaled { (k : ℕ) → from ≤ k → k < to → slice_index out.new k
            ≡ product (slice_index out.old k) (coverage self.now (x0 +ℤ pos k) y) }
        ensures below { (k : ℕ) → k < from → slice_index out.new k ≡ slice_index out.old k }
        ensures above { (k : ℕ) → to ≤ k → slice_index out.new k ≡ slice_index out.old k }
    {
        for k in from..to {
            let x = (x0 as i64 + k as i64) as i32;
            out[k] = mul(out[k], self.cover(x, y));
        }
    }
}

/// Fills the bytes from index `from` up to `to` with 0.
fn clear_part(from: usize, to: usize, out: &mut [u8])
    requires ordered { from ≤ to }
    requires within { to ≤ length out.old }
    ensures cleared { (k : ℕ) → from ≤ k → k < to → slice_index out.new k ≡ 0 }
    ensures below { (k : ℕ) → k < from → slice_index out.new k ≡ slice_index out.old k }
    ensures above { (k : ℕ) → to ≤ k → slice_index out.new k ≡ slice_index out.old k }
{
    out[from..to].fill(0);
}

/// The index of the first pixel at or beyond `edge` in a row that begins at `x0`, at most `len`.
fn index_of(edge: i32, x0: i32, len: usize) -> usize
    ensures within { result ≤ len }
    ensures before { (k : ℕ) → k < result → (x0 +ℤ pos k) <ℤ edge }
    ensures after { (k : ℕ) → result ≤ k → k < len → edge ≤ℤ (x0 +ℤ pos k) }
{
    let distance = edge as i64 - x0 as i64;
    if distance <= 0 {
        return 0;
    }
    (distance as usize).min(len)
}
