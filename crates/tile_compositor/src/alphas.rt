//! The alphas of a row.

ghost use Rattle.std.specs.Prelude.{◌≤◌, EachIndex, slice_index};

/// The least and the greatest byte of a row, or 255 and 0 where it has none.
pub(crate) fn range_of(row: &[u8]) -> (u8, u8)
    ensures least { EachIndex row.now (λ k. result.0 ≤ slice_index row.now k) }
    ensures greatest { EachIndex row.now (λ k. slice_index row.now k ≤ result.1) }
{
    let (mut least, mut greatest) = (255, 0);
    for &byte in row {
        least = byte.min(least);
        greatest = byte.max(greatest);
    }
    (least, greatest)
}
