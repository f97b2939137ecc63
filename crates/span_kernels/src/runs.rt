//! Rows that are set to one byte, or to those of another row.

ghost use Rattle.std.specs.Prelude.{◌≡◌, ◌<◌, ◌^◌, ℕ, length, replicate, slice_index};

/// Sets each byte. It takes no memory.
pub fn fill(d: &mut [u8], v: u8)
    ensures { d.new ≡ replicate (length d.old) v }
{
    d.fill(v);
}

/// Sets each byte to that of another row of the same length. It takes no memory.
pub fn copy(d: &mut [u8], s: &[u8])
    requires { length s.now ≡ length d.old }
    ensures { d.new ≡ s.now }
{
    d.copy_from_slice(s);
}

/// What the type of a row keeps, for whoever reasons about its bytes. It does nothing.
pub fn know_row(row: &[u8])
    ensures { (k : ℕ) → slice_index row.now k < 2 ^ 8 }
{
    let _length = row.len();
}
