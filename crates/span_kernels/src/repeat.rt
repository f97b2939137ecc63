//! Rows that are repeated.

ghost use Rattle.std.specs.Prelude.{◌≡◌, ◌≤◌, ◌<◌, ◌+◌, ◌-◌, ◌%◌, ℕ, length, slice_index, EachIndex, min};

use crate::runs::copy;

/// Sets each byte to that of another row which is repeated without end, from its byte at the index `first` on. It takes no
/// memory.
pub fn copy_repeated(d: &mut [u8], s: &[u8], first: usize)
    requires { first < length s.now }
    ensures { EachIndex d.new (λ k. slice_index d.new k ≡ slice_index s.now ((first + k) % length s.now)) }
{
    copy_once(d, s, first);
    repeat_front(d, s.len());
}

/// Copies a row once, from one of its bytes on and then from its first on, as far as there is room.
fn copy_once(d: &mut [u8], s: &[u8], first: usize)
    requires { first < length s.now }
    ensures { (k : ℕ) → k < length s.now → k < length d.old
        → slice_index d.new k ≡ slice_index s.now ((first + k) % length s.now) }
{
    let back = (s.len() - first).min(d.len());
    let front = first.min(d.len() - back);
    copy_part(d, 0, s, first, back);
    copy_part(d, back, s, 0, front);
}

/// Copies `count` bytes of a row, from the index `from` on, to the index `at` of another.
fn copy_part(d: &mut [u8], at: usize, s: &[u8], from: usize, count: usize)
    requires room { at + count ≤ length d.old }
    requires source { from + count ≤ length s.now }
    ensures inside { (k : ℕ) → at ≤ k → k < at + count → slice_index d.new k ≡ slice_index s.now (from + (k - at)) }
    ensures below { (k : ℕ) → k < at → slice_index d.new k ≡ slice_index d.old k }
{
    copy(&mut d[at..at + count], &s[from..from + count]);
}

/// Repeats the first `count` bytes of a row up to its end: as many at a time as there are already.
fn repeat_front(d: &mut [u8], count: usize)
    requires { 1 ≤ count }
    ensures { EachIndex d.new (λ k. slice_index d.new k ≡ slice_index d.old (k % count)) }
{
    let mut done = count;
    while done < d.len() {
        done += append_front(d, done);
    }
}

/// Copies the first `done` bytes of a row behind themselves, as far as there is room, and gives their number.
fn append_front(d: &mut [u8], done: usize) -> usize
    requires { done ≤ length d.old }
    ensures count { result ≡ min done (length d.old - done) }
    ensures same { (k : ℕ) → k < done → slice_index d.new k ≡ slice_index d.old k }
    ensures again { (k : ℕ) → done ≤ k → k < done + result → slice_index d.new k ≡ slice_index d.old (k - done) }
{
    let count = done.min(d.len() - done);
    let (front, rest) = d.split_at_mut(done);
    copy(&mut rest[..count], &front[..count]);
    count
}
