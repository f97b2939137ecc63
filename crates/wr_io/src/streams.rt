//! Where bytes come from and where they go.

ghost use Rattle.std.specs.Prelude.{◌≡◌, ◌≤◌, ◌<◌, ◌++◌, ℕ, List, Option, Some, IfSome, IfOk, OnOk, OnErr, Ok, MatchResult, length};
ghost use Rattle.wr_io.specs.Streams.{HasFailed, ReadsFrom, ReadsExactly, LeavesSome, WritesPart, WritesStrictPart};

use thiserror::Error;

/// A call on a source or a sink failed, and moved no byte.
#[derive(Clone, Copy, Debug, PartialEq, Eq, Hash, Error)]
#[error("the call failed")]
pub struct Failed;

/// Where bytes come from.
pub trait Source {
    /// The bytes that are left, where the source tells them.
    ghost left: { Self → Option (List ℕ) };

    /// How many calls failed so far, a number that stands at the last value of a `u64`.
    ghost faults: { Self → ℕ };

    /// Puts the next bytes into `out`, from its first byte on, and answers how many. None for a non-empty
    /// `out` means the end of input. A failed call takes nothing.
    fn read(&mut self, out: &mut [u8]) -> Result<usize, Failed>
        ensures count { IfOk result (λ n. n ≤ length out.new) }
        ensures told { IfSome (left self.old) (λ bytes.
            MatchResult result (ReadsFrom bytes (left self.new) out.new) (λ _. left self.new ≡ Some bytes)) }
        ensures ok_keeps_count { OnOk result (faults self.new ≡ faults self.old) }
        ensures never_falls { faults self.old ≤ faults self.new }
        ensures failed { OnErr result (HasFailed (faults self.old) (faults self.new)) };
}

/// Where bytes go.
pub trait Sink {
    /// The bytes that were written, where the sink tells them.
    ghost written: { Self → Option (List ℕ) };

    /// How many calls failed so far, a number that stands at the last value of a `u64`.
    ghost faults: { Self → ℕ };

    /// Appends the first bytes of `piece`, and answers how many: at least one of a non-empty piece. A
    /// failed call writes nothing.
    fn write(&mut self, piece: &[u8]) -> Result<usize, Failed>
        ensures count { IfOk result (λ n. n ≤ length piece.now) }
        ensures some { 0 < length piece.now → IfOk result (λ n. 0 < n) }
        ensures told { IfSome (written self.old) (λ bytes.
            MatchResult result (WritesPart bytes (written self.new) piece.now) (λ _. written self.new ≡ Some bytes)) }
        ensures ok_keeps_count { OnOk result (faults self.new ≡ faults self.old) }
        ensures never_falls { faults self.old ≤ faults self.new }
        ensures failed { OnErr result (HasFailed (faults self.old) (faults self.new)) };
}

/// Fills `out` with the next bytes, and answers how many they are: fewer than asked only at the end
/// of input. A failed call ends it, and none is made again: fewer bytes than asked were taken then, and
/// what `out` holds is open. An empty `out` makes no call.
pub fn read_exact<S: Source>(source: &mut S, out: &mut [u8]) -> Result<usize, Failed>
    ensures count { IfOk result (λ n. n ≤ length out.new) }
    ensures told { IfSome (S.left source.old) (λ bytes.
        MatchResult result (ReadsExactly bytes (S.left source.new) out.new) (λ _. LeavesSome bytes (S.left source.new) (length out.new))) }
    ensures ok_keeps_count { OnOk result (S.faults source.new ≡ S.faults source.old) }
    ensures never_falls { S.faults source.old ≤ S.faults source.new }
    ensures failed { OnErr result (HasFailed (S.faults source.old) (S.faults source.new)) }
    ensures no_call { length out.old ≡ 0 → (result ≡ Ok 0) × (source.new ≡ source.old) }
{
    let mut filled = 0;
    while filled < out.len() {
        let count = source.read(&mut out[filled..])?;
        if count == 0 {
            break;
        }
        filled += count;
    }
    Ok(filled)
}

/// Writes the whole piece. A failed call ends it, and none is made again: a prefix of the piece was
/// written then, shorter than the whole. An empty piece makes no call.
pub fn write_whole<K: Sink>(sink: &mut K, piece: &[u8]) -> Result<(), Failed>
    ensures told { IfSome (K.written sink.old) (λ bytes.
        MatchResult result (λ _. K.written sink.new ≡ Some (bytes ++ piece.now)) (λ _. WritesStrictPart bytes (K.written sink.new) piece.now)) }
    ensures ok_keeps_count { OnOk result (K.faults sink.new ≡ K.faults sink.old) }
    ensures never_falls { K.faults sink.old ≤ K.faults sink.new }
    ensures failed { OnErr result (HasFailed (K.faults sink.old) (K.faults sink.new)) }
    ensures no_call { length piece.now ≡ 0 → (result ≡ Ok (record {})) × (sink.new ≡ sink.old) }
{
    let mut done = 0;
    while done < piece.len() {
        done += sink.write(&piece[done..])?;
    }
    Ok(())
}
