//! What a command does with its input.

ghost use Rattle.std.specs.Prelude.{◌≡◌, ◌≤◌, ℕ, List, length, IfSome, IsSome, IfOk, OnOk, IfErr, true};
ghost use Rattle.record_frame.specs.Framing.{InputForm};
ghost use Rattle.record_frame.specs.Answers.{AnswerRule, AnswersBy};
ghost use Rattle.record_frame.specs.Reading.{Took, Decides, ReadCause, record_read};

use crate::error::{AnswerError, ReadError};
use crate::limits::MAX_PAYLOAD_BYTES;
use std::alloc::Global;
use wr_io::Source;

/// A command over one input: it reads the entries, and answers them one by one.
pub trait Session: Drop {
    /// What is read of an entry beside the bytes of its payload.
    type Head: Copy;

    /// What the command works on.
    type Subject: Drop;

    /// An entry of an input.
    ghost Entry: { Type 0 };

    /// What the answers depend on beside the entry.
    ghost State: { Type 0 };

    /// How an input is divided into entries.
    ghost form: { InputForm Self.Entry };

    /// The entry of a head and a payload.
    ghost entry_of: { Self.Head → List ℕ → Self.Entry };

    /// The answer to each entry, and the state after it.
    ghost rule: { AnswerRule Self.Entry Self.State };

    /// The state that the subject is in.
    ghost state: { Self → Self.Subject → Self.State };

    /// Whether an input begins with these four bytes.
    fn opens(magic: &[u8]) -> bool
        requires { length magic.now ≡ 4 }
        ensures { result ≡ Self.form.opens magic.now };

    /// Reads the next record: an entry, where another one is allowed, whose payload goes into
    /// `payload`, or the closing byte.
    fn read<S: Source>(
        source: &mut S,
        is_allowed: bool,
        payload: &mut Vec<u8>,
    ) -> Result<Option<Self::Head>, ReadError>
        ensures told { IfSome (S.left source.old) (λ bytes. Took bytes (S.left source.new) (Decides 5 (Self.form.first is_allowed) (record_read Self.entry_of payload.new.items) result)) }
        ensures allowed { IfOk result (λ head. IsSome head → is_allowed ≡ true) }
        ensures limit { IfOk result (λ head. IsSome head → length payload.new.items ≤ MAX_PAYLOAD_BYTES) }
        ensures never_falls { S.faults source.old ≤ S.faults source.new }
        ensures ok_keeps_count { OnOk result (S.faults source.new ≡ S.faults source.old) }
        ensures causes { IfErr result (ReadCause (S.faults source.old) (S.faults source.new)) };

    /// Puts the record that answers an entry into `out`, and takes the subject's state to the next, or
    /// answers why the entry is refused. A refusal ends the command.
    fn answer(
        &self,
        alloc: Global,
        subject: &mut Self::Subject,
        head: Self::Head,
        payload: &[u8],
        out: &mut Vec<u8>,
    ) -> Result<(), AnswerError>
        requires { length payload.now ≤ MAX_PAYLOAD_BYTES }
        ensures { AnswersBy Self.rule (Self.entry_of head payload.now) (Self.state self.now subject.old) (Self.state self.now subject.new) out.new.items result };
}
