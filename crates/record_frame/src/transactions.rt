//! Commands over files of transactions.

ghost use Rattle.std.specs.Prelude.{◌≡◌, ◌≤◌, IfSome, IsSome, IfOk, OnOk, IfErr, true, ℕ, List, length};
ghost use Rattle.record_frame.specs.Answers.{AnswerRule, AnswersBy};
ghost use Rattle.record_frame.specs.Reading.{Took, Decides, ReadCause, record_read};
ghost use Rattle.record_frame.specs.Transactions.{transactions, first_transaction, payload_of};

use crate::error::{AnswerError, ReadError};
use crate::limits::MAX_PAYLOAD_BYTES;
use crate::reading::{read_payload, read_tag};
use crate::session::Session;
use std::alloc::Global;
use wr_io::Source;

/// Reads the next record: a transaction, where another one is allowed, whose payload goes into
/// `payload`, or the closing byte.
fn read_transaction<S: Source>(
    source: &mut S,
    is_allowed: bool,
    payload: &mut Vec<u8>,
) -> Result<Option<()>, ReadError>
    ensures told { IfSome (S.left source.old) (λ bytes. Took bytes (S.left source.new) (Decides 5 (first_transaction is_allowed) (record_read payload_of payload.new.items) result)) }
    ensures allowed { IfOk result (λ head. IsSome head → is_allowed ≡ true) }
    ensures limit { IfOk result (λ head. IsSome head → length payload.new.items ≤ MAX_PAYLOAD_BYTES) }
    ensures never_falls { S.faults source.old ≤ S.faults source.new }
    ensures ok_keeps_count { OnOk result (S.faults source.new ≡ S.faults source.old) }
    ensures causes { IfErr result (ReadCause (S.faults source.old) (S.faults source.new)) }
{
    match read_tag(source)? {
        b'Z' => Ok(None),
        b'T' if is_allowed => {
            read_payload(source, payload)?;
            Ok(Some(()))
        }
        _ => Err(ReadError::Broken),
    }
}

/// A command that answers payloads one by one.
pub trait AnswerPayload: Drop {
    /// What the command works on.
    type Subject: Drop;

    /// What the answers depend on beside the payload.
    ghost State: { Type 0 };

    /// The state that the subject is in.
    ghost state: { Self → Self.Subject → Self.State };

    /// The answer to each payload, and the state after it.
    ghost rule: { AnswerRule (List ℕ) Self.State };

    /// Puts the record that answers a payload into `out`, and takes the subject's state to the next, or
    /// answers why the payload is refused. A refusal ends the command.
    fn answer(
        &self,
        alloc: Global,
        subject: &mut Self::Subject,
        payload: &[u8],
        out: &mut Vec<u8>,
    ) -> Result<(), AnswerError>
        requires { length payload.now ≤ MAX_PAYLOAD_BYTES }
        ensures { AnswersBy Self.rule payload.now (Self.state self.now subject.old) (Self.state self.now subject.new) out.new.items result };
}

/// Answers the payloads of a file of transactions.
#[derive(Debug, Drop)]
pub struct Transactions<A: AnswerPayload> {
    /// What answers each payload.
    pub by: A,
}

impl<A: AnswerPayload> Session for Transactions<A> {
    type Head = ();

    type Subject = A::Subject;

    ghost Entry = { List ℕ };

    ghost State = { A.State };

    ghost form = { transactions };

    ghost entry_of = { payload_of };

    ghost rule = { A.rule };

    ghost state = { λ command subject. A.state command.by subject };

    fn opens(magic: &[u8]) -> bool {
        b"WRT1".as_slice() == magic
    }

    fn read<S: Source>(
        source: &mut S,
        is_allowed: bool,
        payload: &mut Vec<u8>,
    ) -> Result<Option<()>, ReadError> {
        read_transaction(source, is_allowed, payload)
    }

    fn answer(
        &self,
        alloc: Global,
        subject: &mut A::Subject,
        _head: (),
        payload: &[u8],
        out: &mut Vec<u8>,
    ) -> Result<(), AnswerError> {
        self.by.answer(alloc, subject, payload, out)
    }
}
