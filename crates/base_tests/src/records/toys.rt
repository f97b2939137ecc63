//! Small commands.

ghost use Rattle.std.specs.Prelude.{◌≡◌, ◌≤◌, ℕ, List, Bool, Option, length, IfSome, IsSome, IfOk, IfErr, OnOk, true};
ghost use Rattle.record_frame.specs.Framing.{entry};
ghost use Rattle.record_frame.specs.Reading.{Took, Decides, ReadCause, record_read};
ghost use Rattle.base_tests.specs.Toys.{lengths, first_bytes, first_after, first_ring, bells, ring_of, ringing};

use record_frame::{
    AnswerError, AnswerPayload, MAX_PAYLOAD_BYTES, ReadError, Session, read_payload, read_tag,
};
use std::alloc::Global;
use wr_io::{Code, Fault, Source};

/// Answers each payload by the length of the one before.
#[derive(Debug, Drop)]
pub(super) struct Lengths;

impl AnswerPayload for Lengths {
    type Subject = u32;

    ghost State = { ℕ };

    ghost state = { λ _ before. before };

    ghost rule = { lengths };

    fn answer(
        &self,
        _alloc: Global,
        before: &mut u32,
        payload: &[u8],
        out: &mut Vec<u8>,
    ) -> Result<(), AnswerError> {
        out.clear();
        out.extend_from_slice(&before.to_le_bytes())?;
        *before = payload.len() as u32;
        Ok(())
    }
}

/// Answers each payload by its first byte, and refuses an empty one.
#[derive(Debug, Drop)]
pub(super) struct FirstBytes;

impl AnswerPayload for FirstBytes {
    type Subject = ();

    ghost State = { Unit {0} };

    ghost state = { λ _ _. tt };

    ghost rule = { first_bytes };

    fn answer(
        &self,
        _alloc: Global,
        _subject: &mut (),
        payload: &[u8],
        out: &mut Vec<u8>,
    ) -> Result<(), AnswerError> {
        out.clear();
        match payload {
            [] => Err(AnswerError::Refused(Fault {
                code: Code::Short,
                at: 0,
            })),
            [first, ..] => {
                out.push(*first)?;
                Ok(())
            }
        }
    }
}

/// Reads what follows the first byte of an entry, and answers whether it has a payload.
fn read_rest<S: Source>(tag: u8, source: &mut S, payload: &mut Vec<u8>) -> Result<bool, ReadError>
    ensures told { IfSome (S.left source.old) (λ bytes. Took bytes (S.left source.new) (Decides 4 (first_after tag) (λ head. entry (ring_of head payload.new.items)) result)) }
    ensures limit { OnOk result (length payload.new.items ≤ MAX_PAYLOAD_BYTES) }
    ensures never_falls { S.faults source.old ≤ S.faults source.new }
    ensures ok_keeps_count { OnOk result (S.faults source.new ≡ S.faults source.old) }
    ensures causes { IfErr result (ReadCause (S.faults source.old) (S.faults source.new)) }
{
    payload.clear();
    match tag {
        b'B' => Ok(false),
        b'P' => {
            read_payload(source, payload)?;
            Ok(true)
        }
        _ => Err(ReadError::Broken),
    }
}

/// Reads the next record.
fn read_ring<S: Source>(
    source: &mut S,
    is_allowed: bool,
    payload: &mut Vec<u8>,
) -> Result<Option<bool>, ReadError>
    ensures told { IfSome (S.left source.old) (λ bytes. Took bytes (S.left source.new) (Decides 5 (first_ring is_allowed) (record_read ring_of payload.new.items) result)) }
    ensures allowed { IfOk result (λ head. IsSome head → is_allowed ≡ true) }
    ensures limit { IfOk result (λ head. IsSome head → length payload.new.items ≤ MAX_PAYLOAD_BYTES) }
    ensures never_falls { S.faults source.old ≤ S.faults source.new }
    ensures ok_keeps_count { OnOk result (S.faults source.new ≡ S.faults source.old) }
    ensures causes { IfErr result (ReadCause (S.faults source.old) (S.faults source.new)) }
{
    match read_tag(source)? {
        b'Z' => Ok(None),
        tag if is_allowed => {
            let head = read_rest(tag, source, payload)?;
            Ok(Some(head))
        }
        _ => Err(ReadError::Broken),
    }
}

/// Answers each bell and each payload by a byte.
#[derive(Debug, Drop)]
pub(super) struct Bells;

impl Session for Bells {
    type Head = bool;

    type Subject = ();

    ghost Entry = { Option (List ℕ) };

    ghost State = { Unit {0} };

    ghost form = { bells };

    ghost entry_of = { ring_of };

    ghost rule = { ringing };

    ghost state = { λ _ _. tt };

    fn opens(magic: &[u8]) -> bool {
        b"BELL".as_slice() == magic
    }

    fn read<S: Source>(
        source: &mut S,
        is_allowed: bool,
        payload: &mut Vec<u8>,
    ) -> Result<Option<bool>, ReadError> {
        read_ring(source, is_allowed, payload)
    }

    fn answer(
        &self,
        _alloc: Global,
        _subject: &mut (),
        head: bool,
        _payload: &[u8],
        out: &mut Vec<u8>,
    ) -> Result<(), AnswerError> {
        out.clear();
        if head {
            out.push(b'P')?;
        } else {
            out.push(b'B')?;
        }
        Ok(())
    }
}
