//! The records of an input, read, answered and written one by one.

ghost use Rattle.std.specs.Prelude.{◌≡◌, ◌≤◌, [], Ok, IfSome, OnOk, IfErr, true};
ghost use Rattle.wr_io.specs.Streams.{HasFailed};
ghost use Rattle.record_frame.specs.Framing.{IsInputForm, framing};
ghost use Rattle.record_frame.specs.Answers.{output_from};
ghost use Rattle.record_frame.specs.Reading.{Took};
ghost use Rattle.record_frame.specs.Writing.{WroteWhole};
ghost use Rattle.record_frame.specs.Steps.{RunCause, StepLeaves, StepState, BodyLeaves, ReachesState};

use crate::error::RunError;
use crate::limits::MAX_ENTRIES;
use crate::session::Session;
use std::alloc::Global;
use wr_io::{Sink, Source, write_whole};

/// How a step ended.
#[derive(Clone, Copy, Debug, PartialEq, Eq)]
pub(crate) enum StepEnd {
    /// It answered an entry.
    Answered,
    /// It answered the closing byte.
    Closed,
}

/// Memory that is used again for each entry.
#[derive(Drop)]
struct Buffers {
    payload: Vec<u8>,
    out: Vec<u8>,
}

/// Writes a whole piece.
pub(crate) fn write<K: Sink>(sink: &mut K, piece: &[u8]) -> Result<(), RunError>
    ensures told { WroteWhole (K.written sink.old) (K.written sink.new) piece.now result }
    ensures never_falls { K.faults sink.old ≤ K.faults sink.new }
    ensures ok_keeps_count { OnOk result (K.faults sink.new ≡ K.faults sink.old) }
    ensures causes { IfErr result (λ e. (e ≡ RunError.WriteFailed) × HasFailed (K.faults sink.old) (K.faults sink.new)) }
{
    match write_whole(sink, piece) {
        Ok(()) => Ok(()),
        Err(_) => Err(RunError::WriteFailed),
    }
}

/// Reads the next record, and writes its answer.
fn step<A: Session, S: Source, K: Sink>(
    alloc: Global,
    session: &A,
    subject: &mut A::Subject,
    buffers: &mut Buffers,
    source: &mut S,
    sink: &mut K,
    is_allowed: bool,
) -> Result<StepEnd, RunError>
    ensures told { IfSome (S.left source.old) (λ bytes. Took bytes (S.left source.new) (StepLeaves A.form A.rule is_allowed (A.state session.now subject.old) (A.state session.now subject.new) (K.written sink.old) (K.written sink.new) result)) }
    ensures state { StepState result (A.state session.now subject.old) (A.state session.now subject.new) }
    ensures allowed { result ≡ Ok StepEnd.Answered → is_allowed ≡ true }
    ensures source_never_falls { S.faults source.old ≤ S.faults source.new }
    ensures sink_never_falls { K.faults sink.old ≤ K.faults sink.new }
    ensures ok_keeps_counts { OnOk result ((S.faults source.new ≡ S.faults source.old) × (K.faults sink.new ≡ K.faults sink.old)) }
    ensures causes { IfErr result (RunCause A.rule (S.faults source.old) (S.faults source.new) (K.faults sink.old) (K.faults sink.new)) }
{
    match A::read(source, is_allowed, &mut buffers.payload)? {
        None => {
            write(sink, b"Z")?;
            Ok(StepEnd::Closed)
        }
        Some(head) => {
            session.answer(alloc, subject, head, &buffers.payload, &mut buffers.out)?;
            write(sink, &buffers.out)?;
            Ok(StepEnd::Answered)
        }
    }
}

/// Answers an input from where its records begin up to its closing byte, or to an entry that is
/// refused. Each record is written whole before the next is read, and the closing byte is written for the
/// input's alone. No call on the source or the sink follows one that failed. Where all was answered, and
/// where the framing is broken, the subject is in the state after all whole entries.
pub fn answer_records<A: Session, S: Source, K: Sink>(
    alloc: Global,
    session: &A,
    subject: &mut A::Subject,
    source: &mut S,
    sink: &mut K,
) -> Result<(), RunError>
    requires { IsInputForm A.form }
    ensures told { IfSome (S.left source.old) (λ bytes. Took bytes (S.left source.new) (BodyLeaves (output_from A.form [] A.rule (A.state session.now subject.old)) MAX_ENTRIES (K.written sink.old) (K.written sink.new) result)) }
    ensures state { IfSome (S.left source.old) (λ bytes. ReachesState A.rule (A.state session.now subject.old) (A.state session.now subject.new) result (framing A.form MAX_ENTRIES bytes).entries) }
    ensures source_never_falls { S.faults source.old ≤ S.faults source.new }
    ensures sink_never_falls { K.faults sink.old ≤ K.faults sink.new }
    ensures ok_keeps_counts { OnOk result ((S.faults source.new ≡ S.faults source.old) × (K.faults sink.new ≡ K.faults sink.old)) }
    ensures causes { IfErr result (RunCause A.rule (S.faults source.old) (S.faults source.new) (K.faults sink.old) (K.faults sink.new)) }
{
    let mut buffers = Buffers {
        payload: Vec::new(alloc),
        out: Vec::new(alloc),
    };
    let mut entries_left = MAX_ENTRIES;
    loop {
        match step::<A, S, K>(
            alloc,
            session,
            subject,
            &mut buffers,
            source,
            sink,
            entries_left > 0,
        )? {
            StepEnd::Answered => entries_left -= 1,
            StepEnd::Closed => return Ok(()),
        }
    }
}
