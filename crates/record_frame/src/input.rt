//! A whole input, from its magic to its closing byte.

ghost use Rattle.std.specs.Prelude.{◌≡◌, ◌≤◌, IfSome, OnOk, IfErr};
ghost use Rattle.record_frame.specs.Framing.{IsInputForm, entries_of};
ghost use Rattle.record_frame.specs.Answers.{output_from};
ghost use Rattle.record_frame.specs.Reading.{Took, ReadCause};
ghost use Rattle.record_frame.specs.Steps.{RunCause, ReachesState};
ghost use Rattle.record_frame.specs.Outcome.{Opens, OpeningLeaves, InputLeaves};

use crate::error::{ReadError, RunError};
use crate::reading::fill;
use crate::records::{answer_records, write};
use crate::session::Session;
use std::alloc::Global;
use wr_io::{Sink, Source};

/// Reads the four bytes with which an input begins.
fn read_magic<A: Session, S: Source>(source: &mut S) -> Result<(), ReadError>
    requires { IsInputForm A.form }
    ensures told { IfSome (S.left source.old) (λ bytes. Took bytes (S.left source.new) (Opens A.form.opens result)) }
    ensures never_falls { S.faults source.old ≤ S.faults source.new }
    ensures ok_keeps_count { OnOk result (S.faults source.new ≡ S.faults source.old) }
    ensures causes { IfErr result (ReadCause (S.faults source.old) (S.faults source.new)) }
{
    let mut magic = [0u8; 4];
    fill(source, &mut magic)?;
    if !A::opens(&magic) {
        return Err(ReadError::Broken);
    }
    Ok(())
}

/// Begins an input: reads its magic, and writes `magic`, with which the output begins, once it was read.
pub fn open_input<A: Session, S: Source, K: Sink>(
    magic: &[u8],
    source: &mut S,
    sink: &mut K,
) -> Result<(), RunError>
    requires { IsInputForm A.form }
    ensures told { IfSome (S.left source.old) (λ bytes. Took bytes (S.left source.new) (OpeningLeaves A.form.opens magic.now (K.written sink.old) (K.written sink.new) result)) }
    ensures source_never_falls { S.faults source.old ≤ S.faults source.new }
    ensures sink_never_falls { K.faults sink.old ≤ K.faults sink.new }
    ensures ok_keeps_counts { OnOk result ((S.faults source.new ≡ S.faults source.old) × (K.faults sink.new ≡ K.faults sink.old)) }
    ensures causes { IfErr result (RunCause A.rule (S.faults source.old) (S.faults source.new) (K.faults sink.old) (K.faults sink.new)) }
{
    read_magic::<A, S>(source)?;
    write(sink, magic)
}

/// Answers an input up to its closing byte, or to an entry that the command refuses. The output begins
/// with `magic`, which is written once the magic of the input was read. Each record is written whole
/// before the next is read, and the closing byte is written for the input's alone. No call on the source
/// or the sink follows one that failed. Where all was answered, and where the framing is broken, the
/// subject is in the state after all whole entries.
pub fn answer_input<A: Session, S: Source, K: Sink>(
    alloc: Global,
    magic: &[u8],
    session: &A,
    subject: &mut A::Subject,
    source: &mut S,
    sink: &mut K,
) -> Result<(), RunError>
    requires { IsInputForm A.form }
    ensures told { IfSome (S.left source.old) (λ bytes. Took bytes (S.left source.new) (InputLeaves (output_from A.form magic.now A.rule (A.state session.now subject.old)) (K.written sink.old) (K.written sink.new) result)) }
    ensures state { IfSome (S.left source.old) (λ bytes. ReachesState A.rule (A.state session.now subject.old) (A.state session.now subject.new) result (entries_of A.form bytes)) }
    ensures source_never_falls { S.faults source.old ≤ S.faults source.new }
    ensures sink_never_falls { K.faults sink.old ≤ K.faults sink.new }
    ensures ok_keeps_counts { OnOk result ((S.faults source.new ≡ S.faults source.old) × (K.faults sink.new ≡ K.faults sink.old)) }
    ensures causes { IfErr result (RunCause A.rule (S.faults source.old) (S.faults source.new) (K.faults sink.old) (K.faults sink.new)) }
{
    open_input::<A, S, K>(magic, source, sink)?;
    answer_records::<A, S, K>(alloc, session, subject, source, sink)
}
