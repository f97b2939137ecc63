//! The command `replay`: payloads answered by frames of a renderer.

ghost use Rattle.std.specs.Prelude.{◌≡◌, ◌≢◌, ◌++◌, ◌≤◌, ◌^◌, [], Bool, length, IfSome, OnOk};
ghost use Rattle.wr_io.specs.Streams.{HasFailed};
ghost use Rattle.record_frame.specs.Answers.{output_from};
ghost use Rattle.record_frame.specs.Framing.{framing};
ghost use Rattle.record_frame.specs.Reading.{Took};
ghost use Rattle.record_frame.specs.Transactions.{transactions};
ghost use Rattle.frame_replay.specs.Answer.{ReplayState, framed_record, next_state, record_of, replaying, start_state, state_of};
ghost use Rattle.frame_replay.specs.Outcome.{BodyCompletes, BodyOutcome, ReachesEnd};
ghost use Rattle.frame_replay.specs.Replaying.{Replays, HasFrame};

use crate::frame::put_frame;
use crate::records::{put_refusal, put_stats, read};
use crate::status::records_status;
use field_forms::put_byte;
use record_frame::{AnswerError, AnswerPayload, MAX_ENTRIES, Transactions};
use renderer::{Answer, Renderer, Report};
use scene_state::ApplyError;
use std::alloc::{AllocError, Global};
use wr_io::{Sink, Source};

/// Applies the transaction that a payload spells, or answers why it is refused.
pub(crate) fn apply(
    alloc: Global,
    payload: &[u8],
    renderer: &mut Renderer,
) -> Result<Answer, ApplyError>
    requires { length payload.now ≤ 2 ^ 26 }
    ensures { Replays payload.now renderer.old renderer.new result }
{
    let txn = read(alloc, payload)?;
    renderer.apply(&txn)
}

/// Appends the record of a renderer's last frame, and with `stats` that of what it took.
fn put_framed(
    out: &mut Vec<u8>,
    renderer: &Renderer,
    report: Report,
    stats: bool,
) -> Result<(), AllocError>
    requires { HasFrame renderer.now }
    ensures { OnOk result (out.new.items ≡ out.old.items ++ framed_record stats report.tiles report.drawn renderer.now.scene) }
{
    let frame = renderer.last_frame().unwrap();
    put_frame(out, renderer.scene(), frame.planes())?;
    if stats {
        return put_stats(out, report);
    }
    Ok(())
}

/// Puts the record that answers a payload into `out`. A payload that is refused leaves the renderer as it was.
fn answer(
    alloc: Global,
    payload: &[u8],
    renderer: &mut Renderer,
    stats: bool,
    out: &mut Vec<u8>,
) -> Result<(), AllocError>
    requires { length payload.now ≤ 2 ^ 26 }
    ensures out { OnOk result (out.new.items ≡ record_of stats payload.now (state_of renderer.old)) }
    ensures state { OnOk result (state_of renderer.new ≡ next_state payload.now (state_of renderer.old)) }
{
    out.clear();
    match apply(alloc, payload, renderer) {
        Ok(Answer::Accepted) => put_byte(out, b'A'),
        Ok(Answer::Framed(report)) => put_framed(out, renderer, report, stats),
        Err(ApplyError::Fault(fault)) => put_refusal(out, fault),
        Err(ApplyError::NoMemory) => Err(AllocError),
    }
}

/// Answers transactions by a renderer's frames.
#[derive(Drop)]
pub(crate) struct Replay {
    /// Whether what frames took is told.
    pub(crate) stats: bool,
}

impl AnswerPayload for Replay {
    type Subject = Renderer;

    ghost State = { Bool × ReplayState };

    ghost state = { λ replay renderer. (replay.stats, state_of renderer) };

    ghost rule = { replaying };

    fn answer(
        &self,
        alloc: Global,
        subject: &mut Renderer,
        payload: &[u8],
        out: &mut Vec<u8>,
    ) -> Result<(), AnswerError> {
        answer(alloc, payload, subject, self.stats, out)?;
        Ok(())
    }
}

/// Answers the records of an input that follow its magic by a renderer's frames, with or without what they took, and
/// gives the exit status: 0, or 2 to 5. With status 0 and 2 the renderer is where all whole transactions take it, with the
/// last frame that was asked for. With the others no kept tile is stale.
pub fn replay_on<S: Source, K: Sink>(
    alloc: Global,
    renderer: &mut Renderer,
    stats: bool,
    source: &mut S,
    sink: &mut K,
) -> u8
    ensures range { (result ≢ 1) × (result ≤ 5) }
    ensures told { IfSome (S.left source.old) (λ bytes. Took bytes (S.left source.new) (BodyOutcome (output_from transactions [] replaying (stats, state_of renderer.old)) result (K.written sink.old) (K.written sink.new))) }
    ensures state { IfSome (S.left source.old) (λ bytes. ReachesEnd replaying result (stats, state_of renderer.old) (stats, state_of renderer.new) (framing transactions MAX_ENTRIES bytes).entries) }
    ensures source_never_falls { S.faults source.old ≤ S.faults source.new }
    ensures sink_never_falls { K.faults sink.old ≤ K.faults sink.new }
    ensures read_failed { result ≡ 3 → HasFailed (S.faults source.old) (S.faults source.new) }
    ensures write_failed { result ≡ 4 → HasFailed (K.faults sink.old) (K.faults sink.new) }
    ensures source_count { result ≢ 3 → S.faults source.new ≡ S.faults source.old }
    ensures sink_count { result ≢ 4 → K.faults sink.new ≡ K.faults sink.old }
    ensures complete { result ≢ 3 → result ≢ 4 → IfSome (S.left source.old) (BodyCompletes (output_from transactions [] replaying (stats, state_of renderer.old)) result) }
{
    let session = Transactions {
        by: Replay { stats },
    };
    records_status(alloc, &session, renderer, source, sink)
}
