//! The top call: the words, the input, the output, and what a status notes.

ghost use Rattle.std.specs.Prelude.{◌≡◌, ◌≢◌, ◌≤◌, ◌↔◌, ◌⊎◌, IfSome, None, Some, ℕ, List, false};
ghost use Rattle.wr_io.specs.Streams.{HasFailed};
ghost use Rattle.record_frame.specs.Framing.{framing};
ghost use Rattle.record_frame.specs.Reading.{Took};
ghost use Rattle.record_frame.specs.Transactions.{transactions};
ghost use Rattle.record_frame.specs.Writing.{IsPrefix, Wrote};
ghost use Rattle.file_generator.specs.Files.{file};
ghost use Rattle.frame_replay.specs.Answer.{body_replayed, replayed, state_after_file};
ghost use Rattle.frame_replay.specs.Painting.{painted};
ghost use Rattle.frame_replay.specs.Outcome.{BodyCompletes, BodyOutcome, Completes, Outcome, note_of};
ghost use Rattle.frame_replay.specs.Commands.{IfLoad, IsCommand, command_named, completes, leaves};
ghost use Rattle.frame_replay.specs.Load.{Summarises};
ghost use Rattle.frame_replay.specs.Slot.{Holds, IfReplay, SlotAfterRecords, SlotAfterReplay, SlotStands, StandsOrHolds};

use crate::load::load;
use crate::painting::{Painter, Painting};
use crate::replaying::{Replay, replay_on};
use crate::status::{answer_status, status};
use crate::words::{Command, find_command};
use record_frame::{MAX_ENTRIES, Transactions, open_input};
use renderer::Renderer;
use std::alloc::Global;
use wr_io::{Sink, Source, write_whole};

/// The exit status of words that name no command.
const USAGE: u8 = 1;

/// The exit status of a run for which memory ran out at its start.
const OUT_OF_MEMORY: u8 = 5;

/// Answers the records of a file that follow its magic by the frames of a new renderer, with or without what they took,
/// and gives the exit status: 0, or 2 to 5. The renderer goes into `slot`.
fn replay_anew<S: Source, K: Sink>(
    alloc: Global,
    stats: bool,
    source: &mut S,
    sink: &mut K,
    slot: &mut Option<Renderer>,
) -> u8
    ensures range { (result ≢ 1) × (result ≤ 5) }
    ensures told { IfSome (S.left source.old) (λ bytes. Took bytes (S.left source.new) (BodyOutcome (body_replayed stats) result (K.written sink.old) (K.written sink.new))) }
    ensures source_never_falls { S.faults source.old ≤ S.faults source.new }
    ensures sink_never_falls { K.faults sink.old ≤ K.faults sink.new }
    ensures read_failed { result ≡ 3 → HasFailed (S.faults source.old) (S.faults source.new) }
    ensures write_failed { result ≡ 4 → HasFailed (K.faults sink.old) (K.faults sink.new) }
    ensures source_count { result ≢ 3 → S.faults source.new ≡ S.faults source.old }
    ensures sink_count { result ≢ 4 → K.faults sink.new ≡ K.faults sink.old }
    ensures complete { result ≢ 3 → result ≢ 4 → IfSome (S.left source.old) (BodyCompletes (body_replayed stats) result) }
    ensures slot { IfSome (S.left source.old) (λ bytes. SlotAfterRecords stats result (framing transactions MAX_ENTRIES bytes).entries slot.new) }
    ensures slot_stands { StandsOrHolds slot.old slot.new }
{
    let Ok(mut renderer) = Renderer::new(alloc) else {
        return OUT_OF_MEMORY;
    };
    let ended = replay_on(alloc, &mut renderer, stats, source, sink);
    *slot = Some(renderer);
    ended
}

/// Answers a file of transactions by the frames of a new renderer, with or without what they took, and gives the exit
/// status: 0, or 2 to 5. The renderer goes into `slot` where the file begins with its magic and memory suffices for it.
fn replay<S: Source, K: Sink>(
    alloc: Global,
    stats: bool,
    source: &mut S,
    sink: &mut K,
    slot: &mut Option<Renderer>,
) -> u8
    ensures range { (result ≢ 1) × (result ≤ 5) }
    ensures told { IfSome (S.left source.old) (λ input. Took input (S.left source.new) (Outcome (replayed stats) result (K.written sink.old) (K.written sink.new))) }
    ensures source_never_falls { S.faults source.old ≤ S.faults source.new }
    ensures sink_never_falls { K.faults sink.old ≤ K.faults sink.new }
    ensures read_failed { result ≡ 3 → HasFailed (S.faults source.old) (S.faults source.new) }
    ensures write_failed { result ≡ 4 → HasFailed (K.faults sink.old) (K.faults sink.new) }
    ensures source_count { result ≢ 3 → S.faults source.new ≡ S.faults source.old }
    ensures sink_count { result ≢ 4 → K.faults sink.new ≡ K.faults sink.old }
    ensures complete { result ≢ 3 → result ≢ 4 → IfSome (S.left source.old) (Completes (replayed stats) result) }
    ensures slot { IfSome (S.left source.old) (λ input. SlotAfterReplay stats result input slot.old slot.new) }
    ensures slot_stands { StandsOrHolds slot.old slot.new }
{
    match open_input::<Transactions<Replay>, S, K>(b"WRF1", source, sink) {
        Err(error) => status(Err(error)),
        Ok(()) => replay_anew(alloc, stats, source, sink, slot),
    }
}

/// Answers a file of transactions by frames that are painted pixel by pixel, and gives the exit status: 0, or 2 to 5.
fn paint<S: Source, K: Sink>(alloc: Global, source: &mut S, sink: &mut K) -> u8
    ensures range { (result ≢ 1) × (result ≤ 5) }
    ensures told { IfSome (S.left source.old) (λ input. Took input (S.left source.new) (Outcome painted result (K.written sink.old) (K.written sink.new))) }
    ensures source_never_falls { S.faults source.old ≤ S.faults source.new }
    ensures sink_never_falls { K.faults sink.old ≤ K.faults sink.new }
    ensures read_failed { result ≡ 3 → HasFailed (S.faults source.old) (S.faults source.new) }
    ensures write_failed { result ≡ 4 → HasFailed (K.faults sink.old) (K.faults sink.new) }
    ensures source_count { result ≢ 3 → S.faults source.new ≡ S.faults source.old }
    ensures sink_count { result ≢ 4 → K.faults sink.new ≡ K.faults sink.old }
    ensures complete { result ≢ 3 → result ≢ 4 → IfSome (S.left source.old) (Completes painted result) }
{
    let session = Transactions { by: Painter };
    let mut painting = Painting::new(alloc);
    answer_status(alloc, b"WRF1", &session, &mut painting, source, sink)
}

/// Does what a command is for, and gives the exit status: 0, or 2 to 5.
fn perform<S: Source, K: Sink>(
    alloc: Global,
    command: Command,
    source: &mut S,
    sink: &mut K,
    slot: &mut Option<Renderer>,
) -> u8
    requires { IsCommand command }
    ensures range { (result ≢ 1) × (result ≤ 5) }
    ensures told { IfSome (S.left source.old) (λ input. Took input (S.left source.new) (leaves command result (K.written sink.old) (K.written sink.new))) }
    ensures load { IfLoad command (λ number count. (source.new ≡ source.old) × Summarises number count result (K.written sink.old) (K.written sink.new)) }
    ensures load_status { IfLoad command (λ number count. (result ≡ 0) ⊎ ((result ≡ 4) ⊎ (result ≡ 5))) }
    ensures source_never_falls { S.faults source.old ≤ S.faults source.new }
    ensures sink_never_falls { K.faults sink.old ≤ K.faults sink.new }
    ensures read_failed { result ≡ 3 → HasFailed (S.faults source.old) (S.faults source.new) }
    ensures write_failed { result ≡ 4 → HasFailed (K.faults sink.old) (K.faults sink.new) }
    ensures source_count { result ≢ 3 → S.faults source.new ≡ S.faults source.old }
    ensures sink_count { result ≢ 4 → K.faults sink.new ≡ K.faults sink.old }
    ensures complete { result ≢ 3 → result ≢ 4 → IfSome (S.left source.old) (completes command result) }
    ensures slot_replay { IfReplay command (λ stats. IfSome (S.left source.old) (λ input. SlotAfterReplay stats result input slot.old slot.new)) }
    ensures slot_load { IfLoad command (λ number count. result ≡ 0 → Holds (state_after_file (file number count) false) slot.new) }
    ensures slot_stands { SlotStands (Some command) slot.old slot.new }
{
    match command {
        Command::Replay { stats } => replay(alloc, stats, source, sink, slot),
        Command::Paint => paint(alloc, source, sink),
        Command::Load { number, count } => load(alloc, number, count, sink, slot),
    }
}

/// The text of a status, none for 0.
fn note(status: u8) -> &'static str
    ensures { result.now ≡ note_of status }
{
    match status {
        1 => "usage: wrreplay replay [--stats] | paint | load NUMBER COUNT\n",
        2 => "wrreplay: broken input\n",
        3 => "wrreplay: read failed\n",
        4 => "wrreplay: write failed\n",
        5 => "wrreplay: out of memory\n",
        _ => "",
    }
}

/// Does all that the program does: `words` are those after its name. It reads the source, writes the
/// sink, writes a text for each status but 0 to `notes`, and answers the exit status. Each record is
/// written whole before the next is read, and the closing byte comes with status 0 alone. What follows
/// the closing byte of the input stays in the source. No call on the source or the sink follows one
/// that failed. `slot` takes the renderer that made the frames: that of `replay` once the file's magic was right, and
/// that of `load` once its frames were made. Words that name no command, and `paint`, leave it.
///
/// | status | comes |
/// |---|---|
/// | 0 | the input was answered up to its closing byte, and no call failed |
/// | 1 | exactly where the words name no command |
/// | 2 | exactly where the framing of the input is broken and it was read up to there, and no call failed |
/// | 3 | only where a call on the source failed |
/// | 4 | only where a call on the sink failed |
/// | 5 | there was no memory |
pub fn run<S: Source, K: Sink, N: Sink>(
    alloc: Global,
    words: &[String],
    source: &mut S,
    sink: &mut K,
    notes: &mut N,
    slot: &mut Option<Renderer>,
) -> u8
    ensures range { result ≤ 5 }

    // Status 1, exactly by the words.
    ensures usage { (result ≡ 1) ↔ (command_named words.now ≡ None) }
    ensures untouched { result ≡ 1 → (source.new ≡ source.old) × (sink.new ≡ sink.old) }

    // What was taken and written, where that is told.
    ensures told { IfSome (command_named words.now) (λ command. IfSome (S.left source.old) (λ input.
        Took input (S.left source.new) (leaves command result (K.written sink.old) (K.written sink.new)))) }

    // `load` reads nothing, and writes its summary whatever the source is. Its status is 0, 4 or 5.
    ensures load { IfSome (command_named words.now) (λ command. IfLoad command (λ number count.
        (source.new ≡ source.old) × Summarises number count result (K.written sink.old) (K.written sink.new))) }
    ensures load_status { IfSome (command_named words.now) (λ command. IfLoad command (λ number count. (result ≡ 0) ⊎ ((result ≡ 4) ⊎ (result ≡ 5)))) }

    // What the slot holds, where what was read is told, and in any case.
    ensures slot_replay { IfSome (command_named words.now) (λ command. IfReplay command (λ stats. IfSome (S.left source.old) (λ input. SlotAfterReplay stats result input slot.old slot.new))) }
    ensures slot_load { IfSome (command_named words.now) (λ command. IfLoad command (λ number count. result ≡ 0 → Holds (state_after_file (file number count) false) slot.new)) }
    ensures slot_stands { SlotStands (command_named words.now) slot.old slot.new }

    // The counts of failed calls: status 3 where one of the source failed, and 4 where one of the sink did.
    ensures source_never_falls { S.faults source.old ≤ S.faults source.new }
    ensures sink_never_falls { K.faults sink.old ≤ K.faults sink.new }
    ensures read_failed { result ≡ 3 → HasFailed (S.faults source.old) (S.faults source.new) }
    ensures write_failed { result ≡ 4 → HasFailed (K.faults sink.old) (K.faults sink.new) }
    ensures source_count { result ≢ 3 → S.faults source.new ≡ S.faults source.old }
    ensures sink_count { result ≢ 4 → K.faults sink.new ≡ K.faults sink.old }

    // The status where no call failed.
    ensures complete { IfSome (command_named words.now) (λ command. (¬ HasFailed (S.faults source.old) (S.faults source.new)) → (¬ HasFailed (K.faults sink.old) (K.faults sink.new))
        → IfSome (S.left source.old) (completes command result)) }

    // The note: its status's text, or a prefix of it where a call on the notes failed.
    ensures note { (¬ HasFailed (N.faults notes.old) (N.faults notes.new)) → Wrote (N.written notes.old) (N.written notes.new) (note_of result) }
    ensures note_prefix { (out : List ℕ) × IsPrefix out (note_of result) × Wrote (N.written notes.old) (N.written notes.new) out }
    ensures notes_never_fall { N.faults notes.old ≤ N.faults notes.new }
{
    let answer = match find_command(words) {
        Some(command) => perform(alloc, command, source, sink, slot),
        None => USAGE,
    };
    // A failing note changes no status.
    let _ = write_whole(notes, note(answer).as_bytes());
    answer
}
