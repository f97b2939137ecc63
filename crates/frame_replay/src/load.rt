//! The command `load`: a summary of the answers to a generated file.

ghost use Rattle.std.specs.Prelude.{◌≡◌, ◌≢◌, ◌≤◌, ◌<◌, ◌+◌, ◌^◌, ◌*◌, ◌++◌, ◌⊎◌, [], false, length, sum, OnOk, IfOk};
ghost use Rattle.std.specs.List.{flat_map};
ghost use Rattle.blend_rules.specs.Colour.{colour_bytes};
ghost use Rattle.wr_io.specs.Streams.{HasFailed};
ghost use Rattle.renderer.specs.Frames.{ShowScene};
ghost use Rattle.file_generator.specs.Files.{file};
ghost use Rattle.scene_state.specs.SceneModel.{SceneModel};
ghost use Rattle.scene_state.specs.Limits.{IsScene};
ghost use Rattle.frame_replay.specs.Answer.{accepted, next_state, start_state, state_after_file, state_of};
ghost use Rattle.frame_replay.specs.Frame.{view_pixels};
ghost use Rattle.frame_replay.specs.Load.{HasRoom, Summarises, answers_to, counts_of, line, summary, summary_lines, with_answer, with_frame};
ghost use Rattle.frame_replay.specs.Replaying.{HasFrame};
ghost use Rattle.frame_replay.specs.Slot.{Holds, StandsOrHolds};

use crate::replaying::apply;
use crate::rows::put_rows;
use file_generator::{Generator, MAX_TRANSACTIONS};
use renderer::{Answer, Renderer, Report};
use scene_state::{ApplyError, know_scene};
use span_kernels::Planes;
use std::alloc::{AllocError, Global};
use wr_io::{Sink, write_whole};

/// What is counted of the answers.
#[derive(Clone, Copy, Debug)]
struct Counts {
    frames: u64,
    refused: u64,
    /// The sum of the bytes of all pixels.
    pixels: u64,
    /// The sum of the pixels of tiles that frames cost.
    drawn: u64,
}

/// What makes the frames, what is counted so far, and memory for the bytes of a frame's pixels.
#[derive(Drop)]
struct Loading {
    renderer: Renderer,
    counts: Counts,
    bytes: Vec<u8>,
}

/// The sum of bytes.
fn byte_sum(bytes: &[u8]) -> u64
    requires { length bytes.now ≤ 2 ^ 26 }
    ensures value { result ≡ sum bytes.now }
    ensures most { result ≤ 255 * length bytes.now }
{
    let mut total = 0u64;
    for byte in bytes {
        total += u64::from(*byte);
    }
    total
}

/// The sum of the bytes of a renderer's last frame. `bytes` takes them first.
fn frame_sum(renderer: &Renderer, bytes: &mut Vec<u8>) -> Result<u64, AllocError>
    requires { HasFrame renderer.now }
    ensures value { IfOk result (λ total. total ≡ sum (flat_map colour_bytes (view_pixels renderer.now.scene))) }
    ensures most { IfOk result (λ total. total ≤ 2 ^ 34) }
{
    know_scene(renderer.scene());
    let frame = renderer.last_frame().unwrap();
    bytes.clear();
    put_rows(bytes, frame.planes())?;
    Ok(byte_sum(bytes.as_slice()))
}

impl Loading {
    /// Before the first transaction.
    fn new(alloc: Global) -> Result<Loading, AllocError>
        ensures state { IfOk result (λ loading. state_of loading.renderer ≡ start_state) }
        ensures counts { IfOk result (λ loading. loading.counts ≡ counts_of []) }
    {
        let Ok(renderer) = Renderer::new(alloc) else {
            return Err(AllocError);
        };
        Ok(Loading {
            renderer,
            counts: Counts {
                frames: 0,
                refused: 0,
                pixels: 0,
                drawn: 0,
            },
            bytes: Vec::new(alloc),
        })
    }

    /// Counts the last frame, which took this.
    fn count_frame(&mut self, report: Report) -> Result<(), AllocError>
        requires frame { HasFrame self.old.renderer }
        requires room { HasRoom self.old.counts }
        requires drawn { report.drawn ≤ 2 ^ 36 }
        ensures counts { OnOk result (self.new.counts ≡ with_frame report.drawn self.old.renderer.scene self.old.counts) }
        ensures renderer { self.new.renderer ≡ self.old.renderer }
        ensures pixels { OnOk result (self.new.counts.pixels ≤ self.old.counts.pixels + 2 ^ 34) }
        ensures drawn { OnOk result (self.new.counts.drawn ≤ self.old.counts.drawn + 2 ^ 36) }
    {
        let total = frame_sum(&self.renderer, &mut self.bytes)?;
        self.counts.frames += 1;
        self.counts.pixels += total;
        self.counts.drawn += report.drawn;
        Ok(())
    }

    /// Applies a payload, and counts the answer to it.
    fn answer(&mut self, alloc: Global, payload: &[u8]) -> Result<(), AllocError>
        requires payload { length payload.now ≤ 2 ^ 26 }
        requires room { HasRoom self.old.counts }
        ensures state { OnOk result (state_of self.new.renderer ≡ next_state payload.now (state_of self.old.renderer)) }
        ensures counts { OnOk result (self.new.counts ≡ with_answer (accepted payload.now (state_of self.old.renderer)) self.old.counts) }
        ensures pixels { OnOk result (self.new.counts.pixels ≤ self.old.counts.pixels + 2 ^ 34) }
        ensures drawn { OnOk result (self.new.counts.drawn ≤ self.old.counts.drawn + 2 ^ 36) }
    {
        match apply(alloc, payload, &mut self.renderer) {
            Ok(Answer::Accepted) => Ok(()),
            Ok(Answer::Framed(report)) => self.count_frame(report),
            Err(ApplyError::Fault(_)) => {
                self.counts.refused += 1;
                Ok(())
            }
            Err(ApplyError::NoMemory) => Err(AllocError),
        }
    }
}

/// What a generated file makes. One payload and one frame are held at a time.
fn loaded(alloc: Global, number: u64, count: u32) -> Result<Loading, AllocError>
    requires { count ≤ MAX_TRANSACTIONS }
    ensures counts { IfOk result (λ loading. loading.counts ≡ counts_of (answers_to (file number count))) }
    ensures state { IfOk result (λ loading. state_of loading.renderer ≡ state_after_file (file number count) false) }
{
    let mut generator = Generator::new(alloc, number);
    let mut loading = Loading::new(alloc)?;
    let mut payload = Vec::new(alloc);
    for _ in 0..count {
        generator.put_next(&mut payload)?;
        loading.answer(alloc, payload.as_slice())?;
    }
    Ok(loading)
}

/// Appends a word and a number.
fn put_line(alloc: Global, out: &mut Vec<u8>, word: &str, n: u64) -> Result<(), AllocError>
    ensures { OnOk result (out.new.items ≡ out.old.items ++ line word.now n) }
{
    let text = format!(in alloc; "{word} {n}\n")?;
    out.extend_from_slice(text.as_bytes())
}

/// The lines of a summary.
fn summary_text(alloc: Global, count: u32, counts: Counts) -> Result<Vec<u8>, AllocError>
    ensures { IfOk result (λ text. text.items ≡ summary_lines count counts) }
{
    let mut out = Vec::new(alloc);
    put_line(alloc, &mut out, "transactions", u64::from(count))?;
    put_line(alloc, &mut out, "frames", counts.frames)?;
    put_line(alloc, &mut out, "refused", counts.refused)?;
    put_line(alloc, &mut out, "sum", counts.pixels)?;
    put_line(alloc, &mut out, "drawn", counts.drawn)?;
    Ok(out)
}

/// The summary of the answers to a generated file. `slot` takes the renderer that made the frames.
#[tactic(auto, unfolding(crate::specs::Load::summary))]
fn summary(
    alloc: Global,
    number: u64,
    count: u32,
    slot: &mut Option<Renderer>,
) -> Result<Vec<u8>, AllocError>
    requires { count ≤ MAX_TRANSACTIONS }
    ensures text { IfOk result (λ text. text.items ≡ summary number count) }
    ensures slot { IfOk result (λ text. Holds (state_after_file (file number count) false) slot.new) }
    ensures slot_stands { StandsOrHolds slot.old slot.new }
{
    let loading = loaded(alloc, number, count)?;
    let text = summary_text(alloc, count, loading.counts)?;
    *slot = Some(loading.renderer);
    Ok(text)
}

/// Writes the summary of the answers to a generated file, and gives the exit status: 0, 4 or 5. `slot` takes the renderer
/// that made the frames.
pub(crate) fn load<K: Sink>(
    alloc: Global,
    number: u64,
    count: u32,
    sink: &mut K,
    slot: &mut Option<Renderer>,
) -> u8
    requires { count ≤ MAX_TRANSACTIONS }
    ensures told { Summarises number count result (K.written sink.old) (K.written sink.new) }
    ensures status { (result ≡ 0) ⊎ ((result ≡ 4) ⊎ (result ≡ 5)) }
    ensures never_falls { K.faults sink.old ≤ K.faults sink.new }
    ensures write_failed { result ≡ 4 → HasFailed (K.faults sink.old) (K.faults sink.new) }
    ensures count { result ≢ 4 → K.faults sink.new ≡ K.faults sink.old }
    ensures slot { result ≡ 0 → Holds (state_after_file (file number count) false) slot.new }
    ensures slot_stands { StandsOrHolds slot.old slot.new }
{
    match summary(alloc, number, count, slot) {
        Err(_) => 5,
        Ok(text) => match write_whole(sink, text.as_slice()) {
            Ok(()) => 0,
            Err(_) => 4,
        },
    }
}
