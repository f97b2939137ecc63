//! Whole runs over memory: worked files, their answers, statuses and notes.

use frame_replay::run;
use renderer::Renderer;
use std::alloc::Global;
use std::test::Fail;
use wr_io::{MemSink, MemSource};

mod causes;
mod drawn;
mod files;
mod frames;
mod items;
mod loads;
mod payloads;
mod refusals;
mod rows;
mod slots;

/// What a run left.
#[derive(Drop)]
struct Ran {
    status: u8,
    out: Vec<u8>,
    note: Vec<u8>,
    left: usize,
    /// How many pixels the renderer drew that the slot holds, where there is one.
    drawn: Option<u64>,
}

/// How the ends of a run behave: at most so many bytes a call, and failures at these calls.
#[derive(Clone, Copy)]
struct Ends<'a> {
    most: usize,
    room: usize,
    source_fails: &'a [u64],
    sink_fails: &'a [u64],
    notes_fail: &'a [u64],
}

/// Ends that never fail.
const CALM: Ends<'static> = Ends {
    most: 1_000_000,
    room: 4096,
    source_fails: &[],
    sink_fails: &[],
    notes_fail: &[],
};

/// How many pixels a renderer drew, where there is one.
fn drawn_by(slot: &Option<Renderer>) -> Option<u64> {
    match slot {
        Some(renderer) => Some(renderer.opened()),
        None => None,
    }
}

/// The status of a run, and how many pixels the renderer drew that it leaves.
fn run_on(
    alloc: Global,
    words: &[String],
    source: &mut MemSource,
    sink: &mut MemSink,
    notes: &mut MemSink,
) -> (u8, Option<u64>) {
    let mut slot = None;
    let status = run(alloc, words, source, sink, notes, &mut slot);
    (status, drawn_by(&slot))
}

/// A run with these words over an input.
fn ran_over(rt: &HostRuntime, words: &[&str], input: &[u8], ends: &Ends<'_>) -> Result<Ran, Fail> {
    let most = ends.most.max(1);
    let mut given = Vec::new(rt.alloc());
    for word in words {
        given.push(String::from_str(rt.alloc(), word)?)?;
    }
    let fails = ends.source_fails.to_vec(rt.alloc())?;
    let mut source = MemSource::new(input.to_vec(rt.alloc())?, most, fails);
    let room = vec![in rt.alloc(); 0; ends.room]?;
    let mut sink = MemSink::new(room, most, ends.sink_fails.to_vec(rt.alloc())?);
    let room = vec![in rt.alloc(); 0; 256]?;
    let mut notes = MemSink::new(room, most, ends.notes_fail.to_vec(rt.alloc())?);
    let (status, drawn) = run_on(rt.alloc(), &given, &mut source, &mut sink, &mut notes);
    Ok(Ran {
        status,
        out: sink.written().to_vec(rt.alloc())?,
        note: notes.written().to_vec(rt.alloc())?,
        left: source.left().len(),
        drawn,
    })
}

/// A run of the command over ends that never fail.
fn replayed(rt: &HostRuntime, input: &[u8]) -> Result<Ran, Fail> {
    ran_over(rt, &["replay"], input, &CALM)
}
