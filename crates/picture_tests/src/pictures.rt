//! Pictures: files of transactions, and the pixels that answer them.

use frame_replay::run;
use frames::frame_at;
use parts::Colour;
use std::alloc::Global;
use std::process::Abort;
use std::test::Fail;
use transactions::{Answer, answered, file_of};
use wr_io::{MemSink, MemSource};

mod colours;
mod fields;
mod frames;
mod groups;
mod laws;
mod limits;
mod nested;
mod operations;
mod parts;
mod refused;
mod resources;
mod scenes;
mod shapes;
mod slices;
mod statistics;
mod transactions;

/// The status of a run. The renderer that it leaves is given up.
fn status_of(
    alloc: Global,
    words: &[String],
    source: &mut MemSource,
    sink: &mut MemSink,
    notes: &mut MemSink,
) -> u8 {
    let mut slot = None;
    run(alloc, words, source, sink, notes, &mut slot)
}

/// What a command writes for an input, into this much room. The run has to end well.
fn answered_by(
    rt: &(impl Abort + AllocGlobal),
    command: &[&str],
    input: Vec<u8>,
    room: usize,
) -> Result<Vec<u8>, Fail> {
    let mut words = Vec::new(rt.alloc());
    for word in command {
        words.push(String::from_str(rt.alloc(), word)?)?;
    }
    let mut source = MemSource::new(input, 1 << 20, Vec::new(rt.alloc()));
    let room = vec![in rt.alloc(); 0; room]?;
    let mut sink = MemSink::new(room, 1 << 20, Vec::new(rt.alloc()));
    let room = vec![in rt.alloc(); 0; 256]?;
    let mut notes = MemSink::new(room, 1 << 20, Vec::new(rt.alloc()));
    let status = status_of(rt.alloc(), &words, &mut source, &mut sink, &mut notes);
    assert_eq!(rt; status, 0);
    Ok(sink.written().to_vec(rt.alloc())?)
}

/// What a replay writes.
fn replayed(rt: &(impl Abort + AllocGlobal), input: Vec<u8>, room: usize) -> Result<Vec<u8>, Fail> {
    answered_by(rt, &["replay"], input, room)
}

/// Replays these transactions, and compares what is written with these answers.
fn expect(
    rt: &(impl Abort + AllocGlobal),
    transactions: &[&[u8]],
    answers: &[Answer<'_>],
) -> Result<(), Fail> {
    let want = answered(rt.alloc(), answers)?;
    let input = file_of(rt.alloc(), transactions)?;
    let told = replayed(rt, input, want.len().saturating_add(64))?;
    assert_eq!(rt; told, want);
    Ok(())
}

/// The record's number from 0, x, y, and the colour there.
type Spot = (usize, usize, usize, Colour);

/// Replays these transactions, and looks at single pixels of their frames.
fn expect_pixels(
    rt: &(impl Abort + AllocGlobal),
    transactions: &[&[u8]],
    spots: &[Spot],
) -> Result<(), Fail> {
    let input = file_of(rt.alloc(), transactions)?;
    let told = replayed(rt, input, 8_000_000)?;
    for (number, x, y, colour) in spots {
        let frame = frame_at(&told, *number).ok_or("a frame")?;
        let pixel = frame.pixel(*x, *y).ok_or("a pixel")?;
        assert_eq!(rt;
            pixel,
            colour.as_slice(),
            "pixel {x}, {y} of record {number}"
        );
    }
    Ok(())
}
