//! Standard readers and writers as sources and sinks. They tell the bytes that the reader or the writer
//! itself tells: over memory all of them, over standard input and output none.

ghost use Rattle.std.specs.Prelude.{◌≡◌, ◌≤◌, ◌<◌, Some, IfSome, IfOk, OnOk, OnErr, MatchResult, length};
ghost use Rattle.wr_io.specs.Streams.{HasFailed, ReadsFrom, WritesPart, failures_after};
ghost use Rattle.wr_io.specs.Standard.{source_left, source_faults, sink_written, sink_faults, holds_reader, holds_writer};

use crate::streams::{Failed, Sink, Source};
use std::io::{Read, Write};

/// A reader of the standard library as a source. Each error counts as a failed call.
#[derive(Debug, Drop)]
pub struct StdSource<R> {
    reader: R,
    faults: u64,
}

impl<R> StdSource<R> {
    /// A source over the reader, of which no call has failed.
    pub fn new(reader: R) -> StdSource<R>
        ensures reader { holds_reader result ≡ reader }
        ensures faults { source_faults result ≡ 0 }
    {
        StdSource { reader, faults: 0 }
    }
}

impl<R: Read> Source for StdSource<R> {
    ghost left = { source_left R.remaining };

    ghost faults = { source_faults };

    fn read(&mut self, out: &mut [u8]) -> Result<usize, Failed>
        ensures count { IfOk result (λ n. n ≤ length out.new) }
        ensures told { IfSome (source_left R.remaining self.old) (λ bytes.
            MatchResult result (ReadsFrom bytes (source_left R.remaining self.new) out.new) (λ _. source_left R.remaining self.new ≡ Some bytes)) }
        ensures ok_keeps_count { OnOk result (source_faults self.new ≡ source_faults self.old) }
        ensures never_falls { source_faults self.old ≤ source_faults self.new }
        ensures failed { OnErr result (HasFailed (source_faults self.old) (source_faults self.new)) }

        // Exactly what is counted.
        ensures counts { source_faults self.new ≡ failures_after result (source_faults self.old) }
    {
        match self.reader.read(out) {
            Ok(count) => Ok(count),
            Err(_) => {
                self.faults = self.faults.saturating_add(1);
                Err(Failed)
            }
        }
    }
}

/// A writer of the standard library as a sink. Each error counts as a failed call, and so does a write
/// that takes nothing of a piece that isn't empty.
#[derive(Debug, Drop)]
pub struct StdSink<W> {
    writer: W,
    faults: u64,
}

impl<W> StdSink<W> {
    /// A sink over the writer, of which no call has failed.
    pub fn new(writer: W) -> StdSink<W>
        ensures writer { holds_writer result ≡ writer }
        ensures faults { sink_faults result ≡ 0 }
    {
        StdSink { writer, faults: 0 }
    }
}

impl<W: Write> Sink for StdSink<W> {
    ghost written = { sink_written W.contents };

    ghost faults = { sink_faults };

    fn write(&mut self, piece: &[u8]) -> Result<usize, Failed>
        ensures count { IfOk result (λ n. n ≤ length piece.now) }
        ensures some { 0 < length piece.now → IfOk result (λ n. 0 < n) }
        ensures told { IfSome (sink_written W.contents self.old) (λ bytes.
            MatchResult result (WritesPart bytes (sink_written W.contents self.new) piece.now) (λ _. sink_written W.contents self.new ≡ Some bytes)) }
        ensures ok_keeps_count { OnOk result (sink_faults self.new ≡ sink_faults self.old) }
        ensures never_falls { sink_faults self.old ≤ sink_faults self.new }
        ensures failed { OnErr result (HasFailed (sink_faults self.old) (sink_faults self.new)) }

        // Exactly what is counted.
        ensures counts { sink_faults self.new ≡ failures_after result (sink_faults self.old) }
    {
        match self.writer.write(piece) {
            Ok(count) if count > 0 || piece.is_empty() => Ok(count),
            _ => {
                self.faults = self.faults.saturating_add(1);
                Err(Failed)
            }
        }
    }
}
