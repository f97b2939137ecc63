//! A source and a sink over memory, which tell their bytes and fail where they are told to.

ghost use Rattle.std.specs.Prelude.{◌≡◌, ◌≤◌, ◌<◌, ◌++◌, [], length, take, Some, Ok, Err, IfSome, IfOk, OnOk, OnErr, MatchResult, if◌then◌else◌, Bool};
ghost use Rattle.wr_io.specs.Streams.{HasFailed, ReadsFrom, WritesPart};
ghost use Rattle.wr_io.specs.Memory.{call_fails, after_read, read_count, read_fails, after_write, write_count, write_fails};

use crate::streams::{Failed, Sink, Source};
use std::marker::Model;

/// Whether the next call fails: where its number, from 1, is listed. Calls are counted up to the last
/// value of a `u64`.
fn next_fails(fail_at: &[u64], calls: u64) -> bool
    ensures { result ≡ call_fails fail_at.now calls }
{
    calls < u64::MAX && fail_at.contains(&(calls + 1))
}

/// Bytes in memory to read from.
#[derive(Debug, Drop)]
pub struct MemSource {
    bytes: Vec<u8>,
    at: usize,
    most: usize,
    fail_at: Vec<u64>,
    calls: u64,
    faults: u64,
}

impl Model for MemSource {
    ghost use Rattle.std.specs.Prelude.{◌≤◌, ◌<◌, length, drop};
    ghost use Rattle.wr_io.specs.Memory.{SourceMemory};

    ghost Value = { SourceMemory };

    ghost view = { λ s. record { bytes = drop s.at s.bytes.items; most = s.most; fail_at = s.fail_at.items; calls = s.calls; faults = s.faults } };

    ghost invariant = { λ s. (s.at ≤ length s.bytes.items) × (0 < s.most) };
}

impl MemSource {
    /// Gives these bytes, at most `most` (at least 1) a call, and fails at the calls whose numbers,
    /// from 1, stand in `fail_at`.
    pub fn new(bytes: Vec<u8>, most: usize, fail_at: Vec<u64>) -> MemSource
        requires { 0 < most }
        ensures { result ≡ record { bytes = bytes.items; most = most; fail_at = fail_at.items; calls = 0; faults = 0 } }
    {
        MemSource {
            bytes,
            at: 0,
            most,
            fail_at,
            calls: 0,
            faults: 0,
        }
    }

    /// The bytes that are left.
    pub fn left(&self) -> &[u8]
        ensures { result.now ≡ self.now.bytes }
    {
        &self.bytes[self.at..]
    }
}

impl Source for MemSource {
    ghost left = { λ s. Some s.bytes };

    ghost faults = { λ s. s.faults };

    fn read(&mut self, out: &mut [u8]) -> Result<usize, Failed>
        ensures count { IfOk result (λ n. n ≤ length out.new) }
        ensures told { IfSome (Some self.old.bytes) (λ bytes.
            MatchResult result (ReadsFrom bytes (Some self.new.bytes) out.new) (λ _. Some self.new.bytes ≡ Some bytes)) }
        ensures ok_keeps_count { OnOk result (self.new.faults ≡ self.old.faults) }
        ensures never_falls { self.old.faults ≤ self.new.faults }
        ensures failed { OnErr result (HasFailed self.old.faults self.new.faults) }

        // Exactly what it does.
        ensures value { result ≡ (if read_fails self.old then Err (record {}) else Ok (read_count self.old (length out.old))) }
        ensures after { self.new ≡ after_read self.old (length out.old) }
    {
        let fails = next_fails(&self.fail_at, self.calls);
        self.calls = self.calls.saturating_add(1);
        if fails {
            self.faults = self.faults.saturating_add(1);
            return Err(Failed);
        }
        let count = out.len().min(self.most).min(self.bytes.len() - self.at);
        out[..count].copy_from_slice(&self.bytes[self.at..self.at + count]);
        self.at += count;
        Ok(count)
    }
}

/// Room in memory to write into.
#[derive(Debug, Drop)]
pub struct MemSink {
    room: Vec<u8>,
    used: usize,
    most: usize,
    fail_at: Vec<u64>,
    calls: u64,
    faults: u64,
}

impl Model for MemSink {
    ghost use Rattle.std.specs.Prelude.{◌≤◌, ◌<◌, ◌-◌, length, take};
    ghost use Rattle.wr_io.specs.Memory.{SinkMemory};

    ghost Value = { SinkMemory };

    ghost view = { λ s. record { bytes = take s.used s.room.items; free = length s.room.items - s.used; most = s.most; fail_at = s.fail_at.items; calls = s.calls; faults = s.faults } };

    ghost invariant = { λ s. (s.used ≤ length s.room.items) × (0 < s.most) };
}

impl MemSink {
    /// Takes at most `most` bytes (at least 1) a call, as many in all as `room` is long, and fails
    /// where the room is full, and at the calls whose numbers, from 1, stand in `fail_at`.
    pub fn new(room: Vec<u8>, most: usize, fail_at: Vec<u64>) -> MemSink
        requires { 0 < most }
        ensures { result ≡ record { bytes = []; free = length room.items; most = most; fail_at = fail_at.items; calls = 0; faults = 0 } }
    {
        MemSink {
            room,
            used: 0,
            most,
            fail_at,
            calls: 0,
            faults: 0,
        }
    }

    /// The bytes that were written.
    pub fn written(&self) -> &[u8]
        ensures { result.now ≡ self.now.bytes }
    {
        &self.room[..self.used]
    }
}

impl Sink for MemSink {
    ghost written = { λ s. Some s.bytes };

    ghost faults = { λ s. s.faults };

    fn write(&mut self, piece: &[u8]) -> Result<usize, Failed>
        ensures count { IfOk result (λ n. n ≤ length piece.now) }
        ensures some { 0 < length piece.now → IfOk result (λ n. 0 < n) }
        ensures told { IfSome (Some self.old.bytes) (λ bytes.
            MatchResult result (WritesPart bytes (Some self.new.bytes) piece.now) (λ _. Some self.new.bytes ≡ Some bytes)) }
        ensures ok_keeps_count { OnOk result (self.new.faults ≡ self.old.faults) }
        ensures never_falls { self.old.faults ≤ self.new.faults }
        ensures failed { OnErr result (HasFailed self.old.faults self.new.faults) }

        // Exactly what it does.
        ensures value { result ≡ (if write_fails self.old piece.now then Err (record {}) else Ok (write_count self.old piece.now)) }
        ensures after { self.new ≡ after_write self.old piece.now }
    {
        let is_full = self.used == self.room.len() && !piece.is_empty();
        let fails = next_fails(&self.fail_at, self.calls) || is_full;
        self.calls = self.calls.saturating_add(1);
        if fails {
            self.faults = self.faults.saturating_add(1);
            return Err(Failed);
        }
        let count = piece.len().min(self.most).min(self.room.len() - self.used);
        self.room[self.used..self.used + count].copy_from_slice(&piece[..count]);
        self.used += count;
        Ok(count)
    }
}
