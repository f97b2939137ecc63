//! Bytes in and bytes out: sources and sinks that may fail, a cursor over bytes, and the faults that
//! bytes can have.
#![tactic(auto)]

mod cursor;
mod fault;
mod memory;
mod standard;
mod streams;

pub use cursor::Cursor;
pub use fault::{Code, DecodeError, Fault};
pub use memory::{MemSink, MemSource};
pub use standard::{StdSink, StdSource};
pub use streams::{Failed, Sink, Source, read_exact, write_whole};
