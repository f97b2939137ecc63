//! Small commands over memory: what they write, and how they end.

ghost use Rattle.record_frame.specs.Framing.{IsInputForm};

use record_frame::{AnswerPayload, RunError, Session, Transactions, answer_input};
use std::alloc::{AllocError, Global};
use wr_io::{Code, Fault, MemSink, MemSource};

mod toys;

use toys::{Bells, FirstBytes, Lengths};

/// An input, the calls of one byte each at which its source and its sink fail, and a command's run over it: how it ends,
/// what it has written, and how many bytes it has left.
struct Run {
    input: &'static [u8],
    source_fails: &'static [u64],
    sink_fails: &'static [u64],
    ended: Result<(), RunError>,
    written: &'static [u8],
    left: usize,
}

/// Whether a command whose output begins with `!` has this run.
fn run_over<A: Session>(
    alloc: Global,
    session: &A,
    subject: &mut A::Subject,
    run: &Run,
) -> Result<bool, AllocError>
    requires { IsInputForm A.form }
{
    let fails = run.source_fails.to_vec(alloc)?;
    let mut source = MemSource::new(run.input.to_vec(alloc)?, 1, fails);
    let room = vec![in alloc; 0; 64]?;
    let mut sink = MemSink::new(room, 1, run.sink_fails.to_vec(alloc)?);
    let ended = answer_input(alloc, b"!", session, subject, &mut source, &mut sink);
    Ok(ended == run.ended && sink.written() == run.written && source.left().len() == run.left)
}

/// Whether a command over payloads has it.
fn run_over_payloads<A: AnswerPayload>(
    alloc: Global,
    by: A,
    subject: &mut A::Subject,
    run: &Run,
) -> Result<bool, AllocError> {
    run_over(alloc, &Transactions { by }, subject, run)
}

/// Whether the command over bells and payloads has it.
fn run_over_bells(alloc: Global, run: &Run) -> Result<bool, AllocError> {
    run_over(alloc, &Bells, &mut (), run)
}

/// Two payloads, of three bytes and of none.
const TWO: &[u8] = b"WRT1T\x03\0\0\0abcT\0\0\0\0Z";

/// Each payload answered by the length of the one before, from 9 on.
const LENGTHS: Run = Run {
    input: TWO,
    source_fails: &[],
    sink_fails: &[],
    ended: Ok(()),
    written: &[33, 9, 0, 0, 0, 3, 0, 0, 0, 90],
    left: 0,
};

#[test]
fn the_state_goes_from_entry_to_entry(rt: HostRuntime) {
    let mut before = 9;
    assert!(rt; run_over_payloads(rt.alloc(), Lengths, &mut before, &LENGTHS) == Ok(true));
    assert!(rt; before == 0, "the last payload has no bytes");
}

/// Each payload answered by its first byte, of which the second has none.
const FIRST_BYTES: Run = Run {
    input: TWO,
    source_fails: &[],
    sink_fails: &[],
    ended: Err(RunError::Refused(Fault {
        code: Code::Short,
        at: 0,
    })),
    written: b"!a",
    left: 1,
};

#[test]
fn a_refused_entry_ends_a_command(rt: HostRuntime) {
    assert!(rt; run_over_payloads(rt.alloc(), FirstBytes, &mut (), &FIRST_BYTES) == Ok(true));
}

const BELLS: [Run; 5] = [
    // Entries of another form than payloads.
    Run {
        input: b"BELLBP\x01\0\0\0xBZ..",
        source_fails: &[],
        sink_fails: &[],
        ended: Ok(()),
        written: b"!BPBZ",
        left: 2,
    },
    // A broken form ends within its tag.
    Run {
        input: b"BELLBT..",
        source_fails: &[],
        sink_fails: &[],
        ended: Err(RunError::BrokenInput),
        written: b"!B",
        left: 2,
    },
    // Another magic takes four bytes.
    Run {
        input: b"BELTBZ",
        source_fails: &[],
        sink_fails: &[],
        ended: Err(RunError::BrokenInput),
        written: b"",
        left: 2,
    },
    // A failing read ends a command.
    Run {
        input: b"BELLBBZ",
        source_fails: &[6],
        sink_fails: &[],
        ended: Err(RunError::ReadFailed),
        written: b"!B",
        left: 2,
    },
    // A failing write does.
    Run {
        input: b"BELLBBZ",
        source_fails: &[],
        sink_fails: &[3],
        ended: Err(RunError::WriteFailed),
        written: b"!B",
        left: 1,
    },
];

#[test]
fn entries_of_another_form(rt: HostRuntime) {
    for run in &BELLS {
        assert!(rt;
            run_over_bells(rt.alloc(), run) == Ok(true),
            "{} left",
            run.left
        );
    }
}
