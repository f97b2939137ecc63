//! The program over the words of its command line and the standard streams.
#![tactic(auto)]

use frame_replay::{StdSink, StdSource, run};
use std::io::{BufReader, ErrorKind};
use std::process::ExitCode;
use std::{env, io};

/// The exit status where memory ran out, also before the run.
const OUT_OF_MEMORY: u8 = 5;

/// The words after the program's name. Where a word isn't text there are none, since no command has
/// such a word: the run then answers as it does for any words that name no command.
fn words(rt: &HostRuntime) -> io::Result<Vec<String>> {
    let mut words = Vec::new(rt.alloc());
    match env::args(rt) {
        Ok(given) => {
            for word in given.skip(1) {
                words.push(word)?;
            }
            Ok(words)
        }
        Err(error) if error.kind() == ErrorKind::InvalidData => Ok(words),
        Err(error) => Err(error),
    }
}

/// Runs over the standard streams, and answers the exit status. Standard input is read through a buffer,
/// which may take more of it than the run does.
fn start(rt: &HostRuntime) -> io::Result<u8> {
    let words = words(rt)?;
    let mut source = StdSource::new(BufReader::new(rt.alloc(), rt.stdin())?);
    let mut sink = StdSink::new(rt.stdout());
    let mut notes = StdSink::new(rt.stderr());
    let mut slot = None;
    Ok(run(
        rt.alloc(),
        &words,
        &mut source,
        &mut sink,
        &mut notes,
        &mut slot,
    ))
}

/// All of `main`: the exit status of the run, or that of memory that ran out before it began.
pub fn run_on_streams(rt: &HostRuntime) -> ExitCode {
    match start(rt) {
        Ok(status) => ExitCode::from(status),
        Err(_) => {
            // A failing note changes no status.
            let _ = eprintln!(rt; "wrreplay: out of memory");
            ExitCode::from(OUT_OF_MEMORY)
        }
    }
}
