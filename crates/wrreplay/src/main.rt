//! `wrreplay` reads a file of transactions on its standard input and writes a record for each, a frame's
//! pixels among them, on its standard output. Its stored run is over a file that is cut before its closing
//! byte, and ends with status 2.
#![tactic(auto)]

use command_line::run_on_streams;
use std::process::ExitCode;

fn main(rt: HostRuntime) -> ExitCode {
    run_on_streams(&rt)
}
