//! What `wrreplay` does, with a stored run over a whole file, which ends with status 0. A crate has one
//! stored run, and that of `wrreplay` itself is over a file that is cut.
#![tactic(auto)]

use command_line::run_on_streams;
use std::process::ExitCode;

fn main(rt: HostRuntime) -> ExitCode {
    run_on_streams(&rt)
}
