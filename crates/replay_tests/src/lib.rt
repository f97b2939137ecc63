//! The tests of `run`: whole files replayed over memory.
#![tactic(auto)]

#[cfg(test)]
mod runs;
