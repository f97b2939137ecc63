//! Tests of the pixels that `run` writes: every form of a display list, drawn.
#![tactic(auto)]

#[cfg(test)]
mod pictures;
