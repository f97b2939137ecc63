//! Tests of frames composed from kept tiles.
#![tactic(auto)]

#[cfg(test)]
mod frames;
