//! Tests of where nodes and clips are.
#![tactic(auto)]

#[cfg(test)]
mod tests;
