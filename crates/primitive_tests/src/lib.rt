//! Tests of the crate `primitives`.
#![tactic(auto)]

#[cfg(test)]
mod tests;
