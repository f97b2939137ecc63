//! Tests of the crates `slice_rules` and `picture_slices`.
#![tactic(auto)]

#[cfg(test)]
mod tests;
