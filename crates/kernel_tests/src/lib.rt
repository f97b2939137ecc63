//! Tests of planes and of the kernels on their rows.
#![tactic(auto)]

#[cfg(test)]
mod lengths;
#[cfg(test)]
mod planes;
#[cfg(test)]
mod rows;
