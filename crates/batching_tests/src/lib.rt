//! Tests of a row's covered places.
#![tactic(auto)]

#[cfg(test)]
mod pairs;
#[cfg(test)]
mod rows;
