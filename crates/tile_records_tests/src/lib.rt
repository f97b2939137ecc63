//! Tests of the crate `tile_records`.
#![tactic(auto)]

#[cfg(test)]
mod dirt;
#[cfg(test)]
mod holding;
#[cfg(test)]
mod made;
#[cfg(test)]
mod picking;
#[cfg(test)]
mod records;
