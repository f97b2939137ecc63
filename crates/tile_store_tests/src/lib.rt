//! Tests of the store of tiles against a plain list of tiles.
#![tactic(auto)]

#[cfg(test)]
mod draws;
#[cfg(test)]
mod plain;
#[cfg(test)]
mod runs;
#[cfg(test)]
mod steps;
