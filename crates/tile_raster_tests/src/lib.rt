//! Tests of the crate `tile_raster`.
#![tactic(auto)]

#[cfg(test)]
mod drawn;
#[cfg(test)]
mod fits;
#[cfg(test)]
mod generated;
#[cfg(test)]
mod made;
#[cfg(test)]
mod painted;
#[cfg(test)]
mod rolls;
