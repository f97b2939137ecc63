//! Tests of a renderer, over public calls.
#![tactic(auto)]

#[cfg(test)]
mod budgets;
#[cfg(test)]
mod changes;
#[cfg(test)]
mod generated;
#[cfg(test)]
mod list_bytes;
#[cfg(test)]
mod memory;
#[cfg(test)]
mod opacities;
#[cfg(test)]
mod ops;
#[cfg(test)]
mod overlaps;
#[cfg(test)]
mod pixels;
#[cfg(test)]
mod refused;
#[cfg(test)]
mod resources;
#[cfg(test)]
mod rolled_lists;
#[cfg(test)]
mod rolled_ops;
#[cfg(test)]
mod rolls;
#[cfg(test)]
mod scrolls;
#[cfg(test)]
mod stage;
#[cfg(test)]
mod window;
