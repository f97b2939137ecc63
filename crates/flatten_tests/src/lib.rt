//! The tests of top items as entries, over small scenes.
#![tactic(auto)]

#[cfg(test)]
mod expected;
#[cfg(test)]
mod flat;
#[cfg(test)]
mod generated;
#[cfg(test)]
mod parts;
#[cfg(test)]
mod point;
#[cfg(test)]
mod rolls;
#[cfg(test)]
mod stage;
