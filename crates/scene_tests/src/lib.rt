//! The tests of scenes and of what a scene is made of, over public calls.
#![tactic(auto)]

#[cfg(test)]
mod faults;
#[cfg(test)]
mod limits;
#[cfg(test)]
mod refused;
#[cfg(test)]
mod scenes;
#[cfg(test)]
mod stage;
#[cfg(test)]
mod stored;
#[cfg(test)]
mod summaries;
