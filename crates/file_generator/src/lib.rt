//! The files of transactions that `load` replays. A number makes one, the same each time: a page with shapes at
//! rolled places, and then changes of it.
#![tactic(auto)]

mod generator;
mod items;
mod laws;
mod limits;
mod operations;
mod rolls;
mod tags;

pub use generator::{Generator, generate};
pub use laws::file_laws;
pub use limits::MAX_TRANSACTIONS;
