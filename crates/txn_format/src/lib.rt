//! Transactions: a pipeline's payload as bytes and as operations.
#![tactic(auto)]

mod fields;
mod laws;
mod limits;
mod op;
mod reading;
mod tags;
mod txn;
mod writing;

pub use laws::{txn_fault_laws, txn_reading_laws, txn_spelling_laws};
pub use limits::{
    MAX_PAYLOAD_BYTES, MAX_PIPELINE, MAX_SIDE, MAX_TILE_PIXELS, MAX_TILE_SIDE, MAX_TILES,
    MIN_TILE_SIDE,
};
pub use op::{Op, Placed};
pub use reading::read_txn;
pub use txn::Txn;
pub use writing::write_txn;
