//! What tiles are drawn from: records of interned entries, and where two records can differ.
//!
//! An interner holds each entry once, under an id, and counts how often that is held. A tile's record names, by ids, the
//! entries of a slice that matter in the tile. The dirty rectangle of an old and a new record is where a tile that was
//! drawn from the old one has to be drawn again.
#![tactic(auto)]

mod balance;
mod dirt;
mod id;
mod interner;
mod keys;
mod laws;
mod making;
mod pass;
mod record;
mod slots;
mod tiles;

pub use balance::is_balanced;
pub use dirt::dirty;
pub use id::Id;
pub use interner::{Interner, know_interner};
pub use laws::{dirt_laws, holding_laws, picking_laws};
pub use making::{make_record, make_records};
pub use record::{TileRecord, give_up};
