//! Containers that contracts see as plain values: a list, finite maps, and a value that is copied when
//! it is first written.
//!
//! Each call that takes memory answers std's `AllocError` where there is none.
#![tactic(auto)]

mod exact;
mod laws;
mod number_map;
mod pair_map;
mod sequence;
mod shared;

pub use exact::Exact;
pub use laws::{number_map_laws, pair_map_laws, sequence_laws};
pub use number_map::NumberMap;
pub use pair_map::PairMap;
pub use sequence::Sequence;
pub use shared::Shared;
