//! The clips of chains where their nodes are.
#![tactic(auto)]

mod cover;
mod laws;
mod placed;

pub use cover::chain_cover_at;
pub use laws::placed_laws;
pub use placed::{resolve, resolve_into};
pub use spatial_tree::clip_count;
