//! Where the nodes of a display list are, which scroll frames move them, and which clips a chain has.
#![tactic(auto)]

mod home;
mod laws;
mod lineage;
mod moves;
mod offset;

pub use home::{homes, root_scroll};
pub use laws::{chain_laws, offset_laws, scroll_laws};
pub use lineage::{ClipNumbers, chain_clips, clip_count};
pub use moves::Moves;
pub use offset::{node_offset, offsets};
