//! Display lists: what a pipeline draws, as bytes and as a tree of items.
#![tactic(auto)]

mod builder;
mod decoder;
mod definitions;
mod encoder;
mod fields;
mod item;
mod item_encoder;
mod items;
mod laws;
mod limits;
mod list;
mod node;
mod parts;
mod tags;
mod token;

pub use decoder::decode;
pub use encoder::encode;
pub use item::{GlyphAt, Item, Spot};
pub use laws::{fault_laws, reading_laws, spelling_laws, tree_laws};
pub use limits::{
    MAX_CHAIN_CLIPS, MAX_CONTEXTS, MAX_DEFINITIONS, MAX_LEVEL, MAX_PIPELINE, MAX_SCROLL_SIDE,
};
pub use list::List;
pub use node::{ChainDef, ClipDef, Node};
pub use wr_geom::{Radii, Widths};
