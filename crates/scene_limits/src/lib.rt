//! Which scenes are refused for what they would have expanded, and which pipelines are drawn. It is decided
//! pipeline by pipeline, without expanding anything: a list's nodes and Iframes are walked, and its items
//! never.
#![tactic(auto)]

mod fault;
mod laws;
mod limits;
mod marks;
mod places;
mod room;
mod totals;

pub use fault::scene_fault;
pub use laws::{level_laws, limit_laws};
pub use limits::{MAX_CLIPS, MAX_DISTANCE, MAX_GLYPHS, MAX_ITEM_CLIPS, MAX_ITEMS, MAX_NESTING};
pub use marks::drawn;
