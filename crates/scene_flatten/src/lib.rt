//! The top items of a scene as entries: what it shows, back to front, where it stands, with nothing left to
//! look up but images and masks.
#![tactic(auto)]

mod around;
mod chains;
mod flatten;
mod items;
mod laws;
mod lists;
mod placed_list;
mod shown;

pub use flatten::tops;
pub use laws::{entry_laws, flat_laws};
