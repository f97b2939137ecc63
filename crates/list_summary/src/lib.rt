//! What a display list adds to a scene, counted once: its own items, and the places where it shows the
//! items of another pipeline.
#![tactic(auto)]

mod chains;
mod counting;
mod iframe;
mod laws;
mod limits;
mod summary;
mod totals;

pub use iframe::Iframe;
pub use laws::summary_laws;
pub use limits::COUNT_CAP;
pub use summary::{Summary, summarise};
pub use totals::Totals;
