//! The state of the whole renderer: the view, the pipelines, and what is stored. A transaction makes the
//! next scene of one, or is refused and leaves it.
#![tactic(auto)]

mod draft;
mod error;
mod limits;
mod paint;
mod policy;
mod scene;

pub use error::ApplyError;
pub use limits::MAX_STORED_PIXELS;
pub use paint::paint_at;
pub use policy::Policy;
pub use scene::{Scene, know_scene};
