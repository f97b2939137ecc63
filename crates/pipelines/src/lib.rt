//! The pipelines of a scene: each has perhaps a list with its epoch, and where it is moved to.
#![tactic(auto)]

mod change;
mod listed;
mod pipeline;
mod table;

pub use change::Change;
pub use listed::Listed;
pub use pipeline::Pipeline;
pub use table::Pipelines;
