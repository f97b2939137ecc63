//! Files of transactions replayed into frames.
#![tactic(auto)]

mod drawn;
mod frame;
mod laws;
mod load;
mod painting;
mod program;
mod records;
mod replaying;
mod rows;
mod status;
mod words;

pub use file_generator::generate;
pub use laws::{drawn_laws, paint_laws, refusal_laws, replay_laws};
pub use program::run;
pub use replaying::replay_on;
pub use words::Command;
pub use wr_io::{StdSink, StdSource};
