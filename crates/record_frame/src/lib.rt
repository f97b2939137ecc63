//! Inputs that are divided into records: a magic, entries, and a closing byte. Entries are read one by
//! one, and each is answered, and its answer written, before the next is read.
#![tactic(auto)]

mod error;
mod input;
mod limits;
mod reading;
mod records;
mod session;
mod transactions;

pub use error::{AnswerError, ReadError, RunError};
pub use input::{answer_input, open_input};
pub use limits::{MAX_ENTRIES, MAX_PAYLOAD_BYTES};
pub use reading::{fill, read_payload, read_tag};
pub use records::answer_records;
pub use session::Session;
pub use transactions::{AnswerPayload, Transactions};
