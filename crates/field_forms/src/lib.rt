//! Fields of bytes in a row: how the formats of display lists and of transactions are read and written.
//!
//! A form in `specs/` says which bytes pass as fields, for what value they stand, and where others are
//! refused first. The reader's methods give what a form reads; the `put_` functions write fields.
#![tactic(auto)]

mod errors;
mod fields;
mod limits;
mod reader;
mod writing;

pub use errors::{fault, moved};
pub use limits::{MAX_COORDINATE, NONE};
pub use reader::Reader;
pub use writing::{
    put_byte, put_bytes, put_colour, put_flag, put_i32, put_optional, put_rectangle, put_u16,
    put_u32,
};
