//! One row of pixels, each open or covered by a depth.
//!
//! A caller that draws opaque primitives front to back asks for the parts that are still open, draws these alone and
//! covers them. One that draws other primitives back to front asks for the parts that no greater depth covers.
//! Places and widths are in pixels from the row's left end.
#![tactic(auto)]

mod cover;
mod edits;
mod intervals;

pub use cover::Cover;
