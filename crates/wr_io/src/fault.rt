//! Why bytes are refused.

ghost use Rattle.std.specs.Prelude.{◌≡◌};
ghost use Rattle.wr_io.specs.declared.fault.DecodeError.TheVariants.{NoMemory};
ghost use Rattle.wr_io.specs.Codes.{code_number};

use std::alloc::{AllocError, AllocFailed};
use thiserror::Error;

/// Why a transaction is refused. A refusal record carries the number of the variant.
#[derive(Clone, Copy, Debug, PartialEq, Eq, Hash, Error)]
pub enum Code {
    #[error("unknown tag, or a tag out of its section")]
    BadTag = 1,
    #[error("the bytes end inside a field, or where a tag is due")]
    Short = 2,
    #[error("a number out of its range")]
    BadNumber = 3,
    #[error("a reference to what isn't defined, or a repeated scroll number")]
    BadRef = 4,
    #[error("a context closed too often, or still open at the end")]
    Nesting = 5,
    #[error("a colour that isn't premultiplied")]
    BadColour = 6,
    #[error("an unknown blend mode")]
    BadMode = 7,
    #[error("an iframe of the own or of a smaller pipeline")]
    IframeOrder = 8,
    #[error("an operation for the root pipeline alone")]
    NotRoot = 9,
    #[error("no image of that key")]
    UnknownImage = 10,
    #[error("a texel that isn't premultiplied")]
    BadPixels = 11,
    #[error("a radius or a border width too large")]
    BadRadius = 12,
    #[error("a counted quantity beyond its limit")]
    Limit = 13,
    #[error("bytes after the end")]
    Trailing = 14,
    #[error("too many expanded items, glyphs or clips")]
    TooManyItems = 15,
    #[error("expanded too deep, or placed too far out")]
    TooDeep = 16,
    #[error("too many stored pixels")]
    TooManyPixels = 17,
}

impl Code {
    /// The number in a refusal record: 1 to 17.
    pub fn number(self) -> u8
        ensures { result ≡ code_number self }
    {
        self as u8
    }
}

/// The first fault of some bytes, and its position: the offset in bytes of the first byte of the field
/// at fault.
#[derive(Clone, Copy, Debug, PartialEq, Eq, Hash, Error)]
#[error("{code}, at byte {at}")]
pub struct Fault {
    pub code: Code,
    pub at: u32,
}

/// Why decoding gave no value.
#[derive(Clone, Copy, Debug, PartialEq, Eq, Hash, Error)]
pub enum DecodeError {
    #[error("{0}")]
    Fault(Fault),
    #[error("out of memory")]
    NoMemory,
}

impl From<AllocError> for DecodeError {
    ghost from_gives = { λ _ e. e ≡ NoMemory };

    fn from(_error: AllocError) -> DecodeError {
        DecodeError::NoMemory
    }
}

impl<T: Drop> From<AllocFailed<T>> for DecodeError {
    ghost from_gives = { λ _ e. e ≡ NoMemory };

    fn from(_error: AllocFailed<T>) -> DecodeError {
        DecodeError::NoMemory
    }
}
