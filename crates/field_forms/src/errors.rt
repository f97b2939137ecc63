//! Errors of reading.

ghost use Rattle.std.specs.Prelude.{◌≡◌, ◌+◌, ◌<◌, ◌^◌};
ghost use Rattle.field_forms.specs.Outcome.{IsWithin, moved_error};

use wr_io::{Code, DecodeError, Fault};

/// The error for a fault at a position, an offset in bytes.
pub fn fault(code: Code, at: u32) -> DecodeError
    ensures { result ≡ DecodeError.Fault (record { code = code; at = at }) }
{
    DecodeError::Fault(Fault { code, at })
}

/// The same error of a part whose positions are counted from 0 and which begins at position `by`. The
/// part has at most `len` bytes, and `by` and `len` fit 32 bits together.
pub fn moved(error: DecodeError, by: u32, len: u32) -> DecodeError
    requires within { IsWithin len error }
    requires fits { by + len < 2 ^ 32 }
    ensures { result ≡ moved_error by error }
{
    match error {
        DecodeError::Fault(found) => fault(found.code, by + found.at),
        DecodeError::NoMemory => DecodeError::NoMemory,
    }
}
