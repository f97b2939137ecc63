//! Why reading, an answer or a whole run ends early.

ghost use Rattle.std.specs.Prelude.{◌≡◌};
ghost use Rattle.record_frame.specs.Errors.{unread_input, unanswered_input};
ghost use Rattle.record_frame.specs.declared.error.AnswerError.TheVariants as answering;
ghost use Rattle.record_frame.specs.declared.error.ReadError.TheVariants as reading;

use std::alloc::{AllocError, AllocFailed};
use thiserror::Error;
use wr_io::Fault;

/// Why a part of an input wasn't read.
#[derive(Clone, Copy, Debug, PartialEq, Eq, Error)]
pub enum ReadError {
    #[error("broken input")]
    Broken,
    #[error("read failed")]
    Failed,
    #[error("out of memory")]
    NoMemory,
}

impl From<AllocError> for ReadError {
    ghost from_gives = { λ _ e. e ≡ reading.NoMemory };

    fn from(_error: AllocError) -> ReadError {
        ReadError::NoMemory
    }
}

impl<T: Drop> From<AllocFailed<T>> for ReadError {
    ghost from_gives = { λ _ e. e ≡ reading.NoMemory };

    fn from(_error: AllocFailed<T>) -> ReadError {
        ReadError::NoMemory
    }
}

/// Why an entry has no answer.
#[derive(Clone, Copy, Debug, PartialEq, Eq, Error)]
pub enum AnswerError {
    /// The command refuses the entry, and ends with it.
    #[error("refused: {0}")]
    Refused(Fault),
    #[error("out of memory")]
    NoMemory,
}

impl From<AllocError> for AnswerError {
    ghost from_gives = { λ _ e. e ≡ answering.NoMemory };

    fn from(_error: AllocError) -> AnswerError {
        AnswerError::NoMemory
    }
}

impl<T: Drop> From<AllocFailed<T>> for AnswerError {
    ghost from_gives = { λ _ e. e ≡ answering.NoMemory };

    fn from(_error: AllocFailed<T>) -> AnswerError {
        AnswerError::NoMemory
    }
}

/// Why an input wasn't answered up to its closing byte.
#[derive(Clone, Copy, Debug, PartialEq, Eq, Error)]
pub enum RunError {
    /// The framing of the input is broken.
    #[error("broken input")]
    BrokenInput,
    /// The command refuses an entry.
    #[error("refused: {0}")]
    Refused(Fault),
    /// A call on the source failed.
    #[error("read failed")]
    ReadFailed,
    /// A call on the sink failed.
    #[error("write failed")]
    WriteFailed,
    #[error("out of memory")]
    OutOfMemory,
}

impl From<ReadError> for RunError {
    ghost from_gives = { λ e f. f ≡ unread_input e };

    fn from(error: ReadError) -> RunError {
        match error {
            ReadError::Broken => RunError::BrokenInput,
            ReadError::Failed => RunError::ReadFailed,
            ReadError::NoMemory => RunError::OutOfMemory,
        }
    }
}

impl From<AnswerError> for RunError {
    ghost from_gives = { λ e f. f ≡ unanswered_input e };

    fn from(error: AnswerError) -> RunError {
        match error {
            AnswerError::Refused(fault) => RunError::Refused(fault),
            AnswerError::NoMemory => RunError::OutOfMemory,
        }
    }
}
