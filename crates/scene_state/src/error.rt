//! Why a transaction isn't applied.

ghost use Rattle.std.specs.Prelude.{◌≡◌, ◌≤◌, ◌+◌, ◌<◌, ◌^◌};
ghost use Rattle.field_forms.specs.Outcome.{IsWithin};
ghost use Rattle.image_store.specs.Outcome.{NamesTexelBelow};
ghost use Rattle.scene_state.specs.StoreFaults.{error_at, list_error};
ghost use Rattle.scene_state.specs.declared.error.ApplyError.TheVariants as reasons;

use image_store::StoreError;
use std::alloc::{AllocError, AllocFailed};
use thiserror::Error;
use wr_geom::NoMemory;
use wr_io::{Code, DecodeError, Fault};

/// Why a transaction isn't applied.
#[derive(Clone, Copy, Debug, PartialEq, Eq, Error)]
pub enum ApplyError {
    /// The first fault, at a position of the payload in bytes.
    #[error("refused: {0}")]
    Fault(Fault),
    /// Memory ran out.
    #[error("out of memory")]
    NoMemory,
}

impl From<NoMemory> for ApplyError {
    ghost from_gives = { λ _ e. e ≡ reasons.NoMemory };

    fn from(_error: NoMemory) -> ApplyError {
        ApplyError::NoMemory
    }
}

impl From<AllocError> for ApplyError {
    ghost from_gives = { λ _ e. e ≡ reasons.NoMemory };

    fn from(_error: AllocError) -> ApplyError {
        ApplyError::NoMemory
    }
}

impl<T: Drop> From<AllocFailed<T>> for ApplyError {
    ghost from_gives = { λ _ e. e ≡ reasons.NoMemory };

    fn from(_failed: AllocFailed<T>) -> ApplyError {
        ApplyError::NoMemory
    }
}

/// Where the width and the height of the rectangle stand in an operation that updates an image, and the
/// texels in it and in one that adds an image: in bytes after the tag.
const UPDATE_WIDTH: u32 = 9;

const UPDATE_HEIGHT: u32 = 11;

pub(crate) const UPDATE_TEXELS: u32 = 13;

pub(crate) const ADD_TEXELS: u32 = 9;

fn fault(code: Code, at: u32) -> ApplyError
    ensures { result ≡ reasons.Fault (record { code = code; at = at }) }
{
    ApplyError::Fault(Fault { code, at })
}

/// The refusal by the store of an operation whose tag stands at `at`, and its texels at `texels`.
pub(crate) fn store_error(error: StoreError, at: u32, texels: u32) -> ApplyError
    requires at { at ≤ 2 ^ 26 }
    requires texels { texels ≤ 2 ^ 27 }
    requires few { NamesTexelBelow (2 ^ 24) error }
    ensures { result ≡ error_at at texels error }
{
    match error {
        StoreError::NoMemory => ApplyError::NoMemory,
        StoreError::Limit => fault(Code::Limit, at),
        StoreError::UnknownImage => fault(Code::UnknownImage, at + 1),
        StoreError::OutOfWidth => fault(Code::BadNumber, at + UPDATE_WIDTH),
        StoreError::OutOfHeight => fault(Code::BadNumber, at + UPDATE_HEIGHT),
        StoreError::BadPixels(texel) => fault(Code::BadPixels, texels + 4 * texel),
    }
}

/// The error of a list whose bytes, at most `len`, begin at the position `by`.
pub(crate) fn list_error(error: DecodeError, by: u32, len: u32) -> ApplyError
    requires within { IsWithin len error }
    requires fits { by + len < 2 ^ 32 }
    ensures { result ≡ list_error by error }
{
    match error {
        DecodeError::Fault(found) => fault(found.code, by + found.at),
        DecodeError::NoMemory => ApplyError::NoMemory,
    }
}
