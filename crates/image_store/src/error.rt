//! Why the store refuses.

ghost use Rattle.std.specs.Prelude.{◌≡◌};
ghost use Rattle.image_store.specs.declared.error.StoreError.TheVariants as errors;

use std::alloc::{AllocError, AllocFailed};
use thiserror::Error;

/// Why a call on a store is refused.
#[derive(Clone, Copy, Debug, PartialEq, Eq, Error)]
pub enum StoreError {
    /// No generation is left.
    #[error("no generation is left")]
    Limit,
    /// No image is stored at that key.
    #[error("no image is stored at that key")]
    UnknownImage,
    /// The rectangle goes beyond the image's width.
    #[error("the rectangle goes beyond the image's width")]
    OutOfWidth,
    /// The rectangle goes beyond the image's height.
    #[error("the rectangle goes beyond the image's height")]
    OutOfHeight,
    /// This texel is the first that isn't premultiplied.
    #[error("texel {0} isn't premultiplied")]
    BadPixels(u32),
    /// Memory ran out.
    #[error("out of memory")]
    NoMemory,
}

impl From<AllocError> for StoreError {
    ghost from_gives = { λ _ e. e ≡ errors.NoMemory };

    fn from(_error: AllocError) -> StoreError {
        StoreError::NoMemory
    }
}

impl<T: Drop> From<AllocFailed<T>> for StoreError {
    ghost from_gives = { λ _ e. e ≡ errors.NoMemory };

    fn from(_failed: AllocFailed<T>) -> StoreError {
        StoreError::NoMemory
    }
}
