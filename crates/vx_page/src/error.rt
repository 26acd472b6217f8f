//! Why bytes give no rows.
ghost use Rattle.std.specs.Prelude.{◌≡◌};
ghost use Rattle.vx_page.specs.declared.error.PageError.TheVariants.{NoMemory};

use std::alloc::{AllocError, AllocFailed};
use thiserror::Error;

/// Why bytes give no rows.
#[derive(Clone, Copy, Debug, PartialEq, Eq, Error)]
pub enum PageError {
    /// The bytes are the page of no rows of the shape. `at` is the place, in bytes, of the first field that
    /// isn't read, or the end of the bytes where they end inside it.
    #[error("the bytes are no page")]
    Bad { at: u64 },
    #[error("out of memory")]
    NoMemory,
}

impl From<AllocError> for PageError {
    ghost from_gives = { λ _ e. e ≡ NoMemory };

    fn from(_: AllocError) -> Self {
        PageError::NoMemory
    }
}

impl<T: Drop> From<AllocFailed<T>> for PageError {
    ghost from_gives = { λ _ e. e ≡ NoMemory };

    fn from(_: AllocFailed<T>) -> Self {
        PageError::NoMemory
    }
}
