//! Why words give no settings.

use std::alloc::{AllocError, AllocFailed};
use thiserror::Error;

/// Why words give no settings.
#[derive(Clone, Copy, Debug, PartialEq, Eq, Error)]
pub enum WordsError {
    /// The words are no lawful command line.
    #[error("bad words")]
    Refused,
    /// Memory ran out.
    #[error("out of memory")]
    NoMemory,
}

impl From<AllocError> for WordsError {
    ghost use Rattle.std.specs.Prelude.{◌≡◌};
    ghost use Rattle.vx_words.specs.declared.error.WordsError.TheVariants.{NoMemory};

    ghost from_gives = { λ _ e. e ≡ NoMemory };

    fn from(_: AllocError) -> Self {
        WordsError::NoMemory
    }
}

impl<T: Drop> From<AllocFailed<T>> for WordsError {
    ghost use Rattle.std.specs.Prelude.{◌≡◌};
    ghost use Rattle.vx_words.specs.declared.error.WordsError.TheVariants.{NoMemory};

    ghost from_gives = { λ _ e. e ≡ NoMemory };

    fn from(_: AllocFailed<T>) -> Self {
        WordsError::NoMemory
    }
}
