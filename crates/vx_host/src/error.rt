//! Why a sink took nothing, or a name's bytes weren't read.
use std::alloc::{AllocError, AllocFailed};
use thiserror::Error;

/// Why a sink took nothing.
#[derive(Clone, Copy, Debug, PartialEq, Eq)]
pub enum SinkError {
    /// The outside failed; the sink's count of faults has risen.
    Failed,
    /// Memory ran out; the sink's count of wants has risen.
    NoMemory,
}

/// Why a name's bytes weren't read.
#[derive(Debug, Drop, Error)]
pub enum ReadError {
    /// The outside failed, or nothing stands under the name; the count of faults has risen.
    #[error("the file can't be read")]
    Failed,
    /// There are more bytes than the limit, which is `at`.
    #[error("the file has more than {at} bytes")]
    TooBig { at: u64 },
    /// Memory ran out.
    #[error("out of memory")]
    NoMemory,
}

impl From<AllocError> for SinkError {
    ghost use Rattle.std.specs.Prelude.{◌≡◌};
    ghost use Rattle.vx_host.specs.declared.error.SinkError.TheVariants.{NoMemory};

    ghost from_gives = { λ _ e. e ≡ NoMemory };

    fn from(_: AllocError) -> Self {
        SinkError::NoMemory
    }
}

impl From<AllocError> for ReadError {
    ghost use Rattle.std.specs.Prelude.{◌≡◌};
    ghost use Rattle.vx_host.specs.declared.error.ReadError.TheVariants.{NoMemory};

    ghost from_gives = { λ _ e. e ≡ NoMemory };

    fn from(_: AllocError) -> Self {
        ReadError::NoMemory
    }
}
