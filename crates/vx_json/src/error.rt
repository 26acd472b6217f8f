//! Why no plan was read.
use std::alloc::{AllocError, AllocFailed};
use thiserror::Error;
use vx_plan::Refusal;

/// Why no plan was read.
#[derive(Debug, Drop, Error)]
pub enum PlanError {
    #[error("the plan is refused: {0:?}")]
    Refused(Refusal),
    #[error("out of memory")]
    NoMemory,
}

impl From<serde_json::Error> for PlanError {
    ghost use Rattle.vx_json.specs.Outcome.{IsJsonError};

    ghost from_gives = { IsJsonError };

    fn from(error: serde_json::Error) -> Self {
        if error.is_memory() {
            PlanError::NoMemory
        } else {
            PlanError::Refused(Refusal::P1)
        }
    }
}

impl From<AllocError> for PlanError {
    ghost use Rattle.std.specs.Prelude.{◌≡◌};
    ghost use Rattle.vx_json.specs.declared.error.PlanError.TheVariants.{NoMemory};

    ghost from_gives = { λ _ e. e ≡ NoMemory };

    fn from(_: AllocError) -> Self {
        PlanError::NoMemory
    }
}

impl<T: Drop> From<AllocFailed<T>> for PlanError {
    ghost use Rattle.std.specs.Prelude.{◌≡◌};
    ghost use Rattle.vx_json.specs.declared.error.PlanError.TheVariants.{NoMemory};

    ghost from_gives = { λ _ e. e ≡ NoMemory };

    fn from(_: AllocFailed<T>) -> Self {
        PlanError::NoMemory
    }
}
