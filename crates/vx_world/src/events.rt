//! What may happen in a world, and what it answers.
ghost use Rattle.std.specs.Prelude.{◌≡◌};
ghost use Rattle.vx_world.specs.declared.events.ApplyError.TheVariants.{NoMemory};

use std::alloc::AllocError;
use vx_arb::{AbortNote, Move};

/// One critical section of the running program.
#[derive(Clone, Copy, Debug, PartialEq, Eq)]
pub enum Event {
    Admit { job: u32, max: u64 },
    Batch { job: u32, hint: u32 },
    Begin { job: u32, hint: u32 },
    Shrink { job: u32 },
    Reclaim { job: u32 },
    Look { job: u32 },
    Grant,
    Abort { job: u32 },
    Drop,
    Want { job: u32 },
    Retire { job: u32 },
}

/// What an event that was made answers.
#[derive(Clone, Copy, Debug, PartialEq, Eq)]
pub enum Reply {
    Admitted,
    Stepped(Move),
    Begun,
    NotLacking,
    /// The bytes that a shrink moved, or that a reclaim freed.
    Freed(u64),
    Looked,
    Granted,
    Aborted(AbortNote),
    Dropped,
    Wanted,
    Retired,
}

/// Why an event wasn't made.
#[derive(Clone, Copy, Debug, PartialEq, Eq)]
pub enum ApplyError {
    /// The event isn't lawful.
    Refused,
    NoMemory,
}

impl From<AllocError> for ApplyError {
    ghost from_gives = { λ _ error. error ≡ NoMemory };

    fn from(_error: AllocError) -> ApplyError {
        ApplyError::NoMemory
    }
}
