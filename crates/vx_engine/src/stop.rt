//! Why a run stopped before its output was written, and the status and the line that say so.

ghost use Rattle.std.specs.Prelude.{◌≡◌, IfOk, string_bytes};
ghost use Rattle.vx_json.specs.Refusals.{refusal_text};
ghost use Rattle.vx_engine.specs.Run.{file_line};

use std::alloc::{AllocError, Global};
use vx_host::{ReadError, SinkError};
use vx_json::{PlanError, refusal_text};
use vx_plan::Refusal;

/// All was written, and the plan's rows are its answer.
pub const DONE: u8 = 0;
/// All was written, and the plan met a fault.
pub const FAULTED: u8 = 1;
/// The words aren't lawful.
pub const BAD_WORDS: u8 = 2;
/// The file's bytes are no plan.
pub const REFUSED: u8 = 3;
/// A write to the output failed.
pub const NOT_WRITTEN: u8 = 4;
/// Memory ran out.
pub const NO_MEMORY: u8 = 5;
/// The file couldn't be read, or it is too big.
pub const NOT_READ: u8 = 6;

/// What is said where memory ran out. It takes none.
pub(crate) const NO_MEMORY_LINE: &str = "vxrun: out of memory\n";

/// Why a run stopped: one variant a cause.
#[derive(Debug, Drop)]
pub(crate) enum Stop {
    /// The file couldn't be read.
    NotRead,
    /// The file has more bytes than a plan file may have.
    TooBig,
    /// The file's bytes are no plan.
    Refused(Refusal),
    /// A write to the output failed.
    NotWritten,
    /// Memory ran out.
    NoMemory,
}

impl From<ReadError> for Stop {
    ghost use Rattle.std.specs.Prelude.{◌≡◌};
    ghost use Rattle.vx_engine.specs.Stop.{stop_of_read};

    ghost from_gives = { λ error stop. stop ≡ stop_of_read error };

    fn from(error: ReadError) -> Self {
        match error {
            ReadError::Failed => Stop::NotRead,
            ReadError::TooBig { at: _ } => Stop::TooBig,
            ReadError::NoMemory => Stop::NoMemory,
        }
    }
}

impl From<PlanError> for Stop {
    ghost use Rattle.std.specs.Prelude.{◌≡◌};
    ghost use Rattle.vx_engine.specs.Stop.{stop_of_plan};

    ghost from_gives = { λ error stop. stop ≡ stop_of_plan error };

    fn from(error: PlanError) -> Self {
        match error {
            PlanError::Refused(refusal) => Stop::Refused(refusal),
            PlanError::NoMemory => Stop::NoMemory,
        }
    }
}

impl From<SinkError> for Stop {
    ghost use Rattle.std.specs.Prelude.{◌≡◌};
    ghost use Rattle.vx_engine.specs.Stop.{stop_of_sink};

    ghost from_gives = { λ error stop. stop ≡ stop_of_sink error };

    fn from(error: SinkError) -> Self {
        match error {
            SinkError::Failed => Stop::NotWritten,
            SinkError::NoMemory => Stop::NoMemory,
        }
    }
}

impl From<AllocError> for Stop {
    ghost use Rattle.std.specs.Prelude.{◌≡◌};
    ghost use Rattle.vx_engine.specs.declared.stop.Stop.TheVariants.{NoMemory};

    ghost from_gives = { λ _ stop. stop ≡ NoMemory };

    fn from(_: AllocError) -> Self {
        Stop::NoMemory
    }
}

impl Stop {
    ghost use Rattle.vx_engine.specs.Stop.{status_of, line_of};

    /// The program's status.
    pub(crate) fn status(&self) -> u8
        ensures { result ≡ status_of self.now }
    {
        match self {
            Stop::NotRead | Stop::TooBig => NOT_READ,
            Stop::Refused(_) => REFUSED,
            Stop::NotWritten => NOT_WRITTEN,
            Stop::NoMemory => NO_MEMORY,
        }
    }

    /// The line on err, empty where the output failed.
    pub(crate) fn line(&self, alloc: Global, name: &str) -> Result<String, AllocError>
        ensures { IfOk result (λ line. string_bytes line ≡ line_of name.now self.now) }
    {
        match self {
            Stop::NotRead => file_line(alloc, name, "cannot be read"),
            Stop::TooBig => file_line(alloc, name, "too big"),
            Stop::Refused(refusal) => refused_line(alloc, name, refusal),
            Stop::NotWritten => Ok(String::new(alloc)),
            Stop::NoMemory => String::from_str(alloc, NO_MEMORY_LINE),
        }
    }
}

fn refused_line(alloc: Global, name: &str, refusal: &Refusal) -> Result<String, AllocError>
    ensures { IfOk result (λ line. string_bytes line ≡ file_line name.now (refusal_text refusal.now)) }
{
    let text = refusal_text(alloc, refusal)?;
    file_line(alloc, name, text.as_str())
}

fn file_line(alloc: Global, name: &str, what: &str) -> Result<String, AllocError>
    ensures { IfOk result (λ line. string_bytes line ≡ file_line name.now what.now) }
{
    format!(in alloc; "vxrun: {name}: {what}\n")
}
