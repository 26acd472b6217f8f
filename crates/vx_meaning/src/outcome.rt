//! What the slow evaluator gives, and why it ends early.
ghost use Rattle.std.specs.Prelude.{◌≡◌};

use sqlite_items::Items;
use std::alloc::AllocError;
use vx_expr::Fault;
use vx_value::Row;

/// What a plan gives.
#[derive(Debug, Drop)]
pub enum SlowAnswer {
    /// All rows of one answer.
    Rows(Items<Row>),
    /// The first fault in post-order: the node's number, and the row on which it faults or the key of the
    /// group that overflows.
    Fault { node: u32, row: Row, code: Fault },
}

/// Why an evaluation ends early.
#[derive(Debug, Drop)]
pub enum Stop {
    Fault { node: u32, row: Row, code: Fault },
    NoMemory,
}

impl From<AllocError> for Stop {
    ghost use Rattle.std.specs.Prelude.{◌≡◌};
    ghost use Rattle.vx_meaning.specs.declared.outcome.Stop.TheVariants.{NoMemory};

    ghost from_gives = { λ _ stop. stop ≡ NoMemory };

    fn from(_error: AllocError) -> Stop {
        Stop::NoMemory
    }
}
