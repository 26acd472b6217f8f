//! How a query ended, and the text that says so.
use sqlite_items::Items;
use vx_arb::AbortNote;
use vx_expr::Fault;
use vx_value::Row;

/// How a query ended.
#[derive(Debug, Drop)]
pub enum Outcome {
    /// All rows of one answer.
    Ok(Items<Row>),
    Error(Cause),
}

/// Why a query failed.
#[derive(Debug, Drop)]
pub enum Cause {
    /// The node's number, and the row on which it faults or the key of the group that overflows.
    Fault { node: u32, row: Row, code: Fault },
    /// How many calls of its store failed.
    Spill { faults: u64 },
    Aborted(AbortNote),
    /// Want of memory in its own work.
    Memory,
}
