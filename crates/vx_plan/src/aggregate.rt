//! Aggregates, and the steps of an aggregation.
/// Which part of an aggregation a node does.
#[derive(Clone, Copy, Debug, PartialEq, Eq)]
pub enum Step {
    /// From rows to results.
    Single,
    /// From rows to partial results.
    Partial,
    /// From partial results to results.
    Final,
}

/// What an aggregate computes over the rows of a group.
#[derive(Clone, Copy, Debug, PartialEq, Eq)]
pub enum AggregateName {
    Count,
    Sum,
    Min,
    Max,
    BoolAnd,
    BoolOr,
}

/// An aggregate over a column, or over rows where it has none.
#[derive(Clone, Copy, Debug, PartialEq, Eq)]
pub struct Aggregate {
    pub name: AggregateName,
    /// The column's place from 0; of a final sum the first of two columns.
    pub column: Option<u32>,
}
