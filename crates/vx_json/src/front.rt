//! Nodes without their sources.
use sqlite_items::Items;
use vx_expr::Expr;
use vx_plan::{Aggregate, ExchangeKind, JoinKind, Step};
use vx_value::{Kind, Row, SortKey};

/// A node without its sources.
#[derive(Drop)]
pub(crate) struct Opened {
    pub(crate) id: u32,
    pub(crate) front: Front,
}

/// A node without its number and its sources.
#[derive(Drop)]
pub(crate) enum Front {
    Values {
        kinds: Items<Kind>,
        rows: Items<Row>,
        parallel: bool,
    },
    Join {
        kind: JoinKind,
        left_keys: Items<u32>,
        right_keys: Items<u32>,
    },
    Over(Work),
}

/// The same of a node that has one source.
#[derive(Drop)]
pub(crate) enum Work {
    Filter {
        predicate: Expr,
    },
    Project {
        exprs: Items<Expr>,
    },
    Aggregation {
        step: Step,
        keys: Items<u32>,
        aggregates: Items<Aggregate>,
    },
    Order {
        keys: Items<SortKey>,
    },
    TopN {
        count: u64,
        keys: Items<SortKey>,
    },
    Limit {
        offset: u64,
        count: u64,
    },
    Exchange {
        kind: ExchangeKind,
        keys: Items<u32>,
    },
}
