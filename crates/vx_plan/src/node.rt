//! Plans and their nodes.
use crate::aggregate::{Aggregate, Step};
use sqlite_items::{Boxed, Items};
use vx_expr::Expr;
use vx_value::{Kind, Row, SortKey};

/// A whole plan: its root and what lies below it.
#[derive(Debug, Drop)]
pub struct Plan {
    pub root: Node,
}

/// A node of a plan.
#[derive(Debug, Drop)]
#[cycle(plan)]
pub struct Node {
    /// The node's number, 0 to 65,535, by which faults name it.
    pub id: u32,
    pub body: Body,
}

/// Which rows a join gives.
#[derive(Clone, Copy, Debug, PartialEq, Eq)]
pub enum JoinKind {
    /// The matching pairs.
    Inner,
    /// Those, and each left row without a match.
    Left,
    /// Those, and each right row without a match.
    Right,
    /// Those, and each row of both sides without a match.
    Full,
    /// Each left row with a match, once.
    Semi,
    /// Each left row without a match.
    Anti,
}

/// How an exchange deals out its rows.
#[derive(Clone, Copy, Debug, PartialEq, Eq)]
pub enum ExchangeKind {
    /// All to one driver.
    Gather,
    /// To many drivers, by the hash of a key.
    Hash,
}

/// What a node does. Columns are places from 0.
#[derive(Debug, Drop)]
#[cycle(plan)]
pub enum Body {
    /// Gives the rows that the plan itself holds. Each row has as many cells as there are kinds, and each
    /// cell is null or of its column's kind. `parallel` lets several drivers share them out.
    Values {
        kinds: Items<Kind>,
        rows: Items<Row>,
        parallel: bool,
    },
    /// Keeps the rows on which the predicate is true.
    Filter {
        predicate: Expr,
        source: Boxed<Node>,
    },
    /// Gives a row of the values of these expressions for each row.
    Project {
        exprs: Items<Expr>,
        source: Boxed<Node>,
    },
    /// Gives a row for each key that occurs, with the aggregates over its rows; without keys always one.
    Aggregation {
        step: Step,
        keys: Items<u32>,
        aggregates: Items<Aggregate>,
        source: Boxed<Node>,
    },
    /// Joins rows whose keys are equal and not null.
    Join {
        kind: JoinKind,
        left_keys: Items<u32>,
        right_keys: Items<u32>,
        left: Boxed<Node>,
        right: Boxed<Node>,
    },
    /// Sorts by these keys.
    Order {
        keys: Items<SortKey>,
        source: Boxed<Node>,
    },
    /// Gives the first rows by these keys.
    TopN {
        count: u64,
        keys: Items<SortKey>,
        source: Boxed<Node>,
    },
    /// Gives the rows at places from `offset`, at most `count` of them.
    Limit {
        offset: u64,
        count: u64,
        source: Boxed<Node>,
    },
    /// Deals rows out to drivers anew.
    Exchange {
        kind: ExchangeKind,
        keys: Items<u32>,
        source: Boxed<Node>,
    },
}
