//! Copies of plans.
ghost use Rattle.std.specs.Prelude.{◌≡◌, IfOk};

use crate::aggregate::{Aggregate, Step};
use crate::node::{Body, JoinKind, Node, Plan};
use sqlite_items::{Boxed, Items};
use std::alloc::{AllocError, Global};
use vx_expr::Expr;
use vx_value::{Kind, Row, SortKey};

impl Plan {
    /// The same plan, with memory of its own.
    pub fn copy(&self, alloc: Global) -> Result<Plan, AllocError>
        ensures { IfOk result (λ copy. copy ≡ self.now) }
    {
        Ok(Plan {
            root: self.root.copy(alloc)?,
        })
    }
}

impl Node {
    /// The same node and all below it, with memory of their own.
    #[cycle(copies)]
    pub fn copy(&self, alloc: Global) -> Result<Node, AllocError>
        ensures { IfOk result (λ copy. copy ≡ self.now) }
    {
        Ok(Node {
            id: self.id,
            body: self.body.copy(alloc)?,
        })
    }
}

impl Body {
    /// The same body and all below it, with memory of their own.
    #[cycle(copies)]
    fn copy(&self, alloc: Global) -> Result<Body, AllocError>
        ensures { IfOk result (λ copy. copy ≡ self.now) }
    {
        match self {
            Body::Values {
                kinds,
                rows,
                parallel,
            } => values_copy(alloc, kinds.as_slice(), rows.as_slice(), *parallel),
            Body::Filter { predicate, source } => Ok(Body::Filter {
                predicate: predicate.copy(alloc)?,
                source: Boxed::new(alloc, source.get().copy(alloc)?)?,
            }),
            Body::Project { exprs, source } => Ok(Body::Project {
                exprs: copy_exprs(alloc, exprs.as_slice())?,
                source: Boxed::new(alloc, source.get().copy(alloc)?)?,
            }),
            Body::Aggregation {
                step,
                keys,
                aggregates,
                source,
            } => {
                let source = source.get().copy(alloc)?;
                aggregation_copy(alloc, *step, keys, aggregates, source)
            }
            Body::Join {
                kind,
                left_keys,
                right_keys,
                left,
                right,
            } => {
                let (left, right) = (left.get().copy(alloc)?, right.get().copy(alloc)?);
                join_copy(alloc, *kind, left_keys, right_keys, left, right)
            }
            Body::Order { keys, source } => Ok(Body::Order {
                keys: Items::from_slice(alloc, keys.as_slice())?,
                source: Boxed::new(alloc, source.get().copy(alloc)?)?,
            }),
            Body::TopN {
                count,
                keys,
                source,
            } => top_n_copy(alloc, *count, keys.as_slice(), source.get().copy(alloc)?),
            Body::Limit {
                offset,
                count,
                source,
            } => limit_copy(alloc, *offset, *count, source.get().copy(alloc)?),
            Body::Exchange { kind, keys, source } => Ok(Body::Exchange {
                kind: *kind,
                keys: Items::from_slice(alloc, keys.as_slice())?,
                source: Boxed::new(alloc, source.get().copy(alloc)?)?,
            }),
        }
    }
}

fn values_copy(
    alloc: Global,
    kinds: &[Kind],
    rows: &[Row],
    is_parallel: bool,
) -> Result<Body, AllocError>
    ensures { IfOk result (λ copy. copy ≡ Body.Values kinds.now rows.now is_parallel) }
{
    Ok(Body::Values {
        kinds: Items::from_slice(alloc, kinds)?,
        rows: copy_rows(alloc, rows)?,
        parallel: is_parallel,
    })
}

fn aggregation_copy(
    alloc: Global,
    step: Step,
    keys: &Items<u32>,
    aggregates: &Items<Aggregate>,
    source: Node,
) -> Result<Body, AllocError>
    ensures { IfOk result (λ copy. copy ≡ Body.Aggregation step keys.now aggregates.now source) }
{
    Ok(Body::Aggregation {
        step,
        keys: Items::from_slice(alloc, keys.as_slice())?,
        aggregates: Items::from_slice(alloc, aggregates.as_slice())?,
        source: Boxed::new(alloc, source)?,
    })
}

fn join_copy(
    alloc: Global,
    kind: JoinKind,
    left_keys: &Items<u32>,
    right_keys: &Items<u32>,
    left: Node,
    right: Node,
) -> Result<Body, AllocError>
    ensures { IfOk result (λ copy. copy ≡ Body.Join kind left_keys.now right_keys.now left right) }
{
    let left_keys = keys_copy(alloc, left_keys)?;
    let right_keys = keys_copy(alloc, right_keys)?;
    let left = Boxed::new(alloc, left)?;
    let right = Boxed::new(alloc, right)?;
    Ok(Body::Join {
        kind,
        left_keys,
        right_keys,
        left,
        right,
    })
}

fn keys_copy(alloc: Global, keys: &Items<u32>) -> Result<Items<u32>, AllocError>
    ensures { IfOk result (λ copy. copy ≡ keys.now) }
{
    Items::from_slice(alloc, keys.as_slice())
}

fn top_n_copy(alloc: Global, count: u64, keys: &[SortKey], source: Node) -> Result<Body, AllocError>
    ensures { IfOk result (λ copy. copy ≡ Body.TopN count keys.now source) }
{
    Ok(Body::TopN {
        count,
        keys: Items::from_slice(alloc, keys)?,
        source: Boxed::new(alloc, source)?,
    })
}

fn limit_copy(alloc: Global, offset: u64, count: u64, source: Node) -> Result<Body, AllocError>
    ensures { IfOk result (λ copy. copy ≡ Body.Limit offset count source) }
{
    Ok(Body::Limit {
        offset,
        count,
        source: Boxed::new(alloc, source)?,
    })
}

fn copy_rows(alloc: Global, rows: &[Row]) -> Result<Items<Row>, AllocError>
    ensures { IfOk result (λ copies. copies ≡ rows.now) }
{
    let mut copies = Items::new(alloc);
    for row in rows {
        copies.push(row.copy(alloc)?)?;
    }
    Ok(copies)
}

fn copy_exprs(alloc: Global, exprs: &[Expr]) -> Result<Items<Expr>, AllocError>
    ensures { IfOk result (λ copies. copies ≡ exprs.now) }
{
    let mut copies = Items::new(alloc);
    for e in exprs {
        copies.push(e.copy(alloc)?)?;
    }
    Ok(copies)
}
