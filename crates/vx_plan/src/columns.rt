//! How many columns a node gives.
ghost use Rattle.std.specs.Prelude.{◌≡◌, ◌≤◌, ◌+◌, IfSome};
ghost use Rattle.vx_plan.specs.Tree.{tree};
ghost use Rattle.vx_plan.specs.Limits as limits;

use crate::aggregate::{Aggregate, AggregateName, Step};
use crate::node::{Body, JoinKind, Node};

/// How many columns a node gives, or None where it or a node below it has none or more than 64.
pub fn columns_within(node: &Node) -> Option<usize>
    ensures is { result ≡ limits.kept_columns (tree node.now) }
    ensures within { IfSome result (λ n. n ≤ 64) }
{
    match &node.body {
        Body::Values { kinds, .. } => within(kinds.len()),
        Body::Filter { source, .. } => columns_within(source.get()),
        Body::Project { exprs, source } => {
            columns_within(source.get())?;
            within(exprs.len())
        }
        Body::Aggregation {
            step,
            keys,
            aggregates,
            source,
        } => {
            columns_within(source.get())?;
            aggregation_columns(*step, keys.len(), aggregates.as_slice())
        }
        Body::Join {
            kind,
            left,
            right,
            ..
        } => {
            let left = columns_within(left.get())?;
            let right = columns_within(right.get())?;
            joined_columns(*kind, left, right)
        }
        Body::Order { source, .. } => columns_within(source.get()),
        Body::TopN { source, .. } => columns_within(source.get()),
        Body::Limit { source, .. } => columns_within(source.get()),
        Body::Exchange { source, .. } => columns_within(source.get()),
    }
}

fn within(columns: usize) -> Option<usize>
    ensures is { result ≡ limits.kept_width columns }
    ensures within { IfSome result (λ n. n ≤ 64) }
{
    if columns >= 1 && columns <= 64 {
        Some(columns)
    } else {
        None
    }
}

/// A join that gives the columns of both sides may have up to 128, and then has too many.
fn joined_columns(kind: JoinKind, left: usize, right: usize) -> Option<usize>
    requires { left ≤ 64 × right ≤ 64 }
    ensures is { result ≡ limits.kept_width (limits.columns_joined kind left right) }
    ensures within { IfSome result (λ n. n ≤ 64) }
{
    match kind {
        JoinKind::Semi | JoinKind::Anti => within(left),
        _ => within(left + right),
    }
}

fn aggregation_columns(step: Step, keys: usize, aggregates: &[Aggregate]) -> Option<usize>
    ensures is { result ≡ limits.kept_width (limits.columns_grouped step keys aggregates.now) }
    ensures within { IfSome result (λ n. n ≤ 64) }
{
    let mut columns = keys;
    for aggregate in aggregates {
        if columns > 64 {
            return None;
        }
        columns += result_columns(step, aggregate.name);
    }
    within(columns)
}

/// A partial sum is two columns.
fn result_columns(step: Step, name: AggregateName) -> usize
    ensures is { result ≡ limits.result_columns step name }
    ensures few { result ≤ 2 }
{
    match step {
        Step::Partial => match name {
            AggregateName::Sum => 2,
            _ => 1,
        },
        _ => 1,
    }
}
