//! How many nodes, rows and cells a plan has, within an allowance.
ghost use Rattle.std.specs.Prelude.{◌≡◌, length, sum_by};
ghost use Rattle.vx_plan.specs.Tree.{tree};
ghost use Rattle.vx_plan.specs.Limits as limits;

use crate::node::{Body, Node};
use crate::refusal::LimitName;
use vx_value::Row;

/// What is left of an allowance of nodes, rows or cells after a node and all below it, or None where that
/// passes it. It stops there, so the nodes' allowance bounds how deep it goes.
pub fn left_after(name: LimitName, node: &Node, left: u64) -> Option<u64>
    ensures { result ≡ limits.left_after left (limits.total name (tree node.now)) }
{
    match &node.body {
        Body::Values { rows, .. } => left_after_values(name, rows.as_slice(), left),
        Body::Filter { source, .. } => left_after(name, source.get(), left_after_node(name, left)?),
        Body::Project { source, .. } => left_after(
            name,
            source.get(),
            left_after_node(name, left)?,
        ),
        Body::Aggregation { source, .. } => left_after(
            name,
            source.get(),
            left_after_node(name, left)?,
        ),
        Body::Join {
            left: a,
            right: b,
            ..
        } => {
            let left = left_after_node(name, left)?;
            let left = left_after(name, a.get(), left)?;
            left_after(name, b.get(), left)
        }
        Body::Order { source, .. } => left_after(name, source.get(), left_after_node(name, left)?),
        Body::TopN { source, .. } => left_after(name, source.get(), left_after_node(name, left)?),
        Body::Limit { source, .. } => left_after(name, source.get(), left_after_node(name, left)?),
        Body::Exchange { source, .. } => left_after(
            name,
            source.get(),
            left_after_node(name, left)?,
        ),
    }
}

/// A node has no rows or cells itself, unless it is a values node.
fn left_after_node(name: LimitName, left: u64) -> Option<u64>
    ensures { result ≡ limits.left_after left (limits.counted_over name) }
{
    match name {
        LimitName::Nodes => left.checked_sub(1),
        _ => Some(left),
    }
}

fn left_after_values(name: LimitName, rows: &[Row], left: u64) -> Option<u64>
    ensures { result ≡ limits.left_after left (limits.counted_values name rows.now) }
{
    match name {
        LimitName::Nodes => left.checked_sub(1),
        LimitName::Rows => left.checked_sub(rows.len() as u64),
        LimitName::Cells => left_after_cells(rows, left),
        _ => Some(left),
    }
}

fn left_after_cells(rows: &[Row], allowance: u64) -> Option<u64>
    ensures { result ≡ limits.left_after allowance (sum_by length rows.now) }
{
    let mut left = allowance;
    for row in rows {
        left = left.checked_sub(row.cells().len() as u64)?;
    }
    Some(left)
}
