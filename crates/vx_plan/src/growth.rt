//! How many rows a node may give at most.
ghost use Rattle.std.specs.Prelude.{◌≡◌, ◌≤◌, ◌^◌, IfSome};
ghost use Rattle.vx_plan.specs.Tree.{tree};
ghost use Rattle.vx_plan.specs.Limits as limits;

use crate::node::{Body, JoinKind, Node};

/// A bound on the rows that a node gives, or None where it is more than 2^62 at the node or below it.
pub fn growth_within(node: &Node) -> Option<u64>
    ensures is { result ≡ limits.kept_growth (tree node.now) }
    ensures within { IfSome result (λ n. n ≤ 2 ^ 62) }
{
    match &node.body {
        Body::Values { rows, .. } => within(rows.len() as u128),
        Body::Filter { source, .. } => growth_within(source.get()),
        Body::Project { source, .. } => growth_within(source.get()),
        Body::Aggregation { source, .. } => {
            let below = growth_within(source.get())?;
            within(below as u128 + 8)
        }
        Body::Join {
            kind,
            left,
            right,
            ..
        } => {
            let left = growth_within(left.get())?;
            let right = growth_within(right.get())?;
            within(joined_growth(*kind, left, right))
        }
        Body::Order { source, .. } => growth_within(source.get()),
        Body::TopN { source, .. } => growth_within(source.get()),
        Body::Limit { source, .. } => growth_within(source.get()),
        Body::Exchange { source, .. } => growth_within(source.get()),
    }
}

fn within(growth: u128) -> Option<u64>
    ensures is { result ≡ limits.kept_size growth }
    ensures within { IfSome result (λ n. n ≤ 2 ^ 62) }
{
    if growth <= 1 << 62 {
        Some(growth as u64)
    } else {
        None
    }
}

/// All pairs, and each row of both sides without a match.
fn joined_growth(kind: JoinKind, left: u64, right: u64) -> u128
    requires { left ≤ 2 ^ 62 × right ≤ 2 ^ 62 }
    ensures { result ≡ limits.growth_joined kind left right }
{
    let left = left as u128;
    let right = right as u128;
    match kind {
        JoinKind::Semi | JoinKind::Anti => left,
        _ => left * right + left + right,
    }
}
