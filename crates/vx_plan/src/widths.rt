//! To how many drivers each node gives its rows.
ghost use Rattle.std.specs.Prelude.{◌≡◌};
ghost use Rattle.vx_plan.specs.Tree.{tree};
ghost use Rattle.vx_plan.specs.Widths as widths;

use crate::aggregate::Step;
use crate::lists::are_among;
use crate::node::{Body, ExchangeKind, Node};
use crate::refusal::Refusal;

/// To how many drivers a node gives its rows.
#[derive(Clone, Copy, Debug, PartialEq, Eq)]
pub enum Width {
    One,
    Many,
}

/// The width of a node, or the refusal of the first node at or below it whose width isn't lawful; sources come
/// before the node, left before right.
pub fn node_width(node: &Node) -> Result<Width, Refusal>
    ensures { result ≡ widths.width (tree node.now) }
{
    match &node.body {
        Body::Values { parallel, .. } => Ok(if *parallel { Width::Many } else { Width::One }),
        Body::Filter { source, .. } => node_width(source.get()),
        Body::Project { source, .. } => node_width(source.get()),
        Body::Aggregation {
            step,
            keys,
            source,
            ..
        } => {
            let below = node_width(source.get())?;
            grouped_width(node.id, *step, keys.as_slice(), source.get(), below)
        }
        Body::Join { left, right, .. } => {
            let below = node_width(left.get())?;
            node_width(right.get())?;
            from_one(node.id, below)
        }
        Body::Order { source, .. } => from_one(node.id, node_width(source.get())?),
        Body::TopN { source, .. } => from_one(node.id, node_width(source.get())?),
        Body::Limit { source, .. } => from_one(node.id, node_width(source.get())?),
        Body::Exchange { kind, source, .. } => {
            node_width(source.get())?;
            Ok(exchanged_width(*kind))
        }
    }
}

/// One where the source is one, else the refusal of this node.
pub fn from_one(id: u32, below: Width) -> Result<Width, Refusal>
    ensures { result ≡ widths.from_one id below }
{
    match below {
        Width::One => Ok(Width::One),
        Width::Many => Err(Refusal::P5 { node: id }),
    }
}

fn exchanged_width(kind: ExchangeKind) -> Width
    ensures { result ≡ widths.width_exchanged kind }
{
    match kind {
        ExchangeKind::Gather => Width::One,
        ExchangeKind::Hash => Width::Many,
    }
}

/// Equal keys meet in one driver where the source is one, or is dealt out by some of the keys.
fn grouped_width(
    id: u32,
    step: Step,
    keys: &[u32],
    source: &Node,
    below: Width,
) -> Result<Width, Refusal>
    ensures { result ≡ widths.width_aggregated id step keys.now (tree source.now) below }
{
    match step {
        Step::Partial => Ok(below),
        _ => match below {
            Width::One => Ok(Width::One),
            Width::Many => {
                if !keys.is_empty() && is_dealt_by(keys, source) {
                    Ok(Width::Many)
                } else {
                    Err(Refusal::P5 { node: id })
                }
            }
        },
    }
}

/// Whether a source is itself a hash exchange whose keys are all among these.
fn is_dealt_by(keys: &[u32], source: &Node) -> bool
    ensures { result ≡ widths.is_dealt_by keys.now (tree source.now) }
{
    match &source.body {
        Body::Values { .. } => false,
        Body::Filter { .. } => false,
        Body::Project { .. } => false,
        Body::Aggregation { .. } => false,
        Body::Join { .. } => false,
        Body::Order { .. } => false,
        Body::TopN { .. } => false,
        Body::Limit { .. } => false,
        Body::Exchange {
            kind,
            keys: dealt,
            ..
        } => match kind {
            ExchangeKind::Gather => false,
            ExchangeKind::Hash => are_among(dealt.as_slice(), keys),
        },
    }
}
