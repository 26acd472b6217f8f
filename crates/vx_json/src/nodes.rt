//! Plan nodes from JSON values.
ghost use Rattle.std.specs.Prelude.{◌≡◌, IfOk};
ghost use Rattle.serde_json.specs.View.{view};
ghost use Rattle.vx_json.specs.Outcome.{Gives};
ghost use Rattle.vx_json.specs.Place.{path_of};
ghost use Rattle.vx_json.specs.Fields.{part};
ghost use Rattle.vx_json.specs.Nodes as spec;

use crate::error::PlanError;
use crate::fields::{has_only, small_at, text_in};
use crate::front::{Front, Opened, Work};
use crate::fronts::front_at;
use crate::way::{Way, field, misfit};
use crate::words::{NodeWord, node_named};
use serde_json::Value as Json;
use sqlite_items::Boxed;
use std::alloc::{AllocError, Global};
use vx_plan::{Body, Node};

/// A node with at most so many levels of nodes.
#[cycle(node)]
#[tactic(auto, using(crate::proofs::NodeLaws::levels))]
fn node_at(alloc: Global, levels: u32, way: &Way<'_>, value: &Json) -> Result<Node, PlanError>
    ensures { Gives result (spec.node_at levels (path_of way.now) (view value.now)) }
{
    if levels == 0 {
        return misfit(alloc, &*way);
    }
    let Opened { id, front } = opened_at(alloc, &*way, &*value)?;
    let body = body_at(alloc, levels - 1, front, &*way, &*value)?;
    Ok(Node { id, body })
}

/// The body of a node, with its sources.
#[cycle(node)]
pub(crate) fn body_at(
    alloc: Global,
    levels: u32,
    front: Front,
    way: &Way<'_>,
    value: &Json,
) -> Result<Body, PlanError>
    ensures { Gives result (spec.body_at (spec.node_at levels) front (path_of way.now) (view value.now)) }
{
    match front {
        Front::Values {
            kinds,
            rows,
            parallel,
        } => Ok(Body::Values {
            kinds,
            rows,
            parallel,
        }),
        Front::Over(work) => {
            let source = source_at(alloc, levels, &*way, "source", &*value)?;
            Ok(work_over(alloc, work, source)?)
        }
        Front::Join {
            kind,
            left_keys,
            right_keys,
        } => {
            let left = source_at(alloc, levels, &*way, "left", &*value)?;
            let right = source_at(alloc, levels, &*way, "right", &*value)?;
            Ok(Body::Join {
                kind,
                left_keys,
                right_keys,
                left: Boxed::new(alloc, left)?,
                right: Boxed::new(alloc, right)?,
            })
        }
    }
}

/// The node in a field.
#[cycle(node)]
fn source_at(
    alloc: Global,
    levels: u32,
    way: &Way<'_>,
    name: &str,
    value: &Json,
) -> Result<Node, PlanError>
    ensures { Gives result (part name.now (spec.node_at levels) (path_of way.now) (view value.now)) }
{
    node_at(
        alloc,
        levels,
        &Way::Field(&*way, &*name),
        field(&*value, &*name),
    )
}

pub(crate) fn work_over(alloc: Global, work: Work, source: Node) -> Result<Body, AllocError>
    ensures { IfOk result (λ body. body ≡ spec.work_over work source) }
{
    let source = Boxed::new(alloc, source)?;
    let body = match work {
        Work::Filter { predicate } => Body::Filter { predicate, source },
        Work::Project { exprs } => Body::Project { exprs, source },
        Work::Aggregation {
            step,
            keys,
            aggregates,
        } => Body::Aggregation {
            step,
            keys,
            aggregates,
            source,
        },
        Work::Order { keys } => Body::Order { keys, source },
        Work::TopN { count, keys } => Body::TopN {
            count,
            keys,
            source,
        },
        Work::Limit { offset, count } => Body::Limit {
            offset,
            count,
            source,
        },
        Work::Exchange { kind, keys } => Body::Exchange { kind, keys, source },
    };
    Ok(body)
}

/// A node's number and own part.
pub(crate) fn opened_at(alloc: Global, way: &Way<'_>, value: &Json) -> Result<Opened, PlanError>
    ensures { Gives result (spec.opened_at (path_of way.now) (view value.now)) }
{
    let word = node_form(alloc, way, value)?;
    let id = small_at(alloc, &Way::Field(way, "id"), field(value, "id"))?;
    let front = front_at(alloc, word, way, value)?;
    Ok(Opened { id, front })
}

/// The word of a node that has the word's fields.
pub(crate) fn node_form(alloc: Global, way: &Way<'_>, value: &Json) -> Result<NodeWord, PlanError>
    ensures { Gives result (spec.node_form (path_of way.now) (view value.now)) }
{
    let word = node_word(alloc, way, value)?;
    if has_fields(word, value) {
        Ok(word)
    } else {
        misfit(alloc, way)
    }
}

/// The word of a node, a string in an object.
fn node_word(alloc: Global, way: &Way<'_>, value: &Json) -> Result<NodeWord, PlanError>
    ensures { Gives result (spec.node_word (path_of way.now) (view value.now)) }
{
    match text_in("node", value) {
        Some(word) => node_named(alloc, &Way::Field(way, "node"), word),
        None => misfit(alloc, way),
    }
}

/// Whether it has all fields of a node of this word, and no others.
fn has_fields(word: NodeWord, value: &Json) -> bool
    ensures { result ≡ spec.has_fields word (view value.now) }
{
    match word {
        NodeWord::Values => has_only(&["node", "id", "kinds", "rows"], &["parallel"], value),
        NodeWord::Filter => has_only(&["node", "id", "predicate", "source"], &[], value),
        NodeWord::Project => has_only(&["node", "id", "exprs", "source"], &[], value),
        NodeWord::Aggregation => has_only(
            &["node", "id", "step", "keys", "aggregates", "source"],
            &[],
            value,
        ),
        NodeWord::Join => has_only(
            &[
                "node",
                "id",
                "kind",
                "left_keys",
                "right_keys",
                "left",
                "right",
            ],
            &[],
            value,
        ),
        NodeWord::Order => has_only(&["node", "id", "keys", "source"], &[], value),
        NodeWord::TopN => has_only(&["node", "id", "count", "keys", "source"], &[], value),
        NodeWord::Limit => has_only(&["node", "id", "offset", "count", "source"], &[], value),
        NodeWord::Exchange => has_only(&["node", "id", "kind", "keys", "source"], &[], value),
    }
}
