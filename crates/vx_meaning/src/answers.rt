//! The slow evaluator: one node after another.
ghost use Rattle.std.specs.Prelude.{◌≡◌, ◌+◌, sum_by, IfOk, IfErr};
ghost use Rattle.vx_plan.specs.Tree as plans;
ghost use Rattle.vx_plan.specs.Limits as limits;
ghost use Rattle.vx_meaning.specs.Answer.{Answers};
ghost use Rattle.vx_meaning.specs.Faulty.{Faulty, IsFirstFault};
ghost use Rattle.vx_meaning.specs.Stopped.{IfFault, IfAnswerRows, IfAnswerFault};

use crate::grouping::{Grouping, over_aggregation};
use crate::joining::joined;
use crate::outcome::{SlowAnswer, Stop};
use crate::rowwise::{moved, over_filter, over_limit, over_project};
use crate::sorting::{over_order, over_top};
use sqlite_items::Items;
use std::alloc::{AllocError, Global};
use vx_plan::{Aggregate, AggregateName, Body, JoinKind, Node, Plan, Step};
use vx_value::Row;

/// Answers a plan, one node after another, each over the whole answer of its source. Of several faults it gives
/// the first in post-order, left source before right, and of a node's faults the one that comes first in the order
/// of its source's rows, or of the keys.
pub fn slow_answer(alloc: Global, plan: &Plan) -> Result<SlowAnswer, AllocError>
    ensures rows { IfOk result (IfAnswerRows (Answers (plans.tree plan.now.root))) }
    ensures fault { IfOk result (IfAnswerFault (Faulty (plans.tree plan.now.root))) }

    // All nodes before this one have given an answer.
    ensures first { IfOk result (IfAnswerFault (IsFirstFault (plans.tree plan.now.root))) }
{
    slow_answer_of(alloc, plan.copy(alloc)?)
}

/// The same of a plan that nobody needs any more: its rows are moved into the answer, not copied.
pub fn slow_answer_of(alloc: Global, plan: Plan) -> Result<SlowAnswer, AllocError>
    ensures rows { IfOk result (IfAnswerRows (Answers (plans.tree plan.root))) }
    ensures fault { IfOk result (IfAnswerFault (Faulty (plans.tree plan.root))) }

    // All nodes before this one have given an answer.
    ensures first { IfOk result (IfAnswerFault (IsFirstFault (plans.tree plan.root))) }
{
    let Plan { root } = plan;
    match answer_items(alloc, root) {
        Ok(rows) => Ok(SlowAnswer::Rows(rows)),
        Err(Stop::Fault { node, row, code }) => Ok(SlowAnswer::Fault { node, row, code }),
        Err(Stop::NoMemory) => Err(AllocError),
    }
}

/// The answer of a plan's root. The rows of a values node stay where they are.
fn answer_items(alloc: Global, node: Node) -> Result<Items<Row>, Stop>
    ensures rows { IfOk result (λ rows. Answers (plans.tree node) rows) }
    ensures stop { IfErr result (IfFault (IsFirstFault (plans.tree node))) }
{
    let Node { id, body } = node;
    match body {
        Body::Values { rows, .. } => Ok(rows),
        body => Ok(Items::from_vec(answer(alloc, Node { id, body })?)),
    }
}

fn answer(alloc: Global, node: Node) -> Result<Vec<Row>, Stop>
    ensures rows { IfOk result (λ rows. Answers (plans.tree node) rows.items) }
    ensures stop { IfErr result (IfFault (IsFirstFault (plans.tree node))) }
{
    let Node { id, body } = node;
    match body {
        Body::Values { rows, .. } => Ok(moved(alloc, rows)?),
        Body::Filter { predicate, source } => {
            over_filter(alloc, id, &predicate, answer(alloc, source.into_inner())?)
        }
        Body::Project { exprs, source } => {
            let below = answer(alloc, source.into_inner())?;
            over_project(alloc, id, exprs.as_slice(), below)
        }
        Body::Aggregation {
            step,
            keys,
            aggregates,
            source,
        } => {
            let of = Grouping {
                id,
                step,
                keys: keys.as_slice(),
                aggregates: aggregates.as_slice(),
            };
            over_aggregation(alloc, &of, answer(alloc, source.into_inner())?)
        }
        Body::Join {
            kind,
            left_keys,
            right_keys,
            left,
            right,
        } => {
            let widths = (columns(left.get())?, columns(right.get())?);
            let probe = answer(alloc, left.into_inner())?;
            let build = answer(alloc, right.into_inner())?;
            let rows = (probe.as_slice(), build.as_slice());
            let (left_keys, right_keys) = (left_keys.as_slice(), right_keys.as_slice());
            Ok(joined(alloc, kind, left_keys, right_keys, widths, rows)?)
        }
        Body::Order { keys, source } => {
            Ok(over_order(keys.as_slice(), answer(alloc, source.into_inner())?)?)
        }
        Body::TopN {
            count,
            keys,
            source,
        } => Ok(over_top(count, keys.as_slice(), answer(alloc, source.into_inner())?)?),
        Body::Limit {
            offset,
            count,
            source,
        } => Ok(over_limit(offset, count, answer(alloc, source.into_inner())?)?),
        Body::Exchange { source, .. } => answer(alloc, source.into_inner()),
    }
}

/// How many columns a node's rows have. No machine holds a plan with more than 2^64 of them.
fn columns(node: &Node) -> Result<usize, AllocError>
    ensures { IfOk result (λ count. count ≡ limits.columns (plans.tree node.now)) }
{
    match &node.body {
        Body::Values { kinds, .. } => Ok(kinds.len()),
        Body::Filter { source, .. } => columns(source.get()),
        Body::Project { exprs, .. } => Ok(exprs.len()),
        Body::Aggregation {
            step,
            keys,
            aggregates,
            ..
        } => {
            added(
                keys.len(),
                aggregates_columns(*step, aggregates.as_slice())?,
            )
        }
        Body::Join {
            kind,
            left,
            right,
            ..
        } => {
            let on_left = columns(left.get())?;
            match kind {
                JoinKind::Semi => Ok(on_left),
                JoinKind::Anti => Ok(on_left),
                _ => added(on_left, columns(right.get())?),
            }
        }
        Body::Order { source, .. } => columns(source.get()),
        Body::TopN { source, .. } => columns(source.get()),
        Body::Limit { source, .. } => columns(source.get()),
        Body::Exchange { source, .. } => columns(source.get()),
    }
}

fn aggregates_columns(step: Step, aggregates: &[Aggregate]) -> Result<usize, AllocError>
    ensures { IfOk result (λ count. count ≡ sum_by (λ a. limits.result_columns step a.name) aggregates.now) }
{
    let mut count = 0;
    for aggregate in aggregates {
        count = added(count, aggregate_columns(step, aggregate.name))?;
    }
    Ok(count)
}

fn aggregate_columns(step: Step, name: AggregateName) -> usize
    ensures { result ≡ limits.result_columns step name }
{
    match step {
        Step::Partial => match name {
            AggregateName::Sum => 2,
            _ => 1,
        },
        _ => 1,
    }
}

fn added(a: usize, b: usize) -> Result<usize, AllocError>
    ensures { IfOk result (λ sum. sum ≡ a + b) }
{
    a.checked_add(b).ok_or(AllocError)
}
