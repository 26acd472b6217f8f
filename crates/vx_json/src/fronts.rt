//! A node's own part, by its word, field by field.

ghost use Rattle.std.specs.Prelude.{◌≡◌};
ghost use Rattle.serde_json.specs.View.{view};
ghost use Rattle.vx_json.specs.Outcome.{Gives};
ghost use Rattle.vx_json.specs.Place.{path_of};
ghost use Rattle.vx_json.specs.Nodes as spec;

use crate::cells::{kinds_at, rows_at};
use crate::error::PlanError;
use crate::expressions::{expr_at, exprs_at};
use crate::fields::{bool_at, count_at, has};
use crate::front::{Front, Work};
use crate::lists::Count;
use crate::parts::{aggregates_in, columns_in, sort_keys_at};
use crate::way::{Way, field};
use crate::words::{NodeWord, exchange_kind_at, join_kind_at, step_at};
use serde_json::Value as Json;
use std::alloc::Global;
use vx_plan::ExchangeKind;

/// How many levels of JSON are read.
pub(crate) const MOST_LEVELS: u32 = 128;

/// A node without its number and its sources.
pub(crate) fn front_at(
    alloc: Global,
    word: NodeWord,
    way: &Way<'_>,
    value: &Json,
) -> Result<Front, PlanError>
    ensures { Gives result (spec.front_at word (path_of way.now) (view value.now)) }
{
    match word {
        NodeWord::Values => values_at(alloc, way, value),
        NodeWord::Filter => Ok(Front::Over(filter_at(alloc, way, value)?)),
        NodeWord::Project => Ok(Front::Over(project_at(alloc, way, value)?)),
        NodeWord::Aggregation => Ok(Front::Over(aggregation_at(alloc, way, value)?)),
        NodeWord::Join => join_at(alloc, way, value),
        NodeWord::Order => Ok(Front::Over(order_at(alloc, way, value)?)),
        NodeWord::TopN => Ok(Front::Over(topn_at(alloc, way, value)?)),
        NodeWord::Limit => Ok(Front::Over(limit_at(alloc, way, value)?)),
        NodeWord::Exchange => Ok(Front::Over(exchange_at(alloc, way, value)?)),
    }
}

fn values_at(alloc: Global, way: &Way<'_>, value: &Json) -> Result<Front, PlanError>
    ensures { Gives result (spec.values_at (path_of way.now) (view value.now)) }
{
    let kinds = kinds_at(alloc, &Way::Field(way, "kinds"), field(value, "kinds"))?;
    let place = Way::Field(way, "rows");
    let rows = rows_at(alloc, kinds.as_slice(), &place, field(value, "rows"))?;
    let parallel = parallel_at(alloc, way, value)?;
    Ok(Front::Values {
        kinds,
        rows,
        parallel,
    })
}

pub(crate) fn parallel_at(alloc: Global, way: &Way<'_>, value: &Json) -> Result<bool, PlanError>
    ensures { Gives result (spec.parallel_at (path_of way.now) (view value.now)) }
{
    if has("parallel", value) {
        let place = Way::Field(way, "parallel");
        bool_at(alloc, &place, field(value, "parallel"))
    } else {
        Ok(false)
    }
}

fn filter_at(alloc: Global, way: &Way<'_>, value: &Json) -> Result<Work, PlanError>
    ensures { Gives result (spec.filter_at (path_of way.now) (view value.now)) }
{
    let place = Way::Field(way, "predicate");
    let predicate = expr_at(alloc, MOST_LEVELS, &place, field(value, "predicate"))?;
    Ok(Work::Filter { predicate })
}

fn project_at(alloc: Global, way: &Way<'_>, value: &Json) -> Result<Work, PlanError>
    ensures { Gives result (spec.project_at (path_of way.now) (view value.now)) }
{
    let place = Way::Field(way, "exprs");
    let exprs = exprs_at(alloc, MOST_LEVELS, &place, field(value, "exprs"))?;
    Ok(Work::Project { exprs })
}

fn aggregation_at(alloc: Global, way: &Way<'_>, value: &Json) -> Result<Work, PlanError>
    ensures { Gives result (spec.aggregation_at (path_of way.now) (view value.now)) }
{
    let step = step_at(alloc, &Way::Field(way, "step"), field(value, "step"))?;
    let keys = columns_in(alloc, Count::Any, way, "keys", value)?;
    let aggregates = aggregates_in(alloc, way, "aggregates", value)?;
    Ok(Work::Aggregation {
        step,
        keys,
        aggregates,
    })
}

fn join_at(alloc: Global, way: &Way<'_>, value: &Json) -> Result<Front, PlanError>
    ensures { Gives result (spec.join_at (path_of way.now) (view value.now)) }
{
    let kind = join_kind_at(alloc, &Way::Field(way, "kind"), field(value, "kind"))?;
    let left_keys = columns_in(alloc, Count::NotEmpty, way, "left_keys", value)?;
    let right_keys = columns_in(alloc, Count::NotEmpty, way, "right_keys", value)?;
    Ok(Front::Join {
        kind,
        left_keys,
        right_keys,
    })
}

fn order_at(alloc: Global, way: &Way<'_>, value: &Json) -> Result<Work, PlanError>
    ensures { Gives result (spec.order_at (path_of way.now) (view value.now)) }
{
    let keys = sort_keys_at(alloc, &Way::Field(way, "keys"), field(value, "keys"))?;
    Ok(Work::Order { keys })
}

fn topn_at(alloc: Global, way: &Way<'_>, value: &Json) -> Result<Work, PlanError>
    ensures { Gives result (spec.topn_at (path_of way.now) (view value.now)) }
{
    let count = count_at(alloc, &Way::Field(way, "count"), field(value, "count"))?;
    let keys = sort_keys_at(alloc, &Way::Field(way, "keys"), field(value, "keys"))?;
    Ok(Work::TopN { count, keys })
}

fn limit_at(alloc: Global, way: &Way<'_>, value: &Json) -> Result<Work, PlanError>
    ensures { Gives result (spec.limit_at (path_of way.now) (view value.now)) }
{
    let offset = count_at(alloc, &Way::Field(way, "offset"), field(value, "offset"))?;
    let count = count_at(alloc, &Way::Field(way, "count"), field(value, "count"))?;
    Ok(Work::Limit { offset, count })
}

fn exchange_at(alloc: Global, way: &Way<'_>, value: &Json) -> Result<Work, PlanError>
    ensures { Gives result (spec.exchange_at (path_of way.now) (view value.now)) }
{
    let kind = exchange_kind_at(alloc, &Way::Field(way, "kind"), field(value, "kind"))?;
    let keys = columns_in(alloc, exchange_keys(kind), way, "keys", value)?;
    Ok(Work::Exchange { kind, keys })
}

/// A gather has no keys, a hash at least one.
fn exchange_keys(kind: ExchangeKind) -> Count
    ensures { result ≡ spec.exchange_keys kind }
{
    match kind {
        ExchangeKind::Gather => Count::Exactly(0),
        ExchangeKind::Hash => Count::NotEmpty,
    }
}
