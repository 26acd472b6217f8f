//! The words of a plan file, each in its closed list.
ghost use Rattle.std.specs.Prelude.{◌≡◌, map};
ghost use Rattle.serde_json.specs.View.{view};
ghost use Rattle.vx_json.specs.Outcome.{Gives};
ghost use Rattle.vx_json.specs.Place.{path_of};
ghost use Rattle.vx_json.specs.Words as spec;

use crate::error::PlanError;
use crate::way::{Way, misfit, unknown};
use serde_json::Value as Json;
use std::alloc::Global;
use vx_expr::Func;
use vx_plan::{AggregateName, ExchangeKind, JoinKind, Step};
use vx_value::Kind;

/// What a node is named.
#[derive(Clone, Copy)]
pub(crate) enum NodeWord {
    Values,
    Filter,
    Project,
    Aggregation,
    Join,
    Order,
    TopN,
    Limit,
    Exchange,
}

/// What an expression begins with.
#[derive(Clone, Copy)]
pub(crate) enum Head {
    Col,
    Lit,
    Null,
    Call(Func),
}

const KINDS: [(&str, Kind); 3] = [
    ("bool", Kind::Bool),
    ("int", Kind::Int),
    ("text", Kind::Text),
];

const STEPS: [(&str, Step); 3] = [
    ("single", Step::Single),
    ("partial", Step::Partial),
    ("final", Step::Final),
];

const JOINS: [(&str, JoinKind); 6] = [
    ("inner", JoinKind::Inner),
    ("left", JoinKind::Left),
    ("right", JoinKind::Right),
    ("full", JoinKind::Full),
    ("semi", JoinKind::Semi),
    ("anti", JoinKind::Anti),
];

const EXCHANGES: [(&str, ExchangeKind); 2] = [
    ("gather", ExchangeKind::Gather),
    ("hash", ExchangeKind::Hash),
];

const AGGREGATES: [(&str, AggregateName); 6] = [
    ("count", AggregateName::Count),
    ("sum", AggregateName::Sum),
    ("min", AggregateName::Min),
    ("max", AggregateName::Max),
    ("bool_and", AggregateName::BoolAnd),
    ("bool_or", AggregateName::BoolOr),
];

const DIRECTIONS: [(&str, bool); 2] = [("asc", false), ("desc", true)];

const NULL_PLACES: [(&str, bool); 2] = [("first", true), ("last", false)];

const NODES: [(&str, NodeWord); 9] = [
    ("values", NodeWord::Values),
    ("filter", NodeWord::Filter),
    ("project", NodeWord::Project),
    ("aggregation", NodeWord::Aggregation),
    ("join", NodeWord::Join),
    ("order", NodeWord::Order),
    ("topn", NodeWord::TopN),
    ("limit", NodeWord::Limit),
    ("exchange", NodeWord::Exchange),
];

const HEADS: [(&str, Head); 25] = [
    ("col", Head::Col),
    ("lit", Head::Lit),
    ("null", Head::Null),
    ("plus", Head::Call(Func::Plus)),
    ("minus", Head::Call(Func::Minus)),
    ("multiply", Head::Call(Func::Multiply)),
    ("divide", Head::Call(Func::Divide)),
    ("modulus", Head::Call(Func::Modulus)),
    ("negate", Head::Call(Func::Negate)),
    ("eq", Head::Call(Func::Eq)),
    ("neq", Head::Call(Func::Neq)),
    ("lt", Head::Call(Func::Lt)),
    ("lte", Head::Call(Func::Lte)),
    ("gt", Head::Call(Func::Gt)),
    ("gte", Head::Call(Func::Gte)),
    ("not", Head::Call(Func::Not)),
    ("and", Head::Call(Func::And)),
    ("or", Head::Call(Func::Or)),
    ("is_null", Head::Call(Func::IsNull)),
    ("if", Head::Call(Func::If)),
    ("coalesce", Head::Call(Func::Coalesce)),
    ("try", Head::Call(Func::Try)),
    ("concat", Head::Call(Func::Concat)),
    ("byte_length", Head::Call(Func::ByteLength)),
    ("starts_with", Head::Call(Func::StartsWith)),
];

/// The kind of a column.
pub(crate) fn kind_at(alloc: Global, way: &Way<'_>, value: &Json) -> Result<Kind, PlanError>
    ensures { Gives result (spec.word_at spec.kinds (path_of way.now) (view value.now)) }
{
    word_at(alloc, &KINDS, way, value)
}

pub(crate) fn step_at(alloc: Global, way: &Way<'_>, value: &Json) -> Result<Step, PlanError>
    ensures { Gives result (spec.word_at spec.steps (path_of way.now) (view value.now)) }
{
    word_at(alloc, &STEPS, way, value)
}

pub(crate) fn join_kind_at(
    alloc: Global,
    way: &Way<'_>,
    value: &Json,
) -> Result<JoinKind, PlanError>
    ensures { Gives result (spec.word_at spec.joins (path_of way.now) (view value.now)) }
{
    word_at(alloc, &JOINS, way, value)
}

pub(crate) fn exchange_kind_at(
    alloc: Global,
    way: &Way<'_>,
    value: &Json,
) -> Result<ExchangeKind, PlanError>
    ensures { Gives result (spec.word_at spec.exchanges (path_of way.now) (view value.now)) }
{
    word_at(alloc, &EXCHANGES, way, value)
}

pub(crate) fn aggregate_name_at(
    alloc: Global,
    way: &Way<'_>,
    value: &Json,
) -> Result<AggregateName, PlanError>
    ensures { Gives result (spec.word_at spec.aggregates (path_of way.now) (view value.now)) }
{
    word_at(alloc, &AGGREGATES, way, value)
}

/// Whether an order descends.
pub(crate) fn descending_at(alloc: Global, way: &Way<'_>, value: &Json) -> Result<bool, PlanError>
    ensures { Gives result (spec.word_at spec.directions (path_of way.now) (view value.now)) }
{
    word_at(alloc, &DIRECTIONS, way, value)
}

/// Whether nulls stand first.
pub(crate) fn nulls_first_at(alloc: Global, way: &Way<'_>, value: &Json) -> Result<bool, PlanError>
    ensures { Gives result (spec.word_at spec.null_places (path_of way.now) (view value.now)) }
{
    word_at(alloc, &NULL_PLACES, way, value)
}

/// What an expression begins with.
pub(crate) fn head_at(alloc: Global, way: &Way<'_>, value: &Json) -> Result<Head, PlanError>
    ensures { Gives result (spec.word_at spec.heads (path_of way.now) (view value.now)) }
{
    word_at(alloc, &HEADS, way, value)
}

/// What a node is named.
pub(crate) fn node_named(alloc: Global, way: &Way<'_>, word: &str) -> Result<NodeWord, PlanError>
    ensures { Gives result (spec.or_unknown (path_of way.now) (spec.named spec.nodes word.now)) }
{
    known(alloc, &NODES, way, word)
}

/// What the word there names in a table.
fn word_at<T: Copy>(
    alloc: Global,
    table: &[(&str, T)],
    way: &Way<'_>,
    value: &Json,
) -> Result<T, PlanError>
    ensures { Gives result (spec.word_at (map (λ e. (e.0.now, e.1)) table.now) (path_of way.now) (view value.now)) }
{
    match value {
        Json::String(word) => known(alloc, table, way, word.as_str()),
        _ => misfit(alloc, way),
    }
}

/// What the word names in a table.
fn known<T: Copy>(
    alloc: Global,
    table: &[(&str, T)],
    way: &Way<'_>,
    word: &str,
) -> Result<T, PlanError>
    ensures { Gives result (spec.or_unknown (path_of way.now) (spec.named (map (λ e. (e.0.now, e.1)) table.now) word.now)) }
{
    match named(table, word) {
        Some(thing) => Ok(thing),
        None => unknown(alloc, way),
    }
}

fn named<T: Copy>(table: &[(&str, T)], word: &str) -> Option<T>
    ensures { result ≡ spec.named (map (λ e. (e.0.now, e.1)) table.now) word.now }
{
    for (name, thing) in table {
        if word == *name {
            return Some(*thing);
        }
    }
    None
}
