//! The kinds that an aggregation gives.
ghost use Rattle.std.specs.Prelude.{◌≡◌, ◌≤◌, ◌+◌, ◌∷◌, [], length, slice_get, None, IfOk};
ghost use Rattle.vx_expr.specs.Typing as typing;
ghost use Rattle.vx_plan.specs.Limits.{result_columns, columns_grouped};
ghost use Rattle.vx_plan.specs.Outcome.{on_ok};
ghost use Rattle.vx_plan.specs.Types as types;

use crate::aggregate::{Aggregate, AggregateName, Step};
use crate::kinds::Kinds;
use vx_expr::TypeError;
use vx_value::Kind;

/// The kind of a column.
pub fn kind_at(kinds: &[Kind], place: usize) -> Result<Kind, TypeError>
    ensures { result ≡ typing.kind_at (slice_get kinds.now place) }
{
    match kinds.get(place) {
        Some(kind) => Ok(*kind),
        None => Err(TypeError::T1),
    }
}

/// The kinds that an aggregation gives: those of its keys, then those of its results.
pub fn grouped_kinds(
    step: Step,
    keys: &[u32],
    aggregates: &[Aggregate],
    kinds: &[Kind],
) -> Result<Kinds, TypeError>
    requires { columns_grouped step (length keys.now) aggregates.now ≤ 64 }
    ensures is { result ≡ types.kinds_grouped step keys.now aggregates.now kinds.now }
    ensures columns { IfOk result (λ out. length out ≡ columns_grouped step (length keys.now) aggregates.now) }
{
    let mut out = key_kinds(keys, kinds)?;
    for aggregate in aggregates {
        let more = aggregate_kinds(step, *aggregate, kinds)?;
        out.append(more.as_slice());
    }
    Ok(out)
}

fn key_kinds(keys: &[u32], kinds: &[Kind]) -> Result<Kinds, TypeError>
    requires { length keys.now ≤ 64 }
    ensures is { result ≡ types.kinds_at kinds.now keys.now }
    ensures columns { IfOk result (λ out. length out ≡ length keys.now) }
{
    let mut out = Kinds::new();
    for key in keys {
        out.push(kind_at(kinds, *key as usize)?);
    }
    Ok(out)
}

/// The kinds that an aggregate gives: a wrong number of arguments is asked first, then that the columns are
/// there, then their kinds.
fn aggregate_kinds(step: Step, aggregate: Aggregate, kinds: &[Kind]) -> Result<Kinds, TypeError>
    ensures is { result ≡ types.aggregate_kinds step kinds.now aggregate }
    ensures columns { IfOk result (λ out. length out ≡ result_columns step aggregate.name) }
{
    match aggregate.column {
        None => kinds_without_column(step, aggregate.name, kinds),
        Some(column) => match step {
            Step::Single => kinds_of_one_column(step, aggregate.name, column, kinds),
            Step::Partial => kinds_of_one_column(step, aggregate.name, column, kinds),
            Step::Final => match aggregate.name {
                AggregateName::Sum => kinds_of_final_sum(column, kinds),
                _ => kinds_of_one_column(step, aggregate.name, column, kinds),
            },
        },
    }
}

/// Only a count may have no column, and no final count, which adds up what its column has.
fn kinds_without_column(step: Step, name: AggregateName, kinds: &[Kind]) -> Result<Kinds, TypeError>
    ensures is { result ≡ on_ok (types.reads step name None) (types.aggregate_from step name kinds.now) }
    ensures columns { IfOk result (λ out. length out ≡ result_columns step name) }
{
    match step {
        Step::Final => Err(TypeError::T4),
        _ => match name {
            AggregateName::Count => Ok(one_kind(Kind::Int)),
            _ => Err(TypeError::T4),
        },
    }
}

fn kinds_of_one_column(
    step: Step,
    name: AggregateName,
    column: u32,
    kinds: &[Kind],
) -> Result<Kinds, TypeError>
    ensures is { result ≡ types.aggregate_from step name kinds.now (column ∷ []) }
    ensures columns { IfOk result (λ out. length out ≡ result_columns step name) }
{
    let kind = kind_at(kinds, column as usize)?;
    if !is_wanted(step, name, kind) {
        return Err(TypeError::T2);
    }
    Ok(given_kinds(step, name, kind))
}

/// A final sum reads the high and the low of a partial one, from two columns.
fn kinds_of_final_sum(column: u32, kinds: &[Kind]) -> Result<Kinds, TypeError>
    ensures is { result ≡ types.aggregate_from Step.Final AggregateName.Sum kinds.now (column ∷ (column + 1) ∷ []) }
    ensures columns { IfOk result (λ out. length out ≡ 1) }
{
    let high = kind_at(kinds, column as usize)?;
    let low = kind_at(kinds, column as usize + 1)?;
    if is_same(high, Kind::Int) && is_same(low, Kind::Int) {
        Ok(one_kind(Kind::Int))
    } else {
        Err(TypeError::T2)
    }
}

pub fn is_same(a: Kind, b: Kind) -> bool
    ensures { result ≡ typing.is_same a b }
{
    a == b
}

fn is_wanted(step: Step, name: AggregateName, kind: Kind) -> bool
    ensures { result ≡ types.is_wanted (types.wants step name) kind }
{
    match name {
        AggregateName::Count => match step {
            Step::Final => is_same(kind, Kind::Int),
            _ => true,
        },
        AggregateName::Sum => is_same(kind, Kind::Int),
        AggregateName::Min => true,
        AggregateName::Max => true,
        AggregateName::BoolAnd => is_same(kind, Kind::Bool),
        AggregateName::BoolOr => is_same(kind, Kind::Bool),
    }
}

/// What an aggregate gives for a column of this kind.
fn given_kinds(step: Step, name: AggregateName, kind: Kind) -> Kinds
    ensures is { result ≡ types.gives step name (kind ∷ []) }
    ensures columns { length result ≡ result_columns step name }
{
    match name {
        AggregateName::Count => one_kind(Kind::Int),
        AggregateName::Sum => match step {
            Step::Partial => two_kinds(Kind::Int, Kind::Int),
            _ => one_kind(Kind::Int),
        },
        AggregateName::Min => one_kind(kind),
        AggregateName::Max => one_kind(kind),
        AggregateName::BoolAnd => one_kind(Kind::Bool),
        AggregateName::BoolOr => one_kind(Kind::Bool),
    }
}

fn one_kind(kind: Kind) -> Kinds
    ensures { result ≡ kind ∷ [] }
{
    let mut kinds = Kinds::new();
    kinds.push(kind);
    kinds
}

fn two_kinds(first: Kind, second: Kind) -> Kinds
    ensures { result ≡ first ∷ second ∷ [] }
{
    let mut kinds = one_kind(first);
    kinds.push(second);
    kinds
}
