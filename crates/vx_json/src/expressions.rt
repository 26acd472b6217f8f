//! Expressions from JSON values.
ghost use Rattle.std.specs.Prelude.{◌≤◌, drop, length, map};
ghost use Rattle.serde_json.specs.View.{view};
ghost use Rattle.vx_json.specs.Outcome.{Gives};
ghost use Rattle.vx_json.specs.Place.{path_of};
ghost use Rattle.vx_json.specs.Lists.{or_misfit, each_from};
ghost use Rattle.vx_json.specs.Expressions as spec;

use crate::cells::kept;
use crate::error::PlanError;
use crate::fields::small_at;
use crate::lists::{Count, Reads, item, items_at, list_at};
use crate::way::{Way, misfit};
use crate::words::{Head, head_at, kind_at};
use serde_json::Value as Json;
use sqlite_items::Items;
use std::alloc::Global;
use vx_expr::Expr;
use vx_value::{Kind, Value};

/// A list of expressions that isn't empty.
pub(crate) fn exprs_at(
    alloc: Global,
    levels: u32,
    way: &Way<'_>,
    value: &Json,
) -> Result<Items<Expr>, PlanError>
    ensures { Gives result (spec.exprs_at levels (path_of way.now) (view value.now)) }
{
    list_at(alloc, Count::NotEmpty, &Exprs { levels }, way, value)
}

#[derive(Clone, Copy)]
struct Exprs {
    levels: u32,
}

impl Reads for Exprs {
    ghost use Rattle.vx_json.specs.Expressions.{expr_at};

    type Item = Expr;

    ghost reads = { λ exprs _. expr_at exprs.levels };

    fn read(
        &self,
        alloc: Global,
        _i: usize,
        way: &Way<'_>,
        value: &Json,
    ) -> Result<Expr, PlanError> {
        expr_at(alloc, self.levels, way, value)
    }
}

/// An expression of at most so many levels.
#[cycle(expression)]
#[tactic(auto, using(crate::proofs::ExpressionLaws::levels))]
pub(crate) fn expr_at(
    alloc: Global,
    levels: u32,
    way: &Way<'_>,
    value: &Json,
) -> Result<Expr, PlanError>
    ensures { Gives result (spec.expr_at levels (path_of way.now) (view value.now)) }
{
    if levels == 0 {
        return misfit(alloc, &*way);
    }
    let values = items_at(alloc, Count::NotEmpty, &*way, &*value)?;
    let head = head_of(alloc, &*way, values)?;
    headed(alloc, levels - 1, &*way, values, head)
}

/// What a list that begins with this word is.
#[cycle(expression)]
#[tactic(auto, using(crate::proofs::ExpressionLaws::arguments))]
fn headed(
    alloc: Global,
    levels: u32,
    way: &Way<'_>,
    values: &[Json],
    head: Head,
) -> Result<Expr, PlanError>
    ensures { Gives result (spec.headed (spec.expr_at levels) (path_of way.now) (map view values.now) head) }
{
    match head {
        Head::Col => column_of(alloc, &*way, &*values),
        Head::Lit => lit_of(alloc, &*way, &*values),
        Head::Null => null_of(alloc, &*way, &*values),
        Head::Call(func) => {
            let args = args_of(alloc, levels, &*way, &*values)?;
            Ok(Expr::Call { func, args })
        }
    }
}

/// The arguments after the word.
#[cycle(expression)]
#[tactic(auto, using(crate::proofs::ListLaws::loops))]
fn args_of(
    alloc: Global,
    levels: u32,
    way: &Way<'_>,
    values: &[Json],
) -> Result<Items<Expr>, PlanError>
    ensures { Gives result (each_from (λ _ path value. spec.expr_at levels path (view value)) (path_of way.now) 1 (drop 1 values.now)) }
{
    let mut args = Items::new(alloc);
    for i in 1..values.len() {
        args.push(expr_at(alloc, levels, &Way::Item(&*way, i), &values[i])?)?;
    }
    Ok(args)
}

/// The word that a list begins with.
fn head_of(alloc: Global, way: &Way<'_>, values: &[Json]) -> Result<Head, PlanError>
    requires { 1 ≤ length values.now }
    ensures { Gives result (spec.head_of (path_of way.now) (map view values.now)) }
{
    head_at(alloc, &Way::Item(way, 0), item(values, 0))
}

/// `["col", n]`
fn column_of(alloc: Global, way: &Way<'_>, values: &[Json]) -> Result<Expr, PlanError>
    ensures { Gives result (spec.column_of (path_of way.now) (map view values.now)) }
{
    if values.len() != 2 {
        return misfit(alloc, way);
    }
    let column = small_at(alloc, &Way::Item(way, 1), item(values, 1))?;
    Ok(Expr::Column(column))
}

/// `["lit", v]`
fn lit_of(alloc: Global, way: &Way<'_>, values: &[Json]) -> Result<Expr, PlanError>
    ensures { Gives result (spec.lit_of (path_of way.now) (map view values.now)) }
{
    if values.len() != 2 {
        return misfit(alloc, way);
    }
    literal_at(alloc, &Way::Item(way, 1), item(values, 1))
}

/// A literal: true, false, a whole number, or a string.
fn literal_at(alloc: Global, way: &Way<'_>, value: &Json) -> Result<Expr, PlanError>
    ensures { Gives result (or_misfit (path_of way.now) (spec.literal_of (view value.now))) }
{
    match value {
        Json::Null => misfit(alloc, way),
        Json::Bool(truth) => Ok(Expr::Literal(Value::Bool(*truth), Kind::Bool)),
        Json::Number(number) => match number.as_i64() {
            Some(int) => Ok(Expr::Literal(Value::Int(int), Kind::Int)),
            None => misfit(alloc, way),
        },
        Json::String(text) => {
            let text = kept(alloc, text.as_str())?;
            Ok(Expr::Literal(Value::Text(text), Kind::Text))
        }
        Json::Array(_) => misfit(alloc, way),
        Json::Object(_) => misfit(alloc, way),
    }
}

/// `["null", kind]`
fn null_of(alloc: Global, way: &Way<'_>, values: &[Json]) -> Result<Expr, PlanError>
    ensures { Gives result (spec.null_of (path_of way.now) (map view values.now)) }
{
    if values.len() != 2 {
        return misfit(alloc, way);
    }
    let kind = kind_at(alloc, &Way::Item(way, 1), item(values, 1))?;
    Ok(Expr::Literal(Value::Null, kind))
}
