//! The value of an expression on a row, one row at a time.
ghost use Rattle.std.specs.Prelude.{◌≡◌, ◌∷◌, [], map, slice_get, unwrap_or, IfOk};
ghost use Rattle.vx_expr.specs.Eval as eval;

use crate::expression::{Expr, Func};
use crate::functions::{null, result_of_one, result_of_two, truth};
use crate::outcome::Got;
use std::alloc::{AllocError, Global};
use vx_value::{Row, Value};

/// What an expression gives on a row, one row at a time. Each text on the way is a copy.
#[cycle(evaluation)]
pub fn eval_row(alloc: Global, e: &Expr, row: &Row) -> Result<Got, AllocError>
    ensures { IfOk result (λ got. got ≡ eval.eval e.now row.now) }
{
    match e {
        Expr::Column(at) => column(alloc, row, *at),
        Expr::Literal(value, _) => literal(alloc, value),
        Expr::Call { func, args } => eval_call(alloc, *func, args.as_slice(), row),
    }
}

/// Evaluates the arguments from left to right; of a choice the condition, and then only the branch it takes.
#[cycle(evaluation)]
fn eval_call(alloc: Global, func: Func, args: &[Expr], row: &Row) -> Result<Got, AllocError>
    ensures { IfOk result (λ got. got ≡ eval.apply func (map (λ a. eval.eval a row.now) args.now)) }
{
    match args {
        [] => Ok(null()),
        [a] => {
            let a = eval_row(alloc, a, row)?;
            Ok(apply_to_one(func, a))
        }
        [a, b] => {
            let a = eval_row(alloc, a, row)?;
            let b = eval_row(alloc, b, row)?;
            apply_to_two(alloc, func, a, b)
        }
        [condition, a, b] => {
            match func {
                Func::If => {}
                _ => return Ok(null()),
            }
            match eval_row(alloc, condition, row)? {
                Got::Fault(fault) => Ok(Got::Fault(fault)),
                Got::Value(Value::Bool(true)) => eval_row(alloc, a, row),
                Got::Value(_) => eval_row(alloc, b, row),
            }
        }
        _ => Ok(null()),
    }
}

fn column(alloc: Global, row: &Row, at: u32) -> Result<Got, AllocError>
    ensures { IfOk result (λ got. got ≡ Got.Value (unwrap_or (slice_get row.now at) Value.Null)) }
{
    match row.cells().get(at as usize) {
        Some(value) => literal(alloc, value),
        None => Ok(null()),
    }
}

fn literal(alloc: Global, value: &Value) -> Result<Got, AllocError>
    ensures { IfOk result (λ got. got ≡ Got.Value value.now) }
{
    Ok(Got::Value(value.copy(alloc)?))
}

fn apply_to_one(func: Func, a: Got) -> Got
    ensures { result ≡ eval.apply func (a ∷ []) }
{
    match a {
        Got::Fault(fault) => match func {
            Func::Try => null(),
            _ => Got::Fault(fault),
        },
        Got::Value(v) => match func {
            Func::Try => Got::Value(v),
            _ => result_of_one(func, &v),
        },
    }
}

fn apply_to_two(alloc: Global, func: Func, a: Got, b: Got) -> Result<Got, AllocError>
    ensures { IfOk result (λ got. got ≡ eval.apply func (a ∷ b ∷ [])) }
{
    match func {
        Func::And => Ok(conjunction(a, b)),
        Func::Or => Ok(disjunction(a, b)),
        Func::Coalesce => Ok(first_given(a, b)),
        _ => binary(alloc, func, a, b),
    }
}

/// The leftmost fault, else the function's own result.
fn binary(alloc: Global, func: Func, a: Got, b: Got) -> Result<Got, AllocError>
    ensures { IfOk result (λ got. got ≡ eval.binary (eval.result_of_two func) a b) }
{
    match a {
        Got::Fault(fault) => Ok(Got::Fault(fault)),
        Got::Value(v) => match b {
            Got::Fault(fault) => Ok(Got::Fault(fault)),
            Got::Value(w) => result_of_two(alloc, func, &v, &w),
        },
    }
}

fn is_truth(wanted: bool, a: &Got) -> bool
    ensures { result ≡ eval.is_truth wanted a.now }
{
    match a {
        Got::Value(Value::Bool(b)) => if wanted { *b } else { !*b },
        _ => false,
    }
}

fn conjunction(a: Got, b: Got) -> Got
    ensures { result ≡ eval.conjunction a b }
{
    if is_truth(false, &a) || is_truth(false, &b) {
        return truth(false);
    }
    if is_truth(true, &a) && is_truth(true, &b) {
        return truth(true);
    }
    undecided(a, b)
}

fn disjunction(a: Got, b: Got) -> Got
    ensures { result ≡ eval.disjunction a b }
{
    if is_truth(true, &a) || is_truth(true, &b) {
        return truth(true);
    }
    if is_truth(false, &a) && is_truth(false, &b) {
        return truth(false);
    }
    undecided(a, b)
}

/// The leftmost fault, or null.
fn undecided(a: Got, b: Got) -> Got
    ensures { result ≡ eval.binary (λ _ _. eval.null) a b }
{
    match a {
        Got::Fault(fault) => Got::Fault(fault),
        Got::Value(_) => match b {
            Got::Fault(fault) => Got::Fault(fault),
            Got::Value(_) => null(),
        },
    }
}

fn first_given(a: Got, b: Got) -> Got
    ensures { result ≡ eval.first_given a b }
{
    match a {
        Got::Value(Value::Null) => b,
        _ => a,
    }
}
