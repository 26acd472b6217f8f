//! What each strict function gives of values.
ghost use Rattle.std.specs.Prelude.{◌≡◌, IfOk};
ghost use Rattle.vx_expr.specs.Eval as eval;

use crate::arithmetic::{difference, negation, product, quotient, remainder, sum};
use crate::expression::Func;
use crate::outcome::{Fault, Got};
use std::alloc::{AllocError, Global};
use std::cmp::Ordering;
use vx_value::{Txt, Value, ValueRef, cmp_values};

pub fn null() -> Got
    ensures { result ≡ eval.null }
{
    Got::Value(Value::Null)
}

pub fn truth(b: bool) -> Got
    ensures { result ≡ eval.truth b }
{
    Got::Value(Value::Bool(b))
}

/// The result of a strict function of one argument.
pub fn result_of_one(func: Func, v: &Value) -> Got
    ensures { result ≡ eval.result_of_one func v.now }
{
    match func {
        Func::Negate => match v {
            Value::Int(x) => negation(*x),
            _ => null(),
        },
        Func::Not => match v {
            Value::Bool(b) => truth(!*b),
            _ => null(),
        },
        Func::IsNull => match v {
            Value::Null => truth(true),
            _ => truth(false),
        },
        Func::ByteLength => match v {
            Value::Text(a) => Got::Value(Value::Int(a.as_bytes().len() as i64)),
            _ => null(),
        },
        _ => null(),
    }
}

/// The result of a strict function of two arguments.
pub fn result_of_two(alloc: Global, func: Func, v: &Value, w: &Value) -> Result<Got, AllocError>
    ensures { IfOk result (λ got. got ≡ eval.result_of_two func v.now w.now) }
{
    match v {
        Value::Null => Ok(null()),
        Value::Bool(a) => match w {
            Value::Bool(b) => Ok(of_truths(func, *a, *b)),
            _ => Ok(null()),
        },
        Value::Int(x) => match w {
            Value::Int(y) => Ok(of_ints(func, *x, *y)),
            _ => Ok(null()),
        },
        Value::Text(a) => match w {
            Value::Text(b) => of_texts(alloc, func, a, b),
            _ => Ok(null()),
        },
    }
}

fn of_truths(func: Func, a: bool, b: bool) -> Got
    ensures { result ≡ eval.result_of_two func (Value.Bool a) (Value.Bool b) }
{
    order_test(func, cmp_values(ValueRef::Bool(a), ValueRef::Bool(b)))
}

fn of_ints(func: Func, x: i64, y: i64) -> Got
    ensures { result ≡ eval.result_of_two func (Value.Int x) (Value.Int y) }
{
    match func {
        Func::Plus => sum(x, y),
        Func::Minus => difference(x, y),
        Func::Multiply => product(x, y),
        Func::Divide => quotient(x, y),
        Func::Modulus => remainder(x, y),
        _ => order_test(func, cmp_values(ValueRef::Int(x), ValueRef::Int(y))),
    }
}

fn of_texts(alloc: Global, func: Func, a: &Txt, b: &Txt) -> Result<Got, AllocError>
    ensures { IfOk result (λ got. got ≡ eval.result_of_two func (Value.Text a.now) (Value.Text b.now)) }
{
    match func {
        Func::Concat => concatenation(alloc, a, b),
        Func::StartsWith => Ok(prefix_test(a, b)),
        _ => {
            let order = cmp_values(ValueRef::Text(a.as_bytes()), ValueRef::Text(b.as_bytes()));
            Ok(order_test(func, order))
        }
    }
}

fn concatenation(alloc: Global, a: &Txt, b: &Txt) -> Result<Got, AllocError>
    ensures { IfOk result (λ got. got ≡ eval.concatenation a.now b.now) }
{
    if a.as_bytes().len() + b.as_bytes().len() > 65535 {
        return Ok(Got::Fault(Fault::TooLong));
    }
    let mut all = String::from_str(alloc, a.as_str())?;
    all.push_str(b.as_str())?;
    let text = Txt::of(alloc, all.as_str().as_bytes())?;
    Ok(Got::Value(Value::Text(text)))
}

fn prefix_test(a: &Txt, b: &Txt) -> Got
    ensures { result ≡ eval.prefix_test a.now b.now }
{
    truth(a.as_bytes().starts_with(b.as_bytes()))
}

/// What a comparison says of an order.
fn order_test(func: Func, order: Ordering) -> Got
    ensures { result ≡ eval.order_test func order }
{
    match func {
        Func::Eq => truth(order.is_eq()),
        Func::Neq => truth(order.is_ne()),
        Func::Lt => truth(order.is_lt()),
        Func::Lte => truth(order.is_le()),
        Func::Gt => truth(order.is_gt()),
        Func::Gte => truth(order.is_ge()),
        _ => null(),
    }
}
