//! Whole numbers of 64 bits, with overflow as a fault.
ghost use Rattle.std.specs.Prelude.{◌≡◌, MatchOption};
ghost use Rattle.vx_expr.specs.Eval as eval;

use crate::outcome::{Fault, Got};
use vx_value::Value;

/// A number, or an overflow where there is none of 64 bits.
fn int_of(z: Option<i64>) -> Got
    ensures { MatchOption z (result ≡ Got.Fault Fault.Overflow) (λ n. result ≡ Got.Value (Value.Int n)) }
{
    match z {
        Some(n) => Got::Value(Value::Int(n)),
        None => Got::Fault(Fault::Overflow),
    }
}

pub fn sum(x: i64, y: i64) -> Got
    ensures { result ≡ eval.sum x y }
{
    int_of(x.checked_add(y))
}

pub fn difference(x: i64, y: i64) -> Got
    ensures { result ≡ eval.difference x y }
{
    int_of(x.checked_sub(y))
}

pub fn product(x: i64, y: i64) -> Got
    ensures { result ≡ eval.product x y }
{
    int_of(x.checked_mul(y))
}

pub fn quotient(x: i64, y: i64) -> Got
    ensures { result ≡ eval.quotient x y }
{
    if y == 0 {
        return Got::Fault(Fault::DivideByZero);
    }
    int_of(x.checked_div(y))
}

pub fn remainder(x: i64, y: i64) -> Got
    ensures { result ≡ eval.remainder x y }
{
    if y == 0 {
        return Got::Fault(Fault::DivideByZero);
    }
    Got::Value(Value::Int(x.wrapping_rem(y)))
}

pub fn negation(x: i64) -> Got
    ensures { result ≡ eval.negation (Value.Int x) }
{
    int_of(x.checked_neg())
}
