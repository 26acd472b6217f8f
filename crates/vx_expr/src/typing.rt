//! The kind of an expression.
ghost use Rattle.std.specs.Prelude.{◌≡◌, map, slice_get};
ghost use Rattle.vx_expr.specs.Typing as typing;

use crate::expression::{Expr, Func};
use crate::outcome::TypeError;
use vx_value::Kind;

/// The kind of an expression over columns of these kinds, or the first reason why it has none: a wrong
/// number of arguments, then what the arguments say from left to right, then a wrong kind, then two kinds
/// that differ.
#[cycle(typing)]
pub fn type_of(e: &Expr, kinds: &[Kind]) -> Result<Kind, TypeError>
    ensures { result ≡ typing.type_of e.now kinds.now }
{
    match e {
        Expr::Column(at) => kind_at(kinds, *at),
        Expr::Literal(_, kind) => Ok(*kind),
        Expr::Call { func, args } => type_of_call(*func, args.as_slice(), kinds),
    }
}

fn kind_at(kinds: &[Kind], at: u32) -> Result<Kind, TypeError>
    ensures { result ≡ typing.kind_at (slice_get kinds.now at) }
{
    match kinds.get(at as usize) {
        Some(kind) => Ok(*kind),
        None => Err(TypeError::T1),
    }
}

#[cycle(typing)]
fn type_of_call(func: Func, args: &[Expr], kinds: &[Kind]) -> Result<Kind, TypeError>
    ensures { result ≡ typing.type_of_call func (map (λ a. typing.type_of a kinds.now) args.now) }
{
    if args.len() != arity(func) {
        return Err(TypeError::T4);
    }
    match args {
        [a] => {
            let a = type_of(a, kinds)?;
            kind_of_call(func, &[a])
        }
        [a, b] => {
            let a = type_of(a, kinds)?;
            let b = type_of(b, kinds)?;
            kind_of_call(func, &[a, b])
        }
        [a, b, c] => {
            let a = type_of(a, kinds)?;
            let b = type_of(b, kinds)?;
            let c = type_of(c, kinds)?;
            kind_of_call(func, &[a, b, c])
        }
        _ => Err(TypeError::T4),
    }
}

fn arity(func: Func) -> usize
    ensures { result ≡ typing.arity func }
{
    match func {
        Func::Negate | Func::Not | Func::IsNull | Func::Try | Func::ByteLength => 1,
        Func::If => 3,
        _ => 2,
    }
}

/// What a function gives for arguments of these kinds.
fn kind_of_call(func: Func, kinds: &[Kind]) -> Result<Kind, TypeError>
    ensures { result ≡ typing.kind_of_call func kinds.now }
{
    match func {
        Func::Plus | Func::Minus | Func::Multiply | Func::Divide | Func::Modulus => {
            binary(Kind::Int, Kind::Int, kinds)
        }
        Func::Negate => unary(Kind::Int, Kind::Int, kinds),
        Func::Eq | Func::Neq | Func::Lt | Func::Lte | Func::Gt | Func::Gte => comparison(kinds),
        Func::Not => unary(Kind::Bool, Kind::Bool, kinds),
        Func::And | Func::Or => binary(Kind::Bool, Kind::Bool, kinds),
        Func::IsNull => unary_of_any(kinds).map(|_| Kind::Bool),
        Func::If => choice(kinds),
        Func::Coalesce => fallback(kinds),
        Func::Try => unary_of_any(kinds),
        Func::Concat => binary(Kind::Text, Kind::Text, kinds),
        Func::ByteLength => unary(Kind::Text, Kind::Int, kinds),
        Func::StartsWith => binary(Kind::Text, Kind::Bool, kinds),
    }
}

fn is_same(a: Kind, b: Kind) -> bool
    ensures { result ≡ typing.is_same a b }
{
    a == b
}

fn unary(wanted: Kind, out: Kind, kinds: &[Kind]) -> Result<Kind, TypeError>
    ensures { result ≡ typing.unary wanted out kinds.now }
{
    match kinds {
        [a] => if is_same(*a, wanted) {
            Ok(out)
        } else {
            Err(TypeError::T2)
        },
        _ => Err(TypeError::T4),
    }
}

fn binary(wanted: Kind, out: Kind, kinds: &[Kind]) -> Result<Kind, TypeError>
    ensures { result ≡ typing.binary wanted out kinds.now }
{
    match kinds {
        [a, b] => {
            if is_same(*a, wanted) && is_same(*b, wanted) {
                Ok(out)
            } else {
                Err(TypeError::T2)
            }
        }
        _ => Err(TypeError::T4),
    }
}

fn unary_of_any(kinds: &[Kind]) -> Result<Kind, TypeError>
    ensures { result ≡ typing.unary_of_any (λ k. k) kinds.now }
{
    match kinds {
        [a] => Ok(*a),
        _ => Err(TypeError::T4),
    }
}

fn comparison(kinds: &[Kind]) -> Result<Kind, TypeError>
    ensures { result ≡ typing.comparison kinds.now }
{
    match kinds {
        [a, b] => if is_same(*a, *b) {
            Ok(Kind::Bool)
        } else {
            Err(TypeError::T3)
        },
        _ => Err(TypeError::T4),
    }
}

fn fallback(kinds: &[Kind]) -> Result<Kind, TypeError>
    ensures { result ≡ typing.fallback kinds.now }
{
    match kinds {
        [a, b] => if is_same(*a, *b) {
            Ok(*a)
        } else {
            Err(TypeError::T3)
        },
        _ => Err(TypeError::T4),
    }
}

fn choice(kinds: &[Kind]) -> Result<Kind, TypeError>
    ensures { result ≡ typing.choice kinds.now }
{
    match kinds {
        [c, a, b] => {
            if is_same(*c, Kind::Bool) {
                fallback(&[*a, *b])
            } else {
                Err(TypeError::T2)
            }
        }
        _ => Err(TypeError::T4),
    }
}
