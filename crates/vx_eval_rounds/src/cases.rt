//! The expressions that are measured.
ghost use Rattle.std.specs.Prelude.{IfOk, IfSome, IsTrue};
ghost use Rattle.vx_eval.specs.Literals.{literals_fit};
ghost use Rattle.vx_eval_rounds.specs.Table.{Fits};

use sqlite_items::Items;
use std::alloc::{AllocError, Global};
use vx_expr::{Expr, Func, type_of};
use vx_value::{Kind, Value};

/// The expression of this name, if it is one's.
pub fn expression(alloc: Global, name: &str) -> Result<Option<Expr>, AllocError>
    ensures { IfOk result (λ e. IfSome e Fits) }
{
    match named(alloc, name)? {
        Some(e) => Ok(if_it_types(e)),
        None => Ok(None),
    }
}

fn if_it_types(e: Expr) -> Option<Expr>
    requires { IsTrue (literals_fit e) }
    ensures { IfSome result Fits }
{
    let kinds = [Kind::Int, Kind::Int, Kind::Int, Kind::Text, Kind::Text];
    if type_of(&e, &kinds).is_err() {
        return None;
    }
    Some(e)
}

fn named(alloc: Global, name: &str) -> Result<Option<Expr>, AllocError>
    ensures { IfOk result (λ e. IfSome e (λ named. IsTrue (literals_fit named))) }
{
    match name {
        "plus" => Ok(Some(of_columns(alloc, Func::Plus, 0, 1)?)),
        "lt" => Ok(Some(of_columns(alloc, Func::Lt, 0, 1)?)),
        "and" => Ok(Some(within(alloc)?)),
        "concat" => Ok(Some(of_columns(alloc, Func::Concat, 3, 4)?)),
        "try" => Ok(Some(tried(alloc)?)),
        _ => Ok(None),
    }
}

/// `and(lt(a, b), gt(d, 0))`
fn within(alloc: Global) -> Result<Expr, AllocError>
    ensures { IfOk result (λ e. IsTrue (literals_fit e)) }
{
    let zero = Expr::Literal(Value::Int(0), Kind::Int);
    let is_less = of_columns(alloc, Func::Lt, 0, 1)?;
    let is_above = of_two(alloc, Func::Gt, Expr::Column(2), zero)?;
    of_two(alloc, Func::And, is_less, is_above)
}

/// `try(divide(a, d))`
fn tried(alloc: Global) -> Result<Expr, AllocError>
    ensures { IfOk result (λ e. IsTrue (literals_fit e)) }
{
    let quotient = of_columns(alloc, Func::Divide, 0, 2)?;
    Ok(Expr::Call {
        func: Func::Try,
        args: Items::from_vec(vec![in alloc; quotient]?),
    })
}

fn of_columns(alloc: Global, func: Func, left: u32, right: u32) -> Result<Expr, AllocError>
    ensures { IfOk result (λ e. IsTrue (literals_fit e)) }
{
    of_two(alloc, func, Expr::Column(left), Expr::Column(right))
}

fn of_two(alloc: Global, func: Func, a: Expr, b: Expr) -> Result<Expr, AllocError>
    requires left { IsTrue (literals_fit a) }
    requires right { IsTrue (literals_fit b) }
    ensures { IfOk result (λ e. IsTrue (literals_fit e)) }
{
    Ok(Expr::Call {
        func,
        args: Items::from_vec(vec![in alloc; a, b]?),
    })
}
