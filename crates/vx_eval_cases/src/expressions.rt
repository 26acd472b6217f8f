//! Expressions as words, the arguments of a function before it: `#0 =2 plus`.
ghost use Rattle.std.specs.Prelude.{IsTrue};
ghost use Rattle.vx_eval.specs.Literals.{literals_fit};

use crate::samples::text;
use anyhow::{Context, Result, bail};
use sqlite_items::Items;
use std::alloc::Global;
use vx_expr::{Expr, Func};
use vx_value::{Kind, Value};

/// An expression whose literals are of the kinds that stand beside them.
#[derive(Drop)]
pub struct Fit {
    pub expr: Expr,
    ghost fits: { IsTrue (literals_fit expr) },
}

/// The functions by the words of a plan file, each with how many arguments it has.
const FUNCTIONS: [(&str, Func, usize); 22] = [
    ("plus", Func::Plus, 2),
    ("minus", Func::Minus, 2),
    ("multiply", Func::Multiply, 2),
    ("divide", Func::Divide, 2),
    ("modulus", Func::Modulus, 2),
    ("negate", Func::Negate, 1),
    ("eq", Func::Eq, 2),
    ("neq", Func::Neq, 2),
    ("lt", Func::Lt, 2),
    ("lte", Func::Lte, 2),
    ("gt", Func::Gt, 2),
    ("gte", Func::Gte, 2),
    ("not", Func::Not, 1),
    ("and", Func::And, 2),
    ("or", Func::Or, 2),
    ("is_null", Func::IsNull, 1),
    ("if", Func::If, 3),
    ("coalesce", Func::Coalesce, 2),
    ("try", Func::Try, 1),
    ("concat", Func::Concat, 2),
    ("byte_length", Func::ByteLength, 1),
    ("starts_with", Func::StartsWith, 2),
];

/// The expression of a line of words. A word is a column `#0`, an int `=5`, a text `'abc`, `true`, `false`,
/// `null-int`, or a function, which takes its arguments from the expressions before it.
pub fn expression(alloc: Global, line: &str) -> Result<Fit> {
    let mut stack: Vec<Fit> = Vec::new(alloc);
    for word in line.split(' ') {
        let next = match function(word) {
            Some((func, count)) => call(alloc, func, count, &mut stack)?,
            None => leaf(alloc, word)?,
        };
        stack.push(next)?;
    }
    let whole = stack.pop().context("no expression")?;
    if !stack.is_empty() {
        bail!("{line}: more than one expression");
    }
    Ok(whole)
}

fn function(word: &str) -> Option<(Func, usize)> {
    for (name, func, count) in FUNCTIONS {
        if name == word {
            return Some((func, count));
        }
    }
    None
}

fn leaf(alloc: Global, word: &str) -> Result<Fit> {
    if let Some(number) = word.strip_prefix("#") {
        let column: u32 = number.parse().context("no column")?;
        return Ok(Fit {
            expr: Expr::Column(column),
        });
    }
    if let Some(number) = word.strip_prefix("=") {
        let n: i64 = number.parse().context("no int")?;
        return Ok(Fit {
            expr: Expr::Literal(Value::Int(n), Kind::Int),
        });
    }
    if let Some(words) = word.strip_prefix("'") {
        return Ok(Fit {
            expr: Expr::Literal(text(alloc, words)?, Kind::Text),
        });
    }
    constant(alloc, word)
}

fn constant(alloc: Global, word: &str) -> Result<Fit> {
    let expr = match word {
        "true" => Expr::Literal(Value::Bool(true), Kind::Bool),
        "false" => Expr::Literal(Value::Bool(false), Kind::Bool),
        "null-bool" => Expr::Literal(Value::Null, Kind::Bool),
        "null-int" => Expr::Literal(Value::Null, Kind::Int),
        "null-text" => Expr::Literal(Value::Null, Kind::Text),
        _ => bail!("{word}: no expression"),
    };
    Ok(Fit { expr })
}

/// A call of a function on the last expressions before it.
fn call(alloc: Global, func: Func, count: usize, stack: &mut Vec<Fit>) -> Result<Fit> {
    let last = stack.pop().context("no argument")?;
    if count == 1 {
        return one(alloc, func, last);
    }
    let second = stack.pop().context("no second argument")?;
    if count == 2 {
        return two(alloc, func, second, last);
    }
    let first = stack.pop().context("no third argument")?;
    three(alloc, func, first, second, last)
}

fn one(alloc: Global, func: Func, a: Fit) -> Result<Fit> {
    let mut args = Items::new(alloc);
    args.push(a.expr)?;
    Ok(Fit {
        expr: Expr::Call { func, args },
    })
}

fn two(alloc: Global, func: Func, a: Fit, b: Fit) -> Result<Fit> {
    let mut args = Items::new(alloc);
    args.push(a.expr)?;
    args.push(b.expr)?;
    Ok(Fit {
        expr: Expr::Call { func, args },
    })
}

fn three(alloc: Global, func: Func, a: Fit, b: Fit, c: Fit) -> Result<Fit> {
    let mut args = Items::new(alloc);
    args.push(a.expr)?;
    args.push(b.expr)?;
    args.push(c.expr)?;
    Ok(Fit {
        expr: Expr::Call { func, args },
    })
}
