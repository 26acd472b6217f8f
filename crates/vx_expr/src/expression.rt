//! Expressions: columns, literals, calls.
ghost use Rattle.std.specs.Prelude.{◌≡◌, IfOk};

use sqlite_items::Items;
use std::alloc::{AllocError, Global};
use vx_value::{Kind, Value};

/// What a call computes.
#[derive(Clone, Copy, Debug, PartialEq, Eq)]
pub enum Func {
    Plus,
    Minus,
    Multiply,
    Divide,
    Modulus,
    Negate,
    Eq,
    Neq,
    Lt,
    Lte,
    Gt,
    Gte,
    Not,
    And,
    Or,
    IsNull,
    If,
    Coalesce,
    Try,
    Concat,
    ByteLength,
    StartsWith,
}

/// An expression over the columns of a row.
#[derive(Debug, Drop)]
pub enum Expr {
    /// The value of a column, by its place from 0.
    Column(u32),
    /// A value of this kind, or a null of it.
    Literal(Value, Kind),
    Call { func: Func, args: Items<Expr> },
}

impl Expr {
    /// The same expression, with texts of its own.
    #[cycle(copies)]
    pub fn copy(&self, alloc: Global) -> Result<Expr, AllocError>
        ensures { IfOk result (λ copy. copy ≡ self.now) }
    {
        match self {
            Expr::Column(at) => Ok(Expr::Column(*at)),
            Expr::Literal(value, kind) => Ok(Expr::Literal(value.copy(alloc)?, *kind)),
            Expr::Call { func, args } => Ok(Expr::Call {
                func: *func,
                args: copy_all(alloc, args.as_slice())?,
            }),
        }
    }
}

#[cycle(copies)]
fn copy_all(alloc: Global, all: &[Expr]) -> Result<Items<Expr>, AllocError>
    ensures { IfOk result (λ copies. copies ≡ all.now) }
{
    let mut copies = Items::new(alloc);
    for one in all {
        copies.push(one.copy(alloc)?)?;
    }
    Ok(copies)
}
