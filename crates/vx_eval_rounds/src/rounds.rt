//! A turn over the table, and what an expression gives there.
ghost use Rattle.vx_eval_rounds.specs.Table.{Fits};

use crate::parts::Part;
use crate::tally::Tally;
use std::alloc::{AllocError, Global};
use vx_eval::eval;
use vx_expr::Expr;

/// Goes over the table so many times, and answers how many rows came.
pub fn turns(alloc: Global, e: &Expr, parts: &[Part], count: u64) -> Result<u64, AllocError>
    requires { Fits e.now }
{
    let mut rows: u64 = 0;
    for _ in 0..count {
        rows = rows.saturating_add(turn(alloc, e, parts)?);
    }
    Ok(rows)
}

/// Evaluates over each batch.
fn turn(alloc: Global, e: &Expr, parts: &[Part]) -> Result<u64, AllocError>
    requires { Fits e.now }
{
    let mut rows: u64 = 0;
    for part in parts {
        let (column, _faults) = eval(alloc, e, &part.batch, &part.rows)?;
        rows = rows.saturating_add(column.len() as u64);
    }
    Ok(rows)
}

/// What the expression gives, row by row.
pub fn first_turn(alloc: Global, e: &Expr, parts: &[Part]) -> Result<Tally, AllocError>
    requires { Fits e.now }
{
    let mut tally = Tally::new();
    for part in parts {
        let (column, faults) = eval(alloc, e, &part.batch, &part.rows)?;
        tally.add_all(&column, &faults, part.rows.places())?;
    }
    Ok(tally)
}
