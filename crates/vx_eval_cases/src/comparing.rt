//! An expression over a batch at once, and over each of its rows alone.
ghost use Rattle.std.specs.Prelude.{◌≡◌, ◌<◌, length, map, All, IfOk, IsTrue};
ghost use Rattle.vx_value.specs.Value.{owned, IsLawful};
ghost use Rattle.vx_vector.specs.Column.{Column};
ghost use Rattle.vx_eval.specs.Literals.{literals_fit};

use crate::samples::{ROWS, are_below};
use std::alloc::{AllocError, Global};
use vx_eval::{FaultMask, eval};
use vx_expr::{Expr, Fault, Got, eval_row, type_of};
use vx_value::{Kind, Row, Txt, Value, ValueRef, is_same};
use vx_vector::{Batch, Selection, Vector};

/// Whether each column has so many values.
pub fn are_even(columns: &[Vector], rows: u32) -> bool
    ensures { IsTrue result → All (λ c. length c.values ≡ rows) columns.now }
{
    columns.iter().all(|column| column.len() == rows as usize)
}

#[tactic(auto, using(std::proofs::lemmas::List::map_more))]
fn kinds(alloc: Global, columns: &[Vector]) -> Result<Vec<Kind>, AllocError>
    ensures { IfOk result (λ kinds. kinds.items ≡ map (λ (c : Column). c.kind) columns.now) }
{
    let mut kinds = Vec::new(alloc);
    for column in columns {
        kinds.push(column.kind())?;
    }
    Ok(kinds)
}

fn owned_value(alloc: Global, value: ValueRef<'_>) -> Result<Value, AllocError>
    requires { IsLawful (owned value) }
{
    match value {
        ValueRef::Null => Ok(Value::Null),
        ValueRef::Bool(b) => Ok(Value::Bool(b)),
        ValueRef::Int(n) => Ok(Value::Int(n)),
        ValueRef::Text(text) => Ok(Value::Text(Txt::of(alloc, text)?)),
    }
}

/// A row of a batch, one value a column.
fn row_at(alloc: Global, batch: &Batch, at: u32) -> Result<Row, AllocError>
    requires { at < batch.now.rows }
{
    let mut cells = Vec::new(alloc);
    for column in batch.columns.as_slice() {
        cells.push(owned_value(alloc, column.get(at))?)?;
    }
    Ok(Row::of(cells))
}

pub fn agrees(wanted: &Got, value: ValueRef<'_>, fault: Option<Fault>) -> bool {
    match wanted {
        Got::Value(wanted) => fault.is_none() && is_same(wanted.as_ref(), value),
        Got::Fault(wanted) => fault == Some(*wanted),
    }
}

/// What an expression that types gives over a batch that has these rows.
pub fn evaluated(
    alloc: Global,
    e: &Expr,
    batch: &Batch,
    rows: &Selection,
) -> Result<(Vector, FaultMask), AllocError>
    requires { IsTrue (literals_fit e.now) }
    ensures { IfOk result (λ r. length r.0.values ≡ length rows.now) }
{
    let kinds = kinds(alloc, batch.columns.as_slice())?;
    if type_of(e, kinds.as_slice()).is_err() || !are_below(rows.places(), batch.rows as usize) {
        return Err(AllocError);
    }
    eval(alloc, e, batch, rows)
}

/// Whether a batch and each of its rows alone evaluate to the same at these rows.
fn is_same_at(alloc: Global, e: &Expr, batch: &Batch, rows: &Selection) -> Result<bool, AllocError>
    requires { IsTrue (literals_fit e.now) }
{
    let (values, faults) = evaluated(alloc, e, batch, rows)?;
    let places = rows.places();
    for k in 0..places.len() {
        let at = u32::try_from(k).map_err(|_| AllocError)?;
        let wanted = wanted_at(alloc, e, batch, places[k])?;
        if !agrees(&wanted, values.get(at), faults.get(places[k])) {
            return Ok(false);
        }
    }
    Ok(true)
}

/// What the expression gives on a row alone.
fn wanted_at(alloc: Global, e: &Expr, batch: &Batch, at: u32) -> Result<Got, AllocError> {
    if at >= batch.rows {
        return Err(AllocError);
    }
    eval_row(alloc, e, &row_at(alloc, batch, at)?)
}

/// The same at all rows, and at some.
pub fn is_same_over(alloc: Global, e: &Expr, columns: Vec<Vector>) -> Result<bool, AllocError>
    requires { IsTrue (literals_fit e.now) }
{
    if !are_even(columns.as_slice(), ROWS) {
        return Err(AllocError);
    }
    let batch = Batch {
        columns,
        rows: ROWS,
    };
    let whole = Selection::first(alloc, ROWS)?;
    let some = Selection::of(alloc, &[1, 4, 8, 21, 22, 35])?;
    Ok(is_same_at(alloc, e, &batch, &whole)? && is_same_at(alloc, e, &batch, &some)?)
}
