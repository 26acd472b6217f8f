//! An expression over a batch, column by column, from the leaves up.
ghost use Rattle.std.specs.Prelude.{◌≡◌, ◌<◌, length, All, IfOk, IsOk, IsTrue};
ghost use Rattle.std.specs.Cow.{cow_value};
ghost use Rattle.vx_expr.specs.Typing.{type_of};
ghost use Rattle.vx_vector.specs.Batch.{kinds_of};
ghost use Rattle.vx_eval.specs.Literals.{literals_fit};
ghost use Rattle.vx_eval.specs.Mask.{Evaluates};
ghost use Rattle.vx_eval.specs.Evaluated.{IsReady, AreReady, Evaluated, EvaluatedCall};

use crate::apply::{apply_one, apply_three, apply_two};
use crate::columns::column_lanes;
use crate::leaf::{filled, literal_lanes};
use crate::mask::{FaultMask, faults_of};
use crate::wanted::{left_over, second_wanted, taken, these_or};
use std::alloc::{AllocError, Global};
use std::borrow::Cow;
use vx_expr::{Expr, Func};
use vx_vector::{Batch, Lanes, Selection, Vector};

/// What an expression gives on the selected rows of a batch: the vector has a value for each of them, in their
/// order, and the mask tells which of them have a fault instead, by their places in the batch. Nothing is
/// evaluated of a row that isn't selected, and no text is made on a row where the definition doesn't look at it.
pub fn eval(
    alloc: Global,
    e: &Expr,
    batch: &Batch,
    rows: &Selection,
) -> Result<(Vector, FaultMask), AllocError>
    requires types { IsOk (type_of e.now (kinds_of batch.now.columns)) }
    requires literals { IsTrue (literals_fit e.now) }
    requires places { All (λ p. p < batch.now.rows) rows.now }
    ensures { IfOk result (λ r. Evaluates e.now batch.now.columns rows.now r.0 r.1) }
{
    let wanted = filled(alloc, true, rows.places().len())?;
    let lanes = owned_lanes_of(alloc, e, batch, rows, wanted.as_slice())?;
    let faults = faults_of(alloc, &lanes, rows, batch.rows)?;
    Ok((Vector::of_lanes(lanes), faults))
}

/// The same as `lanes_of`, in buffers that no column has.
fn owned_lanes_of(
    alloc: Global,
    e: &Expr,
    batch: &Batch,
    rows: &Selection,
    wanted: &[bool],
) -> Result<Lanes, AllocError>
    requires ready { IsReady batch.now.columns e.now }
    requires places { All (λ p. p < batch.now.rows) rows.now }
    requires wanted { length wanted.now ≡ length rows.now }
    ensures { IfOk result (Evaluated batch.now.columns rows.now wanted.now e.now) }
{
    Lanes::owned(alloc, lanes_of(alloc, e, batch, rows, wanted)?)
}

/// A row for each selected row, in their order, with what the expression gives there if the row is wanted. A column
/// lends its rows where its buffers have just these.
#[cycle(evaluation)]
pub(crate) fn lanes_of<'a>(
    alloc: Global,
    e: &Expr,
    batch: &'a Batch,
    rows: &Selection,
    wanted: &[bool],
) -> Result<Cow<'a, Lanes>, AllocError>
    requires ready { IsReady batch.now.columns e.now }
    requires places { All (λ p. p < batch.now.rows) rows.now }
    requires wanted { length wanted.now ≡ length rows.now }
    ensures { IfOk result (λ l. Evaluated batch.now.columns rows.now wanted.now e.now (cow_value l)) }
{
    match e {
        Expr::Column(at) => column_lanes(alloc, batch, *at, rows, wanted),
        Expr::Literal(value, kind) => {
            Ok(Cow::Owned(literal_lanes(alloc, value, *kind, wanted)?))
        }
        Expr::Call { func, args } => Ok(Cow::Owned(lanes_of_call(
            alloc,
            *func,
            args.as_slice(),
            batch,
            rows,
            wanted,
        )?)),
    }
}

/// A call's rows. No text is made on a row where the function doesn't look at it.
#[cycle(evaluation)]
fn lanes_of_call(
    alloc: Global,
    func: Func,
    args: &[Expr],
    batch: &Batch,
    rows: &Selection,
    wanted: &[bool],
) -> Result<Lanes, AllocError>
    requires ready { AreReady batch.now.columns func args.now }
    requires places { All (λ p. p < batch.now.rows) rows.now }
    requires wanted { length wanted.now ≡ length rows.now }
    ensures { IfOk result (EvaluatedCall batch.now.columns rows.now wanted.now func args.now) }
{
    match args {
        [a] => {
            let a = lanes_of(alloc, a, batch, rows, wanted)?;
            apply_one(alloc, func, a)
        }
        [a, b] => {
            let a = lanes_of(alloc, a, batch, rows, wanted)?;
            let left = a.as_ref();
            let second = second_wanted(alloc, func, left, wanted)?;
            let b = lanes_of(alloc, b, batch, rows, these_or(&second, wanted))?;
            apply_two(alloc, func, left, b.as_ref(), wanted)
        }
        [c, a, b] => {
            let c = lanes_of(alloc, c, batch, rows, wanted)?;
            let condition = c.as_ref();
            let first = taken(alloc, condition, wanted)?;
            let a = lanes_of(alloc, a, batch, rows, first.as_slice())?;
            let last = left_over(alloc, condition, wanted)?;
            let b = lanes_of(alloc, b, batch, rows, last.as_slice())?;
            apply_three(alloc, func, condition, a.as_ref(), b.as_ref())
        }
        _ => unreachable!(),
    }
}
