//! Filter and project, row by row.
ghost use Rattle.std.specs.Prelude.{◌≡◌, ◌++◌, [], ◌∷◌, take, drop, IfOk, IfErr, OnOk};
ghost use Rattle.vx_meaning.specs.Lines.{Filtered, Projected};
ghost use Rattle.vx_meaning.specs.Rows.{image};
ghost use Rattle.vx_meaning.specs.Stopped.{IfFault, Exactly, StopsAmong};
ghost use Rattle.vx_meaning.specs.Images.{IsImage, IsVerdict};

use crate::outcome::Stop;
use sqlite_items::Items;
use std::alloc::{AllocError, Global};
use std::cmp;
use vx_expr::{Expr, Fault, Got, eval_row};
use vx_value::{Row, Value};

/// The same rows, each moved: they come off the end, and are then turned round.
#[tactic(auto, using(crate::proofs::RowLemmas::turning))]
pub fn moved(alloc: Global, rows: Items<Row>) -> Result<Vec<Row>, AllocError>
    ensures { IfOk result (λ moved. moved.items ≡ rows) }
{
    let mut rest = rows;
    let mut moved = Vec::with_capacity(alloc, rest.len())?;
    while let Some(row) = rest.pop() {
        moved.push(row)?;
    }
    moved.reverse();
    Ok(moved)
}

/// Adds a row at the end.
pub fn push_row(rows: &mut Vec<Row>, row: Row) -> Result<(), AllocError>
    ensures { OnOk result (rows.new.items ≡ rows.old.items ++ row ∷ []) }
{
    rows.push(row)?;
    Ok(())
}

/// The rows on which the predicate is true, in their order.
pub fn over_filter(
    alloc: Global,
    id: u32,
    predicate: &Expr,
    below: Vec<Row>,
) -> Result<Vec<Row>, Stop>
    ensures rows { IfOk result (λ rows. Filtered predicate.now (Exactly below.items) rows.items) }
    ensures stop { IfErr result (IfFault (StopsAmong id (predicate.now ∷ []) below.items)) }
{
    let mut kept = Vec::new(alloc);
    let mut rest = below.into_iter();
    while let Some(row) = rest.next() {
        match test(alloc, predicate, &row)? {
            Verdict::Fault(code) => return Err(Stop::Fault {
                node: id,
                row,
                code,
            }),
            Verdict::Keep => push_row(&mut kept, row)?,
            Verdict::Leave => {}
        }
    }
    Ok(kept)
}

/// What a predicate says of a row.
#[derive(Debug, Drop)]
enum Verdict {
    Keep,
    Leave,
    Fault(Fault),
}

fn test(alloc: Global, predicate: &Expr, row: &Row) -> Result<Verdict, AllocError>
    ensures { IfOk result (IsVerdict predicate.now row.now) }
{
    match eval_row(alloc, predicate, row)? {
        Got::Fault(code) => Ok(Verdict::Fault(code)),
        Got::Value(Value::Bool(true)) => Ok(Verdict::Keep),
        Got::Value(_) => Ok(Verdict::Leave),
    }
}

/// The image of each row, in their order.
pub fn over_project(
    alloc: Global,
    id: u32,
    exprs: &[Expr],
    below: Vec<Row>,
) -> Result<Vec<Row>, Stop>
    ensures rows { IfOk result (λ rows. Projected exprs.now (Exactly below.items) rows.items) }
    ensures stop { IfErr result (IfFault (StopsAmong id exprs.now below.items)) }
{
    let mut images = Vec::new(alloc);
    let mut rest = below.into_iter();
    while let Some(row) = rest.next() {
        match image_of(alloc, exprs, &row)? {
            Image::Fault(code) => return Err(Stop::Fault {
                node: id,
                row,
                code,
            }),
            Image::Row(image) => push_row(&mut images, image)?,
        }
    }
    Ok(images)
}

/// What expressions give on a row: all their values, or the leftmost fault.
#[derive(Debug, Drop)]
enum Image {
    Row(Row),
    Fault(Fault),
}

fn image_of(alloc: Global, exprs: &[Expr], row: &Row) -> Result<Image, AllocError>
    ensures { IfOk result (IsImage exprs.now row.now) }
{
    let mut cells = Vec::with_capacity(alloc, exprs.len())?;
    for e in exprs {
        match eval_row(alloc, e, row)? {
            Got::Fault(code) => return Ok(Image::Fault(code)),
            Got::Value(value) => cells.push(value)?,
        }
    }
    Ok(Image::Row(Row::of(cells)))
}

/// The rows at the places from `offset` up to `offset + count`.
pub fn over_limit(offset: u64, count: u64, below: Vec<Row>) -> Result<Vec<Row>, AllocError>
    ensures { IfOk result (λ rows. rows.items ≡ take count (drop offset below.items)) }
{
    let mut rows = below;
    let start = cmp::min(offset as usize, rows.len());
    let mut chosen = rows.split_off(start)?;
    chosen.truncate(count as usize);
    Ok(chosen)
}
