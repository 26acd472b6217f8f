//! The cells of a group's aggregates.
ghost use Rattle.std.specs.Prelude.{◌≡◌, IfOk};
ghost use Rattle.vx_meaning.specs.Folds.{fold_of, finish};
ghost use Rattle.vx_meaning.specs.Picks.{pick_name};
ghost use Rattle.vx_meaning.specs.Sums.{Pushes, fold_in, items_of, finished_by};

use crate::cells::to_value;
use crate::picking::Pick;
use crate::summing::{Total, push_int, push_pair};
use std::alloc::{AllocError, Global};
use vx_plan::{Aggregate, AggregateName, Step};
use vx_value::{Row, Value};

/// The cells of all aggregates over these rows; None where a sum or count overflows.
pub fn finished(
    alloc: Global,
    step: Step,
    aggregates: &[Aggregate],
    rows: &[Row],
) -> Result<Option<Vec<Value>>, AllocError>
    ensures { IfOk result (λ cells. items_of cells ≡ finished_by step aggregates.now rows.now) }
{
    let mut cells = Vec::new(alloc);
    for aggregate in aggregates {
        if !push_fold(alloc, step, *aggregate, rows, &mut cells)? {
            return Ok(None);
        }
    }
    Ok(Some(cells))
}

/// Adds the cells of one aggregate; false, and no cell, where it overflows.
fn push_fold(
    alloc: Global,
    step: Step,
    aggregate: Aggregate,
    rows: &[Row],
    cells: &mut Vec<Value>,
) -> Result<bool, AllocError>
    ensures { IfOk result (Pushes cells.old.items cells.new.items (finish step aggregate.name (fold_of step aggregate rows.now))) }
{
    let column = aggregate.column;
    match aggregate.name {
        AggregateName::Count => push_int(Total::count(step, column, rows), cells),
        AggregateName::Sum => push_sum(step, column, rows, cells),
        AggregateName::Min => push_pick(alloc, Pick::Least, step, column, rows, cells),
        AggregateName::Max => push_pick(alloc, Pick::Greatest, step, column, rows, cells),
        AggregateName::BoolAnd => push_pick(alloc, Pick::All, step, column, rows, cells),
        AggregateName::BoolOr => push_pick(alloc, Pick::Any, step, column, rows, cells),
    }
}

fn push_sum(
    step: Step,
    column: Option<u32>,
    rows: &[Row],
    cells: &mut Vec<Value>,
) -> Result<bool, AllocError>
    ensures { IfOk result (Pushes cells.old.items cells.new.items (finish step AggregateName.Sum (fold_in step AggregateName.Sum column rows.now))) }
{
    let total = Total::sum(step, column, rows);
    match step {
        Step::Partial => {
            push_pair(total, cells)?;
            Ok(true)
        }
        Step::Single => push_int(total, cells),
        Step::Final => push_int(total, cells),
    }
}

fn push_pick(
    alloc: Global,
    pick: Pick,
    step: Step,
    column: Option<u32>,
    rows: &[Row],
    cells: &mut Vec<Value>,
) -> Result<bool, AllocError>
    ensures { IfOk result (Pushes cells.old.items cells.new.items (finish step (pick_name pick) (fold_in step (pick_name pick) column rows.now))) }
{
    cells.push(to_value(alloc, pick.over(step, column, rows))?)?;
    Ok(true)
}
