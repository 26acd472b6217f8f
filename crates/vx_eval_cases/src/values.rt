//! What an expression gives over a batch of three rows, as words.
ghost use Rattle.std.specs.Prelude.{◌≡◌, ◌<◌, length, IfSome};

use crate::columns::{column_of, word_of};
use crate::comparing::{are_even, evaluated};
use crate::expressions::expression;
use anyhow::{Context, Result, bail};
use std::alloc::Global;
use vx_eval::FaultMask;
use vx_expr::Fault;
use vx_vector::{Batch, Selection, Vector};

const ROWS: u32 = 3;

/// What stands for a line of columns with ` ; ` between, an expression, and which rows: `all`, `ends` or `later`.
pub fn said(alloc: Global, line: &str) -> Result<String> {
    let (rest, which) = line.rsplit_once(" | ").context("no rows")?;
    let (columns, words) = rest.rsplit_once(" | ").context("no expression")?;
    let mut batch = Batch {
        columns: Vec::new(alloc),
        rows: ROWS,
    };
    let mut all: Vec<Vector> = Vec::new(alloc);
    for column in columns.split(" ; ") {
        all.push(column_of(alloc, column)?)?;
    }
    if !are_even(all.as_slice(), ROWS) {
        bail!("{line}: not three rows");
    }
    batch.columns = all;
    let rows = match which {
        "all" => Selection::first(alloc, ROWS)?,
        "ends" => Selection::of(alloc, &[0, 2])?,
        "later" => Selection::of(alloc, &[1, 2])?,
        _ => bail!("{which}: no rows"),
    };
    let fit = expression(alloc, words)?;
    let (values, faults) = evaluated(alloc, &fit.expr, &batch, &rows)?;
    told(alloc, &values, &faults, rows.places())
}

/// A word for each selected row, and one more where a row that isn't selected has a fault.
fn told(alloc: Global, values: &Vector, faults: &FaultMask, places: &[u32]) -> Result<String>
    requires { length values.now.values ≡ length places.now }
{
    let mut said = String::new(alloc);
    for place in 0..ROWS {
        let Some(at) = place_in(places, place) else {
            if faults.get(place).is_some() {
                said.push_str(" a fault elsewhere")?;
            }
            continue;
        };
        if !said.as_str().is_empty() {
            said.push(' ')?;
        }
        match faults.get(place) {
            Some(Fault::Overflow) => said.push_str("!overflow")?,
            Some(Fault::DivideByZero) => said.push_str("!divide_by_zero")?,
            Some(Fault::TooLong) => said.push_str("!too_long")?,
            None => said.push_str(word_of(alloc, values.get(at))?.as_str())?,
        }
    }
    Ok(said)
}

/// Where a place stands among the selected ones.
fn place_in(places: &[u32], place: u32) -> Option<u32>
    ensures { IfSome result (λ at. at < length places.now) }
{
    for at in 0..places.len() {
        if places[at] == place {
            return u32::try_from(at).ok();
        }
    }
    None
}
