//! An aggregation, over rows sorted by key.
ghost use Rattle.std.specs.Prelude.{◌≡◌, ◌≤◌, ◌<◌, length, map, IfOk, IfErr, Ok, IsSorted};
ghost use Rattle.vx_meaning.specs.Groups.{by_columns};
ghost use Rattle.vx_meaning.specs.Groupings.{groups_by, group_by, GroupsOf, StopsInGroups, StopsInGroup, IsRun};
ghost use Rattle.vx_meaning.specs.Stopped.{IfFault};

use crate::cells::{cmp_keys, key_of};
use crate::folding::finished;
use crate::outcome::Stop;
use crate::rowwise::push_row;
use crate::sorting::by_key;
use std::alloc::Global;
use std::cmp::Ordering;
use vx_expr::Fault;
use vx_plan::{Aggregate, Step};
use vx_value::{Row, Value};

/// An aggregation: the number of its node, and what it computes.
#[derive(Clone, Copy, Debug)]
pub struct Grouping<'a> {
    pub id: u32,
    pub step: Step,
    pub keys: &'a [u32],
    pub aggregates: &'a [Aggregate],
}

/// A row for each key, in the order of the keys; without keys one row.
pub fn over_aggregation(alloc: Global, of: &Grouping<'_>, below: Vec<Row>) -> Result<Vec<Row>, Stop>
    ensures rows { IfOk result (λ rows. GroupsOf of.now below.items rows.items) }
    ensures stop { IfErr result (IfFault (StopsInGroups of.now below.items)) }
{
    let mut rows = Vec::new(alloc);
    if of.keys.is_empty() {
        push_row(
            &mut rows,
            group(alloc, of, Vec::new(alloc), below.as_slice())?,
        )?;
        return Ok(rows);
    }
    let sorted = by_key(of.keys, below)?;
    each_run(alloc, of, sorted.as_slice())
}

/// A row for each run of equal keys.
fn each_run(alloc: Global, of: &Grouping<'_>, sorted: &[Row]) -> Result<Vec<Row>, Stop>
    requires keyed { 0 < length of.now.keys.now }
    requires sorted { IsSorted (by_columns of.now.keys.now) sorted.now }
    ensures rows { IfOk result (λ rows. map Ok rows.items ≡ groups_by of.now sorted.now) }
    ensures stop { IfErr result (IfFault (StopsInGroups of.now sorted.now)) }
{
    let mut rows = Vec::new(alloc);
    let mut rest = sorted;
    while let Some(first) = rest.first() {
        let count = run_length(of.keys, first, rest);
        let (run, later) = rest.split_at(count);
        let key = key_of(alloc, first, of.keys)?;
        push_row(&mut rows, group(alloc, of, key, run)?)?;
        rest = later;
    }
    Ok(rows)
}

/// How many rows from the front on have the key of this row.
fn run_length(keys: &[u32], first: &Row, rows: &[Row]) -> usize
    ensures within { result ≤ length rows.now }
    ensures run { IsRun keys.now first.now rows.now result }
{
    let mut count = 0;
    for row in rows {
        match cmp_keys(first, keys, row, keys) {
            Ordering::Equal => count += 1,
            _ => return count,
        }
    }
    count
}

/// The row of a group: its key, then its aggregates.
fn group(alloc: Global, of: &Grouping<'_>, key: Vec<Value>, rows: &[Row]) -> Result<Row, Stop>
    ensures row { IfOk result (λ row. Ok row ≡ group_by of.now key.items rows.now) }
    ensures stop { IfErr result (IfFault (StopsInGroup of.now key.items rows.now)) }
{
    match finished(alloc, of.step, of.aggregates, rows)? {
        Some(cells) => {
            let mut cells = cells;
            let mut row = key;
            row.append(&mut cells)?;
            Ok(Row::of(row))
        }
        None => Err(Stop::Fault {
            node: of.id,
            row: Row::of(key),
            code: Fault::Overflow,
        }),
    }
}
