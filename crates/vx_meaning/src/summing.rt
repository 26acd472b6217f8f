//! Exact sums and counts.
ghost use Rattle.std.specs.Prelude.{◌≡◌, ◌≢◌, ◌<◌, ◌^◌, ◌+ℤ◌, ◌||◌, ℤ, pos, length, FitsSigned, OnOk, IfOk, true, false, if◌then◌else◌, ◌++◌};
ghost use Rattle.std.specs.Int.{w128, int_div_euclid, int_rem_euclid};
ghost use Rattle.vx_value.specs.Value.{owned};
ghost use Rattle.vx_meaning.specs.Folds.{int_only, wide, part, one_cell, two_cells, one_unless_null};
ghost use Rattle.vx_meaning.specs.Sums.{number_of, total_value, fold_in, both, IsInt, IsWithin, Pushes};

use crate::cells::{cell, next_cell};
use std::alloc::AllocError;
use vx_plan::{AggregateName, Step};
use vx_value::{Row, Value, ValueRef};

/// An exact sum of ints, and of pairs of ints: `high * 2^63 + low`, and 0 where nothing was seen.
#[derive(Clone, Copy, Debug)]
pub struct Total {
    high: i128,
    low: i128,
    seen: bool,
}

const BASE: i128 = 9223372036854775808;

impl Total {
    /// The count of the rows with a value in the column, or of all rows; in a final step the sum of such counts.
    pub fn count(step: Step, column: Option<u32>, rows: &[Row]) -> Total
        ensures is { total_value result ≡ fold_in step AggregateName.Count column rows.now }
        ensures within { IsWithin (length rows.now) result }
    {
        let mut total = Total {
            high: 0,
            low: 0,
            seen: true,
        };
        for row in rows {
            total = total.plus(counted(step, column, row));
        }
        total
    }

    /// The sum of a column, or of a pair of columns in a final step.
    pub fn sum(step: Step, column: Option<u32>, rows: &[Row]) -> Total
        ensures is { total_value result ≡ fold_in step AggregateName.Sum column rows.now }
        ensures within { IsWithin (length rows.now) result }
        ensures narrow { step ≢ Step.Final → result.high ≡ pos 0 }
    {
        let mut total = Total {
            high: 0,
            low: 0,
            seen: false,
        };
        for row in rows {
            total = total.plus(summed(step, column, row));
        }
        total
    }

    fn plus(self, other: Total) -> Total
        requires high { FitsSigned w128 (self.high +ℤ other.high) }
        requires low { FitsSigned w128 (self.low +ℤ other.low) }
        ensures { result ≡ both self other }
    {
        Total {
            high: self.high + other.high,
            low: self.low + other.low,
            seen: self.seen || other.seen,
        }
    }

    /// The number as an int; None where it leaves 64 bits.
    fn to_int(self) -> Option<i64>
        requires { IsWithin (2 ^ 62) self }
        ensures { IsInt self result }
    {
        let (high, low) = self.split();
        if high == 0 {
            return Some(low);
        }
        if high == -1 {
            return Some(low - i64::MAX - 1);
        }
        None
    }

    /// The number as `high * 2^63 + low` with `low` from 0 to 2^63 - 1.
    fn split(self) -> (i128, i64)
        requires { IsWithin (2 ^ 62) self }
        ensures high { result.0 ≡ int_div_euclid (number_of self) (pos (2 ^ 63)) }
        ensures low { result.1 ≡ int_rem_euclid (number_of self) (pos (2 ^ 63)) }
    {
        let carried = self.low.div_euclid(BASE);
        let low = self.low.rem_euclid(BASE);
        (self.high + carried, low as i64)
    }
}

fn of_int(value: ValueRef<'_>) -> Total
    ensures is { total_value result ≡ int_only (owned value.entry) }
    ensures within { IsWithin 1 result }
    ensures narrow { result.high ≡ pos 0 }
{
    match value {
        ValueRef::Int(n) => Total {
            high: 0,
            low: n as i128,
            seen: true,
        },
        _ => Total {
            high: 0,
            low: 0,
            seen: false,
        },
    }
}

fn of_pair(high: ValueRef<'_>, low: ValueRef<'_>) -> Total
    ensures is { total_value result ≡ wide (owned high.entry) (owned low.entry) }
    ensures within { IsWithin 1 result }
{
    match high {
        ValueRef::Int(high) => match low {
            ValueRef::Int(low) => Total {
                high: high as i128,
                low: low as i128,
                seen: true,
            },
            _ => Total {
                high: 0,
                low: 0,
                seen: false,
            },
        },
        _ => Total {
            high: 0,
            low: 0,
            seen: false,
        },
    }
}

fn one_if(counts: bool) -> Total
    ensures { result ≡ record { high = pos 0; low = (if counts then pos 1 else pos 0); seen = true } }
{
    Total {
        high: 0,
        low: if counts { 1 } else { 0 },
        seen: true,
    }
}

fn counted(step: Step, column: Option<u32>, row: &Row) -> Total
    ensures is { total_value result ≡ part step AggregateName.Count column row.now }
    ensures within { IsWithin 1 result }
{
    match step {
        Step::Final => of_int(cell(column, row)),
        Step::Single => one_if(counts(column, row)),
        Step::Partial => one_if(counts(column, row)),
    }
}

fn summed(step: Step, column: Option<u32>, row: &Row) -> Total
    ensures is { total_value result ≡ part step AggregateName.Sum column row.now }
    ensures within { IsWithin 1 result }
    ensures narrow { step ≢ Step.Final → result.high ≡ pos 0 }
{
    match step {
        Step::Final => of_pair(cell(column, row), next_cell(column, row)),
        Step::Single => of_int(cell(column, row)),
        Step::Partial => of_int(cell(column, row)),
    }
}

/// Whether a row counts: its argument isn't null, or the count has none.
fn counts(column: Option<u32>, row: &Row) -> bool
    ensures { one_unless_null column row.now ≡ Value.Int (if result then pos 1 else pos 0) }
{
    match column {
        Some(_) => !cell(column, row).is_null(),
        None => true,
    }
}

/// Adds the cell of a sum or count; false, and no cell, where it overflows.
pub fn push_int(total: Total, cells: &mut Vec<Value>) -> Result<bool, AllocError>
    requires { IsWithin (2 ^ 62) total }
    ensures { IfOk result (Pushes cells.old.items cells.new.items (one_cell (total_value total))) }
{
    if !total.seen {
        cells.push(Value::Null)?;
        return Ok(true);
    }
    match total.to_int() {
        Some(n) => {
            cells.push(Value::Int(n))?;
            Ok(true)
        }
        None => Ok(false),
    }
}

/// Adds the two cells of a partial sum.
pub fn push_pair(total: Total, cells: &mut Vec<Value>) -> Result<(), AllocError>
    requires within { IsWithin (2 ^ 62) total }
    requires narrow { total.high ≡ pos 0 }
    ensures { OnOk result (cells.new.items ≡ cells.old.items ++ two_cells (total_value total)) }
{
    if !total.seen {
        cells.push(Value::Null)?;
        cells.push(Value::Null)?;
        return Ok(());
    }
    let (high, low) = total.split();
    cells.push(Value::Int(high as i64))?;
    cells.push(Value::Int(low))?;
    Ok(())
}
