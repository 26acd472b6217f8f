//! A join of two whole lists.
ghost use Rattle.std.specs.Prelude.{◌≡◌, ◌++◌, map, IfOk, OnOk};
ghost use Rattle.std.specs.List.{list_any};
ghost use Rattle.vx_value.specs.KeyBytes.{key_values};
ghost use Rattle.vx_value.specs.Value.{is_null};
ghost use Rattle.vx_meaning.specs.Joins as joins;
ghost use Rattle.vx_meaning.specs.JoinWords as words;

use crate::cells::{cmp_keys, value_in};
use crate::rowwise::push_row;
use std::alloc::{AllocError, Global};
use std::cmp::Ordering;
use vx_plan::JoinKind;
use vx_value::{Row, Value};

/// A join: its kind, the columns of each side's key, and how many columns each side has.
#[derive(Clone, Copy, Debug)]
struct Joining<'a> {
    kind: JoinKind,
    left_keys: &'a [u32],
    right_keys: &'a [u32],
    left_columns: usize,
    right_columns: usize,
}

/// The rows of a join of two whole lists, whose rows have so many columns.
pub fn joined(
    alloc: Global,
    kind: JoinKind,
    left_keys: &[u32],
    right_keys: &[u32],
    columns: (usize, usize),
    rows: (&[Row], &[Row]),
) -> Result<Vec<Row>, AllocError>
    ensures { IfOk result (λ all. all.items ≡ joins.joined kind (record { left_keys = left_keys.now; right_keys = right_keys.now; left_columns = columns.0; right_columns = columns.1 }) rows.entry.0.now (map joins.fresh rows.entry.1.now)) }
{
    let joining = Joining {
        kind,
        left_keys,
        right_keys,
        left_columns: columns.0,
        right_columns: columns.1,
    };
    joining.over(alloc, rows.0, rows.1)
}

impl Joining<'_> {
    /// The joined rows: what each left row gives, then the right rows without a match.
    fn over(&self, alloc: Global, left: &[Row], right: &[Row]) -> Result<Vec<Row>, AllocError>
        ensures { IfOk result (λ rows. rows.items ≡ words.joined_by self.now left.now right.now) }
    {
        let mut rows = self.probed(alloc, left, right)?;
        match self.kind {
            JoinKind::Right => self.push_alone(alloc, left, right, &mut rows)?,
            JoinKind::Full => self.push_alone(alloc, left, right, &mut rows)?,
            _ => {}
        }
        Ok(rows)
    }

    fn probed(&self, alloc: Global, left: &[Row], right: &[Row]) -> Result<Vec<Row>, AllocError>
        ensures { IfOk result (λ rows. rows.items ≡ words.probed_by self.now left.now right.now) }
    {
        let mut rows = Vec::new(alloc);
        for row in left {
            self.push_given(alloc, row, right, &mut rows)?;
        }
        Ok(rows)
    }

    /// Adds what a left row gives.
    fn push_given(
        &self,
        alloc: Global,
        left: &Row,
        right: &[Row],
        rows: &mut Vec<Row>,
    ) -> Result<(), AllocError>
        ensures { OnOk result (rows.new.items ≡ rows.old.items ++ words.given_by self.now.kind self.now left.now right.now) }
    {
        match self.kind {
            JoinKind::Inner => self.push_pairs(alloc, left, right, rows),
            JoinKind::Right => self.push_pairs(alloc, left, right, rows),
            JoinKind::Left => self.push_pairs_or_nulls(alloc, left, right, rows),
            JoinKind::Full => self.push_pairs_or_nulls(alloc, left, right, rows),
            JoinKind::Semi => push_if(alloc, self.has_partner(left, right), left, rows),
            JoinKind::Anti => push_if(alloc, !self.has_partner(left, right), left, rows),
        }
    }

    /// The left row with each right row that matches it.
    fn push_pairs(
        &self,
        alloc: Global,
        left: &Row,
        right: &[Row],
        rows: &mut Vec<Row>,
    ) -> Result<(), AllocError>
        ensures { OnOk result (rows.new.items ≡ rows.old.items ++ words.pairs_by self.now left.now right.now) }
    {
        for row in right {
            self.push_pair(alloc, left, row, rows)?;
        }
        Ok(())
    }

    fn push_pair(
        &self,
        alloc: Global,
        left: &Row,
        right: &Row,
        rows: &mut Vec<Row>,
    ) -> Result<(), AllocError>
        ensures { OnOk result (rows.new.items ≡ rows.old.items ++ words.row_if (joins.matches (words.on_of self.now) left.now right.now) (left.now ++ right.now)) }
    {
        if self.matches(left, right) {
            push_row(rows, beside(alloc, left, right)?)?;
        }
        Ok(())
    }

    /// The same, and the left row with nulls where none matches.
    fn push_pairs_or_nulls(
        &self,
        alloc: Global,
        left: &Row,
        right: &[Row],
        rows: &mut Vec<Row>,
    ) -> Result<(), AllocError>
        ensures { OnOk result (rows.new.items ≡ rows.old.items ++ words.given_by JoinKind.Left self.now left.now right.now) }
    {
        if self.has_partner(left, right) {
            self.push_pairs(alloc, left, right, rows)
        } else {
            let nulls = nulls(alloc, self.right_columns)?;
            push_row(rows, beside(alloc, left, &nulls)?)
        }
    }

    /// Adds the right rows that no left row matches, with nulls before them.
    fn push_alone(
        &self,
        alloc: Global,
        left: &[Row],
        right: &[Row],
        rows: &mut Vec<Row>,
    ) -> Result<(), AllocError>
        ensures { OnOk result (rows.new.items ≡ rows.old.items ++ words.alone_by self.now left.now right.now) }
    {
        let nulls = nulls(alloc, self.left_columns)?;
        for row in right {
            self.push_one_alone(alloc, left, row, &nulls, rows)?;
        }
        Ok(())
    }

    fn push_one_alone(
        &self,
        alloc: Global,
        left: &[Row],
        right: &Row,
        nulls: &Row,
        rows: &mut Vec<Row>,
    ) -> Result<(), AllocError>
        ensures { OnOk result (rows.new.items ≡ rows.old.items ++ words.row_if (joins.is_alone (words.on_of self.now) left.now (joins.fresh right.now)) (nulls.now ++ right.now)) }
    {
        if !self.is_matched(left, right) {
            push_row(rows, beside(alloc, nulls, right)?)?;
        }
        Ok(())
    }

    /// Whether all keys are equal and none is null.
    fn matches(&self, left: &Row, right: &Row) -> bool
        ensures { result ≡ joins.matches (words.on_of self.now) left.now right.now }
    {
        if has_null(left, self.left_keys) {
            return false;
        }
        match cmp_keys(left, self.left_keys, right, self.right_keys) {
            Ordering::Equal => true,
            _ => false,
        }
    }

    fn has_partner(&self, left: &Row, right: &[Row]) -> bool
        ensures { result ≡ list_any (joins.matches (words.on_of self.now) left.now) right.now }
    {
        for row in right {
            if self.matches(left, row) {
                return true;
            }
        }
        false
    }

    fn is_matched(&self, left: &[Row], right: &Row) -> bool
        ensures { result ≡ list_any (λ row. joins.matches (words.on_of self.now) row right.now) left.now }
    {
        for row in left {
            if self.matches(row, right) {
                return true;
            }
        }
        false
    }
}

fn push_if(alloc: Global, wanted: bool, row: &Row, rows: &mut Vec<Row>) -> Result<(), AllocError>
    ensures { OnOk result (rows.new.items ≡ rows.old.items ++ words.row_if wanted row.now) }
{
    if wanted {
        push_row(rows, row.copy(alloc)?)?;
    }
    Ok(())
}

fn has_null(row: &Row, columns: &[u32]) -> bool
    ensures { result ≡ list_any is_null (key_values columns.now row.now) }
{
    for column in columns {
        if value_in(row, *column as usize).is_null() {
            return true;
        }
    }
    false
}

/// One row behind the other.
fn beside(alloc: Global, left: &Row, right: &Row) -> Result<Row, AllocError>
    ensures { IfOk result (λ row. row ≡ left.now ++ right.now) }
{
    let mut cells = Vec::with_capacity(alloc, left.cells().len())?;
    push_cells(alloc, left.cells(), &mut cells)?;
    push_cells(alloc, right.cells(), &mut cells)?;
    Ok(Row::of(cells))
}

fn push_cells(alloc: Global, from: &[Value], cells: &mut Vec<Value>) -> Result<(), AllocError>
    ensures { OnOk result (cells.new.items ≡ cells.old.items ++ from.now) }
{
    for value in from {
        cells.push(value.copy(alloc)?)?;
    }
    Ok(())
}

fn nulls(alloc: Global, count: usize) -> Result<Row, AllocError>
    ensures { IfOk result (λ row. row ≡ joins.nulls count) }
{
    let mut cells = Vec::with_capacity(alloc, count)?;
    for _ in 0..count {
        cells.push(Value::Null)?;
    }
    Ok(Row::of(cells))
}
