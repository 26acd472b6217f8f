//! Rows of values.
ghost use Rattle.std.specs.Prelude.{◌≡◌, ◌<◌, length, IfOk};
ghost use Rattle.vx_value.specs.Value.{owned, IsLawful};
ghost use Rattle.vx_value.specs.Row.{value_at};

use crate::value::{Value, ValueRef};
use std::alloc::{AllocError, Global};
use std::marker::Model;

/// A row: a list of values, one for each column.
#[derive(Debug, Drop)]
pub struct Row {
    cells: Vec<Value>,
}

impl Model for Row {
    ghost use Rattle.std.specs.Prelude.{List};
    ghost use Rattle.vx_value.specs.declared.value.Value.{Value as Cell};

    ghost Value = { List Cell };

    ghost view = { λ row. row.cells.items };
}

impl Row {
    /// The row of these cells.
    pub fn of(cells: Vec<Value>) -> Row
        ensures { result ≡ cells.items }
    {
        Row { cells }
    }

    /// The cells, in the order of the columns.
    pub fn cells(&self) -> &[Value]
        ensures { result.now ≡ self.now }
    {
        self.cells.as_slice()
    }

    /// The value in a column.
    pub fn get(&self, column: u32) -> ValueRef<'_>
        requires { column < length self.now }
        ensures is { owned result ≡ value_at self.now column }
        ensures lawful { IsLawful (owned result) }
    {
        self.cells[column as usize].as_ref()
    }

    /// The same row, in memory of its own.
    pub fn copy(&self, alloc: Global) -> Result<Row, AllocError>
        ensures { IfOk result (λ row. row ≡ self.now) }
    {
        let mut copies = Vec::with_capacity(alloc, self.cells.len())?;
        for cell in self.cells.as_slice() {
            copies.push(cell.copy(alloc)?)?;
        }
        Ok(Row::of(copies))
    }
}
