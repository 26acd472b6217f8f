//! Cells and rows as pages have them, and the slots of a shape.
ghost use Rattle.std.specs.Prelude.{◌≡◌};

use std::marker::Model;
use vx_value::{Kind, Value};

/// What a cell of a row can be: a shape is a list of slots, one for each cell.
#[derive(Clone, Copy, Debug, PartialEq, Eq)]
pub enum Slot {
    Flag,
    /// A value of this kind, or null.
    Value(Kind),
    Wide,
}

/// One cell of a row on a page.
#[derive(Debug, Drop)]
pub enum Cell {
    Flag(bool),
    Value(Value),
    Wide(i128),
}

/// A row on a page: a list of cells.
#[derive(Debug, Drop)]
pub struct PageRow {
    cells: Vec<Cell>,
}

impl Model for PageRow {
    ghost use Rattle.std.specs.Prelude.{List};
    ghost use Rattle.vx_page.specs.declared.cell.Cell.{Cell};

    ghost Value = { List Cell };

    ghost view = { λ row. row.cells.items };
}

impl PageRow {
    /// The row of these cells.
    pub fn of(cells: Vec<Cell>) -> PageRow
        ensures { result ≡ cells.items }
    {
        PageRow { cells }
    }

    pub fn cells(&self) -> &[Cell]
        ensures { result.now ≡ self.now }
    {
        self.cells.as_slice()
    }

    /// Its cells, given back.
    pub fn into_cells(self) -> Vec<Cell>
        ensures { result.items ≡ self }
    {
        self.cells
    }
}
