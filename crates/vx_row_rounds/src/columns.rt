//! The batch of a thousand rows that is added again and again.
ghost use Rattle.std.specs.Prelude.{◌≡◌, length, IfOk};
ghost use Rattle.std.specs.String.{string_len};
ghost use Rattle.vx_vector.specs.Lanes.{rows_of};
ghost use Rattle.vx_row_rounds.specs.Rounds.{IsColumn, AreTwo};

use std::alloc::{AllocError, Global};
use vx_vector::{Batch, FINE, Ints, Lanes, Texts, Vector};

/// How many rows the batch has.
const ROWS: u32 = 1_000;

/// What stands beside the first column of ints.
#[derive(Clone, Copy)]
pub enum Table {
    Ints,
    Texts,
}

impl Table {
    /// The table of this name, if it is one's.
    pub fn of(name: &str) -> Option<Table> {
        match name {
            "ints" => Some(Table::Ints),
            "texts" => Some(Table::Texts),
            _ => None,
        }
    }
}

/// The batch: ints from 0, and beside them ints from 1,000 or texts of 20 bytes.
pub fn batch_of(alloc: Global, table: Table) -> Result<Batch, AllocError>
    ensures kinds { IfOk result (λ b. AreTwo b.columns) }
    ensures rows { IfOk result (λ b. b.rows ≡ 1000) }
{
    let first = ints(alloc, 0)?;
    let second = beside(alloc, table)?;
    let columns = vec![in alloc; first, second]?;
    Ok(Batch {
        columns,
        rows: ROWS,
    })
}

fn beside(alloc: Global, table: Table) -> Result<Vector, AllocError>
    ensures { IfOk result IsColumn }
{
    match table {
        Table::Ints => ints(alloc, 1_000),
        Table::Texts => texts(alloc),
    }
}

fn ints(alloc: Global, from: u16) -> Result<Vector, AllocError>
    ensures { IfOk result IsColumn }
{
    let mut values = Vec::with_capacity(alloc, ROWS as usize)?;
    let mut marks = Vec::with_capacity(alloc, ROWS as usize)?;
    for row in 0..ROWS {
        values.push(i64::from(from) + i64::from(row))?;
        marks.push(FINE)?;
    }
    Ok(column_of(Lanes::Ints(Ints { values, marks })))
}

fn texts(alloc: Global) -> Result<Vector, AllocError>
    ensures { IfOk result IsColumn }
{
    let mut texts = Texts::new(alloc);
    for row in 0..ROWS {
        let text = text(alloc, row)?;
        texts.push(FINE, text.as_str().as_bytes())?;
    }
    Ok(column_of(Lanes::Texts(texts)))
}

fn column_of(lanes: Lanes) -> Vector
    requires { rows_of lanes ≡ 1000 }
    ensures { IsColumn result }
{
    Vector::of_lanes(lanes)
}

/// A text of 20 bytes that ends in the number.
fn text(alloc: Global, number: u32) -> Result<String, AllocError>
    ensures { IfOk result (λ text. string_len text ≡ 20) }
{
    let mut text = String::from_str(alloc, "a text of bytes ")?;
    text.push_str(digit(number / 1_000))?;
    text.push_str(digit(number / 100))?;
    text.push_str(digit(number / 10))?;
    text.push_str(digit(number))?;
    Ok(text)
}

/// The last digit of a number.
fn digit(number: u32) -> &'static str
    ensures { length result.now ≡ 1 }
{
    match number % 10 {
        0 => "0",
        1 => "1",
        2 => "2",
        3 => "3",
        4 => "4",
        5 => "5",
        6 => "6",
        7 => "7",
        8 => "8",
        _ => "9",
    }
}
