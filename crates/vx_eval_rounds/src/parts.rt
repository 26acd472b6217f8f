//! The table that is measured: three ints and two texts a row, in batches that are built once.
ghost use Rattle.std.specs.Prelude.{◌≡◌, ◌<◌, length, All, IfOk};
ghost use Rattle.vx_value.specs.Value.{IsText};
ghost use Rattle.vx_vector.specs.Batch.{kinds_of};
ghost use Rattle.vx_vector.specs.Lanes.{kind_of, rows_of};
ghost use Rattle.vx_eval_rounds.specs.Table.{IsColumn, kinds};

use crate::draws::Draws;
use std::alloc::{AllocError, Global};
use vx_value::Kind;
use vx_vector::{Batch, Ints, Lanes, Selection, Texts, Vector};

/// The rows of the table.
const ROWS: u32 = 16_384;

/// A batch, and the selection of all its rows.
#[derive(Drop)]
pub struct Part {
    pub batch: Batch,
    pub rows: Selection,
    ghost columns: { kinds_of batch.columns ≡ kinds },
    ghost places: { All (λ p. p < batch.rows) rows },
}

/// The table in batches of so many rows; what doesn't fill one is left out.
pub fn parts(alloc: Global, size: u32) -> Result<Vec<Part>, AllocError>
    requires { 0 < size }
{
    let mut draws = Draws::new();
    let mut parts = Vec::new(alloc);
    for _ in 0..ROWS / size {
        parts.push(drawn(alloc, &mut draws, size)?)?;
    }
    Ok(parts)
}

fn drawn(alloc: Global, draws: &mut Draws, rows: u32) -> Result<Part, AllocError> {
    let columns = vec![in alloc;
        ints(alloc, draws, rows, 1_000)?,
        ints(alloc, draws, rows, 1_000)?,
        ints(alloc, draws, rows, 16)?,
        texts(alloc, draws, rows)?,
        texts(alloc, draws, rows)?,
    ]?;
    Ok(Part {
        batch: Batch { columns, rows },
        rows: Selection::first(alloc, rows)?,
    })
}

/// Ints from `-top` to `top`, and some nulls.
fn ints(alloc: Global, draws: &mut Draws, rows: u32, top: u16) -> Result<Vector, AllocError>
    ensures { IfOk result (IsColumn Kind.Int rows) }
{
    let values = numbers(alloc, draws, rows, top)?;
    let marks = marks(alloc, draws, rows)?;
    Ok(column_of(Lanes::Ints(Ints { values, marks })))
}

fn numbers(alloc: Global, draws: &mut Draws, rows: u32, top: u16) -> Result<Vec<i64>, AllocError>
    ensures { IfOk result (λ v. length v.items ≡ rows) }
{
    let mut values = Vec::with_capacity(alloc, rows as usize)?;
    for _row in 0..rows {
        values.push(draws.around_zero(top))?;
    }
    Ok(values)
}

fn marks(alloc: Global, draws: &mut Draws, rows: u32) -> Result<Vec<u8>, AllocError>
    ensures { IfOk result (λ v. length v.items ≡ rows) }
{
    let mut marks = Vec::with_capacity(alloc, rows as usize)?;
    for _row in 0..rows {
        marks.push(draws.mark())?;
    }
    Ok(marks)
}

#[tactic(auto, using(crate::proofs::ColumnLemmas::column_of_lanes))]
fn column_of(lanes: Lanes) -> Vector
    ensures { IsColumn (kind_of lanes) (rows_of lanes) result }
{
    Vector::of_lanes(lanes)
}

fn texts(alloc: Global, draws: &mut Draws, rows: u32) -> Result<Vector, AllocError>
    ensures { IfOk result (IsColumn Kind.Text rows) }
{
    let texts = words(alloc, draws, rows)?;
    Ok(column_of(Lanes::Texts(texts)))
}

/// Texts of at most 11 bytes, and some nulls.
fn words(alloc: Global, draws: &mut Draws, rows: u32) -> Result<Texts, AllocError>
    ensures { IfOk result (λ t. length t ≡ rows) }
{
    let mut texts = Texts::new(alloc);
    for _row in 0..rows {
        let word = word(draws.below(8));
        texts.push(draws.mark(), word.as_bytes())?;
    }
    Ok(texts)
}

fn word(number: u32) -> &'static str
    ensures { IsText result.now }
{
    match number {
        0 => "",
        1 => "a",
        2 => "of",
        3 => "word",
        4 => "vector",
        5 => "columns",
        6 => "batches of",
        _ => "evaluations",
    }
}
