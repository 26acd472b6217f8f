//! Columns as words: the kind, and a cell a row. `int 2 0 null`
ghost use Rattle.std.specs.Prelude.{All, IfOk};

use crate::samples::{stored, text};
use anyhow::{Context, Result, bail};
use std::alloc::{AllocError, Global};
use vx_value::{Kind, Value, ValueRef};
use vx_vector::Vector;

pub fn kind_of(alloc: Global, word: &str) -> Result<Kind> {
    match word {
        "bool" => Ok(Kind::Bool),
        "int" => Ok(Kind::Int),
        "text" => Ok(Kind::Text),
        _ => bail!("{word}: no kind"),
    }
}

/// The column of these words. A cell is `null`, a value of the kind, or of texts a letter so many times, as `a*13`.
pub fn column_of(alloc: Global, words: &str) -> Result<Vector> {
    let (kind, cells) = words.split_once(' ').context("no cells")?;
    let kind = kind_of(alloc, kind)?;
    let mut values = Vec::new(alloc);
    for cell in cells.split(' ') {
        values.push(value_of(alloc, kind, cell)?)?;
    }
    Ok(stored(alloc, kind, values.as_slice())?)
}

fn value_of(alloc: Global, kind: Kind, cell: &str) -> Result<Value> {
    if cell == "null" {
        return Ok(Value::Null);
    }
    match kind {
        Kind::Bool => Ok(Value::Bool(cell == "true")),
        Kind::Int => Ok(Value::Int(cell.parse::<i64>().context("no int")?)),
        Kind::Text => Ok(text_of(alloc, cell)?),
    }
}

fn text_of(alloc: Global, cell: &str) -> Result<Value, AllocError> {
    let Some((letter, count)) = cell.split_once('*') else {
        return text(alloc, cell);
    };
    let count = count.parse::<usize>().unwrap_or(0);
    text(alloc, letter.repeat(alloc, count.min(65_535))?.as_str())
}

/// A value as a cell's word.
pub fn word_of(alloc: Global, value: ValueRef<'_>) -> Result<String> {
    match value {
        ValueRef::Null => Ok(String::from_str(alloc, "null")?),
        ValueRef::Bool(b) => Ok(format!(in alloc; "{b}")?),
        ValueRef::Int(n) => Ok(format!(in alloc; "{n}")?),
        ValueRef::Text(bytes) => Ok(String::from_utf8_lossy(alloc, bytes)?),
    }
}
