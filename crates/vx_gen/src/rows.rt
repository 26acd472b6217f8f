//! The rows of the two values nodes.
ghost use Rattle.std.specs.Prelude.{◌≡◌, ◌≤◌, IfOk, length};
ghost use Rattle.vx_value.specs.declared.value.Value.TheVariants.{Text};
ghost use Rattle.vx_gen.specs.Draws.{next_state};
ghost use Rattle.vx_gen.specs.Rows as spec;

use crate::draws::Draws;
use std::alloc::{AllocError, Global};
use vx_value::{Row, Txt, Value};

/// How many groups there are.
pub(crate) const GROUPS: u32 = 500;

/// So many rows, drawn from a number.
pub(crate) fn drawn_rows(alloc: Global, number: u64, count: u32) -> Result<Vec<Row>, AllocError>
    ensures { IfOk result (λ rows. rows.items ≡ spec.drawn_rows number count) }
{
    let mut draws = Draws::from_number(number);
    let mut rows = Vec::with_capacity(alloc, count as usize)?;
    for i in 0..count {
        rows.push(drawn_row(alloc, &mut draws, i)?)?;
    }
    Ok(rows)
}

/// A row of two draws: its place, a group, and an amount from -500 to 500.
fn drawn_row(alloc: Global, draws: &mut Draws, i: u32) -> Result<Row, AllocError>
    ensures state { draws.new ≡ next_state (next_state draws.old) }
    ensures is { IfOk result (λ row. row ≡ spec.row_from draws.old i) }
{
    let group = draws.draw() % GROUPS;
    let amount = draws.draw() % 1001;
    let place = Value::Int(i as i64);
    let group = Value::Int(group as i64);
    let amount = Value::Int(amount as i64 - 500);
    Ok(Row::of(vec![in alloc; place, group, amount]?))
}

/// A row for each of so many groups.
pub(crate) fn group_rows(alloc: Global, count: u32) -> Result<Vec<Row>, AllocError>
    ensures { IfOk result (λ rows. rows.items ≡ spec.group_rows count) }
{
    let mut rows = Vec::with_capacity(alloc, count as usize)?;
    for group in 0..count {
        rows.push(group_row(alloc, group)?)?;
    }
    Ok(rows)
}

/// The number and the name of a group.
fn group_row(alloc: Global, group: u32) -> Result<Row, AllocError>
    ensures { IfOk result (λ row. row ≡ spec.group_row group) }
{
    let name = format!(in alloc; "group-{group}")?;
    let name = text(alloc, name.as_str())?;
    let number = Value::Int(i64::from(group));
    Ok(Row::of(vec![in alloc; number, name]?))
}

fn text(alloc: Global, words: &str) -> Result<Value, AllocError>
    requires { length words.now ≤ 65535 }
    ensures { IfOk result (λ value. value ≡ Text words.now) }
{
    Ok(Value::Text(Txt::of(alloc, words.as_bytes())?))
}
