//! Copies of rows and plans, and rows as lines of text.
use crate::rows::worked_row;
use anyhow::Result;
use std::alloc::Global;
use vx_json::{Line, plan_of, push_row, row_line};
use vx_plan::Plan;
use vx_value::{Row, Txt, Value, is_same};

/// Whether each value of a copy is that of the row.
pub fn of_rows(alloc: Global) -> Result<String> {
    let row = worked_row(alloc)?;
    let copy = row.copy(alloc)?;
    let mut text = format!(in alloc; "copied {} of {}", copy.cells().len(), row.cells().len())?;
    for (own, other) in row.cells().iter().zip(copy.cells()) {
        let is_same = is_same(own.as_ref(), other.as_ref());
        text.push_str(format!(in alloc; " {is_same}")?.as_str())?;
    }
    text.push('\n')?;
    Ok(text)
}

/// A plan as its derived form shows it.
fn form(alloc: Global, plan: &Plan) -> Result<String> {
    Ok(format!(in alloc; "{plan:?}")?)
}

/// The plan of a file's bytes.
fn read(alloc: Global, bytes: &[u8]) -> Result<Plan> {
    Ok(plan_of(alloc, bytes)?)
}

/// Whether the copy of a plan reads as the plan.
pub fn of_plans(alloc: Global, bytes: &[u8]) -> Result<String> {
    let plan = read(alloc, bytes)?;
    let own = form(alloc, &plan)?;
    let other = copied_form(alloc, &plan)?;
    let is_same = own.as_str() == other.as_str();
    let has_all = own.len() > 500;
    Ok(format!(in alloc; "plan copied {is_same} {has_all}\n")?)
}

/// The form of a plan's copy.
fn copied_form(alloc: Global, plan: &Plan) -> Result<String> {
    let copy = plan.copy(alloc)?;
    form(alloc, &copy)
}

/// A row as a line, by each call that prints one.
pub fn lines(alloc: Global) -> Result<String> {
    let word = Value::Text(Txt::of(alloc, b"a\"\\\n\x01\xc3\xa9")?);
    let row = Row::of(Vec::from_array(
        alloc,
        [Value::Int(1), Value::Null, Value::Bool(true), word],
    )?);
    let line = row_line(alloc, &row)?;
    let mut text = Vec::new(alloc);
    push_row(&mut text, &row)?;
    let mut again = Vec::new(alloc);
    let mut kept = Line::new();
    kept.push_row(&mut again, &worked_row(alloc)?)?;
    again.clear();
    kept.push_row(&mut again, &row)?;
    let are_same = [
        text.as_slice() == line.as_bytes(),
        again.as_slice() == line.as_bytes(),
    ];
    Ok(format!(in alloc; "line {line} {are_same:?}\n")?)
}
