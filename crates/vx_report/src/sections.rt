//! The text of a query's section.
ghost use Rattle.std.specs.Prelude.{◌≡◌, ◌++◌, IfOk, OnOk};
ghost use Rattle.std.specs.List.{flat_map};
ghost use Rattle.vx_report.specs.Sections as spec;

use crate::fields::push_field;
use crate::notes::push_note;
use crate::{Cause, Outcome};
use std::alloc::{AllocError, Global};
use vx_expr::Fault;
use vx_json::Line;
use vx_value::Row;

/// What is printed of a job: `== JOB NAME` and the lines of its outcome, put together in one buffer.
pub fn section_text(
    alloc: Global,
    job: u32,
    name: &str,
    outcome: &Outcome,
) -> Result<Vec<u8>, AllocError>
    ensures { IfOk result (λ text. text.items ≡ spec.section_text job name.now outcome.now) }
{
    let mut text = Vec::new(alloc);
    push_field(&mut text, "== ", job)?;
    text.push(b' ')?;
    text.extend_from_slice(name.as_bytes())?;
    text.push(b'\n')?;
    push_outcome(&mut text, outcome)?;
    Ok(text)
}

/// The lines of an outcome: `ok`, the number of rows and a line for each row, or `error` and why.
pub fn outcome_text(alloc: Global, outcome: &Outcome) -> Result<Vec<u8>, AllocError>
    ensures { IfOk result (λ text. text.items ≡ spec.outcome_text outcome.now) }
{
    let mut text = Vec::new(alloc);
    push_outcome(&mut text, outcome)?;
    Ok(text)
}

fn push_outcome(text: &mut Vec<u8>, outcome: &Outcome) -> Result<(), AllocError>
    ensures { OnOk result (text.new.items ≡ text.old.items ++ spec.outcome_text outcome.now) }
{
    match outcome {
        Outcome::Ok(rows) => push_rows(text, rows.as_slice()),
        Outcome::Error(cause) => push_error(text, cause),
    }
}

fn push_rows(text: &mut Vec<u8>, rows: &[Row]) -> Result<(), AllocError>
    ensures { OnOk result (text.new.items ≡ text.old.items ++ spec.rows_text rows.now) }
{
    push_field(text, "ok ", rows.len())?;
    text.push(b'\n')?;
    push_lines(text, rows)
}

pub(crate) fn push_lines(text: &mut Vec<u8>, rows: &[Row]) -> Result<(), AllocError>
    ensures { OnOk result (text.new.items ≡ text.old.items ++ flat_map spec.row_line rows.now) }
{
    let mut line = Line::new();
    for row in rows {
        push_line(text, &mut line, row)?;
    }
    Ok(())
}

fn push_line(text: &mut Vec<u8>, line: &mut Line, row: &Row) -> Result<(), AllocError>
    ensures { OnOk result (text.new.items ≡ text.old.items ++ spec.row_line row.now) }
{
    line.push_row(text, row)?;
    text.push(b'\n')?;
    Ok(())
}

pub(crate) fn push_error(text: &mut Vec<u8>, cause: &Cause) -> Result<(), AllocError>
    ensures { OnOk result (text.new.items ≡ text.old.items ++ spec.error_line cause.now) }
{
    text.extend_from_slice(b"error ")?;
    text.extend_from_slice(error_name(cause).as_bytes())?;
    push_error_fields(text, cause)?;
    text.push(b'\n')?;
    Ok(())
}

/// The name under which the cause of an error is printed.
fn error_name(cause: &Cause) -> &'static str
    ensures { result.now ≡ spec.error_name cause.now }
{
    match cause {
        Cause::Fault { .. } => "fault",
        Cause::Spill { .. } => "spill",
        Cause::Aborted(_) => "aborted",
        Cause::Memory => "memory",
    }
}

fn push_error_fields(text: &mut Vec<u8>, cause: &Cause) -> Result<(), AllocError>
    ensures { OnOk result (text.new.items ≡ text.old.items ++ spec.error_fields cause.now) }
{
    match cause {
        Cause::Fault { node, row, code } => {
            push_fault_fields(text, *node, *code)?;
            Line::new().push_row(text, row)
        }
        Cause::Spill { faults } => push_field(text, " faults=", *faults),
        Cause::Aborted(note) => {
            push_note(text, note)?;
            push_field(text, " looks=", note.looks)
        }
        Cause::Memory => Ok(()),
    }
}

fn push_fault_fields(text: &mut Vec<u8>, node: u32, code: Fault) -> Result<(), AllocError>
    ensures { OnOk result (text.new.items ≡ text.old.items ++ spec.fault_fields node code) }
{
    push_field(text, " node=", node)?;
    text.extend_from_slice(b" code=")?;
    text.extend_from_slice(code_name(code).as_bytes())?;
    text.extend_from_slice(b" row=")
}

/// The name under which a fault is printed.
fn code_name(code: Fault) -> &'static str
    ensures { result.now ≡ spec.code_name code }
{
    match code {
        Fault::Overflow => "overflow",
        Fault::DivideByZero => "divide_by_zero",
        Fault::TooLong => "too_long",
    }
}
