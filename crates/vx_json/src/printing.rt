//! Rows as compact JSON arrays.
ghost use Rattle.std.specs.Prelude.{◌≡◌, ◌++◌, ◌<◌, string_bytes, IfOk, OnOk, IsUtf8};
ghost use Rattle.std.specs.Char.{digit_char};
ghost use Rattle.json.specs.Print.{escape, escape_byte, quoted};
ghost use Rattle.vx_json.specs.Printing.{cell_text, cells_text, code_text, rest_text, row_text};

use itoa::Buffer;
use std::alloc::{AllocError, Global};
use vx_value::{Row, Value};

/// The row as a compact JSON array, without a line's end.
#[tactic(auto, using(crate::proofs::PrintingLaws::texts))]
pub fn row_line(alloc: Global, row: &Row) -> Result<String, AllocError>
    ensures { IfOk result (λ text. string_bytes text ≡ row_text row.now) }
{
    let mut bytes = Vec::new(alloc);
    push_row(&mut bytes, row)?;
    Ok(String::from_utf8(bytes).unwrap())
}

/// Appends the row as a compact JSON array, without a line's end.
#[tactic(auto, using(crate::proofs::PrintingLaws::texts))]
pub fn push_row(text: &mut Vec<u8>, row: &Row) -> Result<(), AllocError>
    ensures ok { OnOk result (text.new.items ≡ text.old.items ++ row_text row.now) }
    ensures utf8 { OnOk result (IsUtf8 (row_text row.now)) }
{
    text.push(b'[')?;
    push_cells(text, row.cells())?;
    text.push(b']')?;
    Ok(())
}

#[tactic(auto, using(crate::proofs::PrintingLaws::texts))]
fn push_cells(text: &mut Vec<u8>, cells: &[Value]) -> Result<(), AllocError>
    ensures ok { OnOk result (text.new.items ≡ text.old.items ++ cells_text cells.now) }
    ensures utf8 { OnOk result (IsUtf8 (cells_text cells.now)) }
{
    match cells.split_first() {
        None => Ok(()),
        Some((first, rest)) => {
            push_cell(text, first)?;
            push_rest(text, rest)
        }
    }
}

#[tactic(auto, using(crate::proofs::PrintingLaws::texts))]
fn push_rest(text: &mut Vec<u8>, cells: &[Value]) -> Result<(), AllocError>
    ensures ok { OnOk result (text.new.items ≡ text.old.items ++ rest_text cells.now) }
    ensures utf8 { OnOk result (IsUtf8 (rest_text cells.now)) }
{
    for cell in cells {
        text.push(b',')?;
        push_cell(text, cell)?;
    }
    Ok(())
}

#[tactic(auto, using(crate::proofs::PrintingLaws::texts))]
#[inline(always)]
fn push_cell(text: &mut Vec<u8>, cell: &Value) -> Result<(), AllocError>
    ensures ok { OnOk result (text.new.items ≡ text.old.items ++ cell_text cell.now) }
    ensures utf8 { OnOk result (IsUtf8 (cell_text cell.now)) }
{
    match cell {
        Value::Null => text.extend_from_slice(b"null"),
        Value::Bool(true) => text.extend_from_slice(b"true"),
        Value::Bool(false) => text.extend_from_slice(b"false"),
        Value::Int(number) => text.extend_from_slice(Buffer::new().format(*number).as_bytes()),
        Value::Text(cell) => push_quoted(text, cell.as_bytes()),
    }
}

// Texts go out of line, so that the loop over cells is short where they are ints.
#[inline(never)]
fn push_quoted(text: &mut Vec<u8>, bytes: &[u8]) -> Result<(), AllocError>
    ensures { OnOk result (text.new.items ≡ text.old.items ++ quoted bytes.now) }
{
    text.extend_from_slice(b"\"")?;
    push_escaped(text, bytes)?;
    text.extend_from_slice(b"\"")
}

fn push_escaped(text: &mut Vec<u8>, bytes: &[u8]) -> Result<(), AllocError>
    ensures { OnOk result (text.new.items ≡ text.old.items ++ escape bytes.now) }
{
    for byte in bytes {
        push_byte(text, *byte)?;
    }
    Ok(())
}

/// A byte of a JSON string, by the shortest escape where it needs one.
#[tactic(auto, unfolding(json::specs::Print::escape_byte))]
fn push_byte(text: &mut Vec<u8>, byte: u8) -> Result<(), AllocError>
    ensures { OnOk result (text.new.items ≡ text.old.items ++ escape_byte byte) }
{
    match byte {
        b'"' => text.extend_from_slice(b"\\\""),
        b'\\' => text.extend_from_slice(b"\\\\"),
        8 => text.extend_from_slice(b"\\b"),
        9 => text.extend_from_slice(b"\\t"),
        10 => text.extend_from_slice(b"\\n"),
        12 => text.extend_from_slice(b"\\f"),
        13 => text.extend_from_slice(b"\\r"),
        0..=31 => push_code(text, byte),
        _ => Ok(text.push(byte)?),
    }
}

/// A byte below a space, by its number.
fn push_code(text: &mut Vec<u8>, byte: u8) -> Result<(), AllocError>
    ensures { OnOk result (text.new.items ≡ text.old.items ++ code_text byte) }
{
    text.extend_from_slice(b"\\u00")?;
    text.push(digit(byte / 16))?;
    text.push(digit(byte % 16))?;
    Ok(())
}

/// A hexadecimal digit.
fn digit(value: u8) -> u8
    requires { value < 16 }
    ensures { result ≡ digit_char value }
{
    if value < 10 {
        return b'0' + value;
    }
    b'a' - 10 + value
}
