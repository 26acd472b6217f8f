//! Lines of rows of ints and nulls, put together from the last byte on.
ghost use Rattle.std.specs.Prelude.{◌≡◌, ◌↔◌, ◌+◌, ◌*◌, ◌<◌, ◌≤◌, ◌∷◌, ◌++◌, Any, IfSome, IsTrue, OnOk, drop, length, true};
ghost use Rattle.std.specs.Fmt.{signed_decimal};
ghost use Rattle.std.specs.Str.{byte};
ghost use Rattle.vx_json.specs.Printing.{cell_text, is_text, row_text};

use crate::printing::push_row;
use itoa::write_digits;
use std::alloc::AllocError;
use vx_value::{Row, Value};

/// How many cells a row may have whose text is put together here.
const CELLS: usize = 64;

/// Room for as many cells with a comma each, of at most 20 bytes where they are no texts, and for a bracket.
const ROOM: usize = 1345;

/// Room for the text of a row, which is put together from its last byte to its first, as digits are, and then
/// copied once. It serves one row after another.
#[derive(Debug, Drop)]
pub struct Line {
    bytes: [u8; ROOM],
}

impl Line {
    pub fn new() -> Line {
        Line { bytes: [0; ROOM] }
    }

    /// Appends the row as a compact JSON array, without a line's end.
    pub fn push_row(&mut self, text: &mut Vec<u8>, row: &Row) -> Result<(), AllocError>
        ensures { OnOk result (text.new.items ≡ text.old.items ++ row_text row.now) }
    {
        match put_row(&mut self.bytes, row.cells()) {
            Some(start) => text.extend_from_slice(&self.bytes[start..]),
            None => push_row(text, row),
        }
    }
}

/// Writes a row's text so that it ends where the bytes do, and answers where it starts; none where a cell is a text
/// or there are too many or no cells.
fn put_row(bytes: &mut [u8; ROOM], cells: &[Value]) -> Option<usize>
    ensures is { IfSome result (λ start. drop start bytes.new ≡ row_text cells.now) }
    ensures inside { IfSome result (λ start. start < 1345) }
{
    if cells.is_empty() {
        return None;
    }
    if cells.len() > CELLS || has_text(cells) {
        return None;
    }
    let mut at = put_byte(bytes, ROOM, b']');
    let mut left = cells.len();
    while left > 0 {
        left -= 1;
        let start = put_cell(bytes, at, &cells[left])?;
        at = put_byte(bytes, start, b',');
    }
    // The bracket stands where the first cell has its comma.
    bytes[at] = b'[';
    Some(at)
}

/// Whether some cell is a text. It is asked first, so that nothing is written in vain.
fn has_text(cells: &[Value]) -> bool
    ensures { IsTrue result ↔ Any (λ cell. is_text cell ≡ true) cells.now }
{
    cells.iter().any(is_text)
}

/// Whether a cell is a text.
fn is_text(cell: &Value) -> bool
    ensures { result ≡ is_text cell.now }
{
    matches!(cell, Value::Text(_))
}

/// Writes a cell's text so that it ends there, and answers where it starts; none where it is a text.
fn put_cell(bytes: &mut [u8], end: usize, cell: &Value) -> Option<usize>
    requires room { 20 ≤ end }
    requires inside { end ≤ length bytes.old }
    ensures is { IfSome result (λ start. drop start bytes.new ≡ cell_text cell.now ++ drop end bytes.old) }
    ensures most { IfSome result (λ start. end ≤ start + 20) }
    ensures before { IfSome result (λ start. start ≤ end) }
{
    match cell {
        Value::Null => Some(put_word(bytes, end, b"null")),
        Value::Bool(true) => Some(put_word(bytes, end, b"true")),
        Value::Bool(false) => Some(put_word(bytes, end, b"false")),
        Value::Int(number) => Some(put_int(bytes, end, *number)),
        Value::Text(_) => None,
    }
}

/// Writes a word so that it ends there, and answers where it starts.
fn put_word(bytes: &mut [u8], end: usize, word: &[u8]) -> usize
    requires room { length word.now ≤ end }
    requires inside { end ≤ length bytes.old }
    ensures is { drop result bytes.new ≡ word.now ++ drop end bytes.old }
    ensures start { result + length word.now ≡ end }
{
    let start = end - word.len();
    bytes[start..end].copy_from_slice(word);
    start
}

/// Writes a number so that it ends there, and answers where it starts.
fn put_int(bytes: &mut [u8], end: usize, number: i64) -> usize
    requires room { 20 ≤ end }
    requires inside { end ≤ length bytes.old }
    ensures is { drop result bytes.new ≡ signed_decimal number ++ drop end bytes.old }
    ensures most { end ≤ result + 20 }
    ensures before { result ≤ end }
{
    let start = write_digits(number.unsigned_abs(), bytes, end);
    // The sign is always written and mostly not kept: a branch on it would be foretold wrong every other time.
    bytes[start - 1] = b'-';
    if number < 0 { start - 1 } else { start }
}

/// Writes a byte so that it ends there, and answers where it stands.
fn put_byte(bytes: &mut [u8], end: usize, byte: u8) -> usize
    requires room { 1 ≤ end }
    requires inside { end ≤ length bytes.old }
    ensures is { drop result bytes.new ≡ byte ∷ drop end bytes.old }
    ensures start { result + 1 ≡ end }
{
    let start = end - 1;
    bytes[start] = byte;
    start
}
