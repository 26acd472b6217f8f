//! The bytes of a page of rows.
ghost use Rattle.std.specs.Prelude.{◌≡◌, ◌<◌, ◌≤◌, ◌^◌, ◌++◌, ◌∷◌, List, length, All, IfOk, OnOk, Ok, FitsSigned};
ghost use Rattle.std.specs.Int.{bytes_high_first, cast_unsigned, w128};
ghost use Rattle.vx_value.specs.Value.{owned, IsLawful};
ghost use Rattle.vx_value.specs.KeyBytes.{value_bytes};
ghost use Rattle.vx_page.specs.Page.{HasShape, IsLawfulCell, IsPageOf, cell_bytes, row_bytes, body, page, most_of_row};
ghost use Rattle.vx_page.specs.declared.cell.Slot.{Slot};
ghost use Rattle.vx_page.specs.Reading.{rows_of};

use crate::cell::{Cell, PageRow, Slot};
use std::alloc::{AllocError, Global};
use vx_value::ValueRef;

/// The one page of these rows.
pub fn write_page(alloc: Global, rows: &[PageRow], shape: &[Slot]) -> Result<Vec<u8>, AllocError>
    requires shape { All (HasShape shape.now) rows.now }
    requires rows { length rows.now < 2 ^ 32 }
    requires body { length (body rows.now) < 2 ^ 32 }
    ensures ok { IfOk result (λ bytes. bytes.items ≡ page rows.now) }

    // It is their page, of this shape, and read as these rows.
    ensures page { IfOk result (λ bytes. IsPageOf shape.now rows.now bytes.items) }
    ensures read { IfOk result (λ bytes. rows_of shape.now bytes.items ≡ Ok rows.now) }
{
    let size = body_len(rows);
    let mut bytes = Vec::with_capacity(alloc, 8 + size)?;
    bytes.extend_from_slice(&(rows.len() as u32).to_be_bytes())?;
    bytes.extend_from_slice(&(size as u32).to_be_bytes())?;
    for row in rows {
        push_row(&mut bytes, row)?;
    }
    Ok(bytes)
}

/// How many bytes the body has.
fn body_len(rows: &[PageRow]) -> usize
    requires { length (body rows.now) < 2 ^ 32 }
    ensures { result ≡ length (body rows.now) }
{
    let mut size = 0;
    for row in rows {
        size += row_len(row);
    }
    size
}

/// How many bytes a row has on a page. The slots of its shape bound it.
pub fn row_len(row: &PageRow) -> usize
    requires { length (row_bytes row.now) < 2 ^ 32 }
    ensures len { result ≡ length (row_bytes row.now) }
    ensures within { (shape : List Slot) → HasShape shape row.now → result ≤ most_of_row shape }
{
    let mut size = 0;
    for cell in row.cells() {
        size += cell_len(cell);
    }
    size
}

fn cell_len(cell: &Cell) -> usize
    ensures len { result ≡ length (cell_bytes cell.now) }
    ensures lawful { IsLawfulCell cell.now }
{
    match cell {
        Cell::Flag(_) => 1,
        Cell::Value(value) => value_len(value.as_ref()),
        Cell::Wide(n) => wide_len(*n),
    }
}

fn wide_len(n: i128) -> usize
    ensures len { result ≡ 17 }
    ensures lawful { FitsSigned w128 n }
{
    let _tag_and_bytes = n;
    17
}

/// How many bytes a value has on a page.
pub fn value_len(value: ValueRef<'_>) -> usize
    requires { IsLawful (owned value) }
    ensures { result ≡ length (value_bytes (owned value.entry)) }
{
    match value {
        ValueRef::Null => 1,
        ValueRef::Bool(_) => 2,
        ValueRef::Int(_) => 9,
        ValueRef::Text(text) => 3 + text.len(),
    }
}

fn push_row(bytes: &mut Vec<u8>, row: &PageRow) -> Result<(), AllocError>
    ensures ok { OnOk result (bytes.new.items ≡ bytes.old.items ++ row_bytes row.now) }
    ensures lawful { OnOk result (All IsLawfulCell row.now) }
{
    for cell in row.cells() {
        push_cell(bytes, cell)?;
    }
    Ok(())
}

fn push_cell(bytes: &mut Vec<u8>, cell: &Cell) -> Result<(), AllocError>
    ensures ok { OnOk result (bytes.new.items ≡ bytes.old.items ++ cell_bytes cell.now) }
    ensures lawful { IsLawfulCell cell.now }
{
    match cell {
        Cell::Flag(b) => bytes.extend_from_slice(&[u8::from(*b)]),
        Cell::Value(value) => push_value(bytes, value.as_ref()),
        Cell::Wide(n) => push_wide(bytes, *n),
    }
}

fn push_wide(bytes: &mut Vec<u8>, n: i128) -> Result<(), AllocError>
    ensures ok { OnOk result (bytes.new.items ≡ bytes.old.items ++ 4 ∷ bytes_high_first 16 (cast_unsigned w128 n)) }
    ensures lawful { FitsSigned w128 n }
{
    bytes.extend_from_slice(&[4])?;
    bytes.extend_from_slice(&n.to_be_bytes())
}

fn push_value(bytes: &mut Vec<u8>, value: ValueRef<'_>) -> Result<(), AllocError>
    requires { IsLawful (owned value) }
    ensures { OnOk result (bytes.new.items ≡ bytes.old.items ++ value_bytes (owned value.entry)) }
{
    match value {
        ValueRef::Null => bytes.extend_from_slice(&[0]),
        ValueRef::Bool(b) => bytes.extend_from_slice(&[1, u8::from(b)]),
        ValueRef::Int(n) => {
            bytes.extend_from_slice(&[2])?;
            bytes.extend_from_slice(&n.to_be_bytes())
        }
        ValueRef::Text(text) => {
            bytes.extend_from_slice(&[3])?;
            bytes.extend_from_slice(&(text.len() as u16).to_be_bytes())?;
            bytes.extend_from_slice(text)
        }
    }
}
