//! A page of rows of two ints and a text, and a round over it.

use std::alloc::{AllocError, Global};
use vx_page::{PageError, Slot, read_page, write_page};
use vx_value::Kind;

/// So many rows have 4,350 bytes.
pub const ROWS: u32 = 150;

const SHAPE: [Slot; 3] = [
    Slot::Value(Kind::Int),
    Slot::Value(Kind::Int),
    Slot::Value(Kind::Text),
];

/// The page of the rows (0, 1000, "a text.."), (1, 1001, ..), and so on.
pub fn first_page(alloc: Global) -> Result<Vec<u8>, AllocError> {
    let mut page = Vec::with_capacity(alloc, 8 + 29 * 150)?;
    page.extend_from_slice(&ROWS.to_be_bytes())?;
    page.extend_from_slice(&(29 * ROWS).to_be_bytes())?;
    for row in 0..ROWS {
        page.extend_from_slice(&[2, 0, 0, 0, 0])?;
        page.extend_from_slice(&row.to_be_bytes())?;
        page.extend_from_slice(&[2, 0, 0, 0, 0])?;
        page.extend_from_slice(&(1_000 + row).to_be_bytes())?;
        page.extend_from_slice(&[3, 0, 8])?;
        page.extend_from_slice(b"a text..")?;
    }
    Ok(page)
}

/// Reads a page and writes its rows again. Answers the new page and how many rows it has.
pub fn round(alloc: Global, page: &[u8]) -> Result<(Vec<u8>, usize), PageError> {
    let rows = read_page(alloc, page, &SHAPE)?;
    let written = write_page(alloc, &rows, &SHAPE)?;
    Ok((written, rows.len()))
}
