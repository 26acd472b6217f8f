//! Bytes that are a page and bytes that are bad at a place, as `pages.txt` has them: it reads each as rows, writes the
//! rows again, and prints each that came out otherwise than it says, and how many there were.
#![tactic(auto)]

#[cfg(test)]
mod lying;
#[cfg(test)]
mod tests;

use anyhow::{Context, Result};
use std::alloc::Global;
use std::fs;
use vx_page::{PageError, Slot, read_page, write_page};
use vx_value::Kind;

const CASES: &str = "pages.txt";

fn main(rt: HostRuntime) -> Result<()> {
    let text = fs::read_to_string(&rt, CASES)?;
    let (mut count, mut differ) = (0u32, 0u32);
    for line in text.as_str().lines() {
        if line.is_empty() || line.starts_with('#') {
            continue;
        }
        let said = said(rt.alloc(), line)?;
        count = count.saturating_add(1);
        if said.as_str() != wanted(line) {
            differ = differ.saturating_add(1);
            println!(rt; "{line}: {said}")?;
        }
    }
    println!(rt; "{count} pages, {differ} differ")?;
    Ok(())
}

/// What a line says of its bytes: all after its second word.
fn wanted(line: &str) -> &str {
    let rest = line.split_once(' ').map_or("", |parts| parts.1);
    rest.split_once(' ').map_or("", |parts| parts.1)
}

/// What the bytes of a line are, as a page of rows whose slots its first word names by a letter each.
fn said(alloc: Global, line: &str) -> Result<String> {
    let mut words = line.split(' ');
    let slots = slots_of(alloc, words.next().context("no slots")?)?;
    let digits = words.next().context("no bytes")?;
    let bytes = hex::decode(alloc, digits)?;
    match read_page(alloc, &bytes, &slots) {
        Err(PageError::Bad { at }) => Ok(format!(in alloc; "bad {at}")?),
        Err(error) => Err(error.into()),
        Ok(rows) => {
            let written = write_page(alloc, &rows, &slots)?;
            if written.as_slice() == bytes.as_slice() {
                return Ok(format!(in alloc; "{} rows", rows.len())?);
            }
            Ok(format!(in alloc; "rows that are written otherwise")?)
        }
    }
}

/// A slot for each letter of a word, and none for `-`.
fn slots_of(alloc: Global, word: &str) -> Result<Vec<Slot>> {
    let mut slots = Vec::new(alloc);
    for letter in word.bytes() {
        match letter {
            b'f' => slots.push(Slot::Flag)?,
            b'b' => slots.push(Slot::Value(Kind::Bool))?,
            b'i' => slots.push(Slot::Value(Kind::Int))?,
            b't' => slots.push(Slot::Value(Kind::Text))?,
            b'w' => slots.push(Slot::Wide)?,
            _ => {}
        }
    }
    Ok(slots)
}
