//! Key bytes, hashes, orders, copies and lines of text, each printed, to be compared with what was written down by hand
//! and with published vectors.
#![tactic(auto)]

mod copies;
mod orders;
mod rows;

use anyhow::Result;
use rows::worked_row;
use std::alloc::Global;
use std::fs;
use vx_value::{hash_key, hash_value, key_bytes};

fn main(rt: HostRuntime) -> Result<()> {
    let alloc = rt.alloc();
    print!(rt; "{}", keys(alloc)?)?;
    print!(rt; "{}", hashes(alloc)?)?;
    print!(rt; "{}", orders::of_values(alloc)?)?;
    print!(rt; "{}", orders::of_nulls(alloc)?)?;
    print!(rt; "{}", orders::of_rows(alloc)?)?;
    print!(rt; "{}", copies::of_rows(alloc)?)?;
    let plan = fs::read(&rt, "plan.json")?;
    print!(rt; "{}", copies::of_plans(alloc, plan.as_slice())?)?;
    print!(rt; "{}", copies::lines(alloc)?)?;
    Ok(())
}

/// The key bytes of a row over all its columns, and over two of them in another order.
fn keys(alloc: Global) -> Result<String> {
    let row = worked_row(alloc)?;
    let all = hex::encode(alloc, key_bytes(alloc, &row, &[0, 1, 2, 3])?)?;
    let two = hex::encode(alloc, key_bytes(alloc, &row, &[3, 2])?)?;
    Ok(format!(in alloc; "key {all}\nkey {two}\n")?)
}

/// Hashes of bytes, from the tables of the FNV's authors, and of a row value by value.
fn hashes(alloc: Global) -> Result<String> {
    let mut text = String::new(alloc);
    for bytes in [
        b"".as_slice(),
        b"\0",
        b"a",
        b"foobar",
        b"chongo was here!\n",
    ] {
        text.push_str(format!(in alloc; "hash {:016x}\n", hash_key(bytes))?.as_str())?;
    }
    let row = worked_row(alloc)?;
    let mut hash = hash_key(&[]);
    for cell in row.cells() {
        hash = hash_value(hash, cell.as_ref());
    }
    let whole = hash_key(key_bytes(alloc, &row, &[0, 1, 2, 3])?.as_slice());
    let is_same = hash == whole;
    text.push_str(format!(in alloc; "value by value {is_same}\n")?.as_str())?;
    Ok(text)
}
