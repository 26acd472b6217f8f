//! Reads the JSON file that its one word names, drops the value, and prints how many members it has: the
//! JSON reader alone, for `bench/first_path` to compare with.
#![tactic(auto)]

use anyhow::{Context, Result};
use serde_json::Value;
use std::{env, fs};

fn main(rt: HostRuntime) -> Result<()> {
    let name = env::args(&rt)?.nth(1).context("no file is named")?;
    let bytes = fs::read(&rt, name.as_str())?;
    let value = Value::from_slice(rt.alloc(), bytes.as_slice())?;
    let members = value.as_object().map_or(0, |object| object.len());
    println!(rt; "{members}")?;
    Ok(())
}
