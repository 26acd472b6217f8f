//! A sink of a case.

use anyhow::{Result, bail, ensure};
use std::alloc::{AllocError, Global};
use std::mem;
use vx_host::MemorySink;

/// How a sink takes bytes, and what it is wanted to have taken at the end.
#[derive(Drop)]
pub struct Side {
    /// The most bytes that it takes at a time.
    most: u32,
    /// The writes that fail, numbered from 0.
    fails: Vec<u64>,
    pub wanted: Vec<u8>,
}

impl Side {
    /// A sink that takes all, fails never and is wanted to have taken nothing.
    pub fn new(alloc: Global) -> Side {
        Side {
            most: u32::MAX,
            fails: Vec::new(alloc),
            wanted: Vec::new(alloc),
        }
    }

    /// Adds a fact: what stands behind the sink's name in a line's word, and the line's rest.
    pub fn add(&mut self, what: &str, rest: &str) -> Result<()> {
        match what {
            "" => add_line(&mut self.wanted, rest)?,
            "-end" => self.wanted.extend_from_slice(rest.as_bytes())?,
            "-more" => add_many(&mut self.wanted, rest)?,
            "-fails" => self.fails.push(rest.parse::<u64>()?)?,
            "-takes" => self.most = at_least_one(rest)?,
            _ => bail!("unknown word"),
        }
        Ok(())
    }

    /// The sink itself. The writes that fail are moved into it.
    pub fn sink(&mut self, alloc: Global) -> MemorySink {
        let fails = mem::replace(&mut self.fails, Vec::new(alloc));
        MemorySink::new(alloc, self.most.max(1), fails)
    }
}

fn add_line(bytes: &mut Vec<u8>, text: &str) -> Result<(), AllocError> {
    bytes.extend_from_slice(text.as_bytes())?;
    bytes.push(b'\n')?;
    Ok(())
}

/// Adds a text so many times; the rest of the line is the number and the text.
pub fn add_many(bytes: &mut Vec<u8>, rest: &str) -> Result<()> {
    let (count, text) = part(rest);
    for _ in 0..count.parse::<u32>()? {
        bytes.extend_from_slice(text.as_bytes())?;
    }
    Ok(())
}

fn at_least_one(rest: &str) -> Result<u32> {
    let count = rest.parse::<u32>()?;
    ensure!(count > 0, "a sink takes a byte at least");
    Ok(count)
}

/// What stands before the first blank and what stands behind it.
pub fn part(text: &str) -> (&str, &str) {
    text.split_once(' ').unwrap_or((text, ""))
}
