//! Fills a container with a million rows, reads them, compares their keys, and erases and adds them again, each so
//! many times, and prints what was met: rows in memory alone, for `bench/rows` to measure.
#![tactic(auto)]

mod columns;
mod filling;
mod reading;
mod rounds;

use anyhow::{Context, Result};
use columns::Table;
use rounds::Rounds;
use std::env;

const COUNT: &str = "no count of fills, reads, compares and changes";

fn main(rt: HostRuntime) -> Result<()> {
    let mut words = env::args(&rt)?.skip(1);
    let name = words.next().context("no table")?;
    let fills: u32 = words.next().context(COUNT)?.parse().context(COUNT)?;
    let reads: u32 = words.next().context(COUNT)?.parse().context(COUNT)?;
    let compares: u32 = words.next().context(COUNT)?.parse().context(COUNT)?;
    let changes: u32 = words.next().context(COUNT)?.parse().context(COUNT)?;
    let table = Table::of(&name).context("no table")?;
    let mut rounds = Rounds::new(rt.alloc(), table)?;
    rounds.fill(fills)?;
    let sum = rounds.read(reads)?;
    let equal = rounds.compare(compares);
    rounds.change(changes)?;
    println!(rt;
        "sum {sum} equal {equal} taken {} given {}",
        rounds.taken(),
        rounds.given()
    )?;
    Ok(())
}
