//! Evaluates an expression over a table again and again, and prints what it gives there: evaluation alone,
//! or one kernel of it, for `bench/eval` to measure.
#![tactic(auto)]

mod cases;
mod draws;
mod kernels;
mod parts;
mod rounds;
mod tally;

use anyhow::{Context, Result, bail};
use cases::expression;
use kernels::{Kernel, first_kernel_turn, kernel_of, kernel_turns, pairs};
use parts::{Part, parts};
use rounds::{first_turn, turns};
use std::alloc::Global;
use std::env;
use tally::Tally;

const SIZE: &str = "no size of a batch";

const TURNS: &str = "no number of turns";

fn main(rt: HostRuntime) -> Result<()> {
    let mut words = env::args(&rt)?.skip(1);
    let name = words.next().context("no expression")?;
    let size: u32 = words.next().context(SIZE)?.parse().context(SIZE)?;
    let count: u64 = words.next().context(TURNS)?.parse().context(TURNS)?;
    if size == 0 {
        bail!("{SIZE}");
    }
    let parts = parts(rt.alloc(), size)?;
    let (first, rows) = match kernel_of(&name) {
        Some(kernel) => by_kernel(rt.alloc(), kernel, &parts, count)?,
        None => by_expression(rt.alloc(), &name, &parts, count)?,
    };
    println!(rt;
        "{name}: {} values, {} nulls, {} faults, sum {}; {rows} rows",
        first.values, first.nulls, first.faults, first.sum
    )?;
    Ok(())
}

fn by_expression(alloc: Global, name: &str, parts: &[Part], count: u64) -> Result<(Tally, u64)> {
    let e = expression(alloc, name)?.context("no expression")?;
    let first = first_turn(alloc, &e, parts)?;
    Ok((first, turns(alloc, &e, parts, count)?))
}

fn by_kernel(alloc: Global, kernel: Kernel, parts: &[Part], count: u64) -> Result<(Tally, u64)> {
    let pairs = pairs(alloc, parts)?;
    let first = first_kernel_turn(alloc, kernel, &pairs)?;
    Ok((first, kernel_turns(alloc, kernel, &pairs, count)?))
}
