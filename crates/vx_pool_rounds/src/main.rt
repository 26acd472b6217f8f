//! Reserves, takes, settles and gives back over and over on a pool tree of 64 nodes, and prints how often
//! there was no room and the peak: the pool alone, for `bench/pool` to measure.
#![tactic(auto)]

mod forest;
mod rounds;
#[cfg(test)]
mod tests;

use anyhow::{Context, Result};
use forest::parents;
use rounds::run;
use std::env;
use std::marker::Brand;
use vx_pool::{Share, Tree};

const UNIT: u64 = 4_096;

const CAPACITY: u64 = 1_073_741_824;

fn main(rt: HostRuntime) -> Result<()> {
    let word = env::args(&rt)?.nth(1).context("no number of rounds")?;
    let count: u64 = word.parse().context("no number of rounds")?;
    let mut tree = Tree::<Brand>::new(rt.alloc(), UNIT, &parents(rt.alloc())?)?;
    tree.raise(Share::whole(CAPACITY));
    let refused = run(&mut tree, count);
    println!(rt; "rounds {count} refused {refused} peak {}", tree.peak())?;
    Ok(())
}
