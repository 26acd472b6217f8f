//! A row container beside a plain list, over a thousand adds and erases that look random: it prints how far the two
//! differ. Its tests are the worked cases of rows.
#![tactic(auto)]

mod beside;
#[cfg(test)]
mod tests;

use beside::Beside;
use std::alloc::{AllocError, Global};

const TURNS: u32 = 1_000;

fn main(rt: HostRuntime) -> Result<(), anyhow::Error> {
    let mut both = Beside::new(rt.alloc())?;
    let apart = turns_apart(rt.alloc(), &mut both)?;
    println!(rt; "{TURNS} adds and erases, {apart} told apart")?;
    println!(rt; "{} rows differ", both.differ(rt.alloc())?)?;
    let arena = both.rows.arena();
    let live = arena.taken().wrapping_sub(arena.given());
    println!(rt;
        "{} blocks more than the texts have",
        live.wrapping_sub(both.blocks())
    )?;
    let left = erased_apart(&mut both);
    let arena = both.rows.arena();
    let live = arena.taken().wrapping_sub(arena.given());
    println!(rt;
        "{left} erases told apart, {live} blocks and {} rows left",
        both.rows.live(rt.alloc())?.len()
    )?;
    Ok(())
}

/// Adds and erases rows in both, and counts the turns in which they answer differently.
fn turns_apart(alloc: Global, both: &mut Beside) -> Result<u32, AllocError> {
    let (mut state, mut apart) = (1u32, 0u32);
    for _ in 0..TURNS {
        state = rolled(state);
        let roll = state >> 8;
        let agree = if roll % 2 == 0 {
            both.add(alloc, roll / 2)?
        } else {
            both.erase(roll / 2 % 256)
        };
        if !agree {
            apart = apart.saturating_add(1);
        }
    }
    Ok(apart)
}

/// Erases every number from both, and counts those at which they answer differently.
fn erased_apart(both: &mut Beside) -> u32 {
    let mut apart: u32 = 0;
    for number in 0..TURNS {
        if !both.erase(number) {
            apart = apart.saturating_add(1);
        }
    }
    apart
}

/// The next of a row of numbers that look random (a linear congruential generator).
fn rolled(state: u32) -> u32 {
    state.wrapping_mul(1_664_525).wrapping_add(1_013_904_223)
}
