//! Two jobs under one capacity, as a run of the world: what one no longer uses goes to the other. It prints the log
//! and what is free. Its tests are the worked cases of pools, the arbitrator and the world.
#![tactic(auto)]

#[cfg(test)]
mod tests;
mod worlds;

use vx_world::{ApplyError, Event};
use worlds::{TOTAL, told, world};

/// Each job is granted what it asks for, one gives up 4,096 bytes that it no longer uses, and both end.
const SHARED: [Event; 15] = [
    Event::Begin { job: 0, hint: 0 },
    Event::Grant,
    Event::Batch { job: 0, hint: 0 },
    Event::Begin { job: 1, hint: 0 },
    Event::Grant,
    Event::Batch { job: 1, hint: 0 },
    Event::Batch { job: 0, hint: 0 },
    Event::Begin { job: 1, hint: 0 },
    Event::Shrink { job: 0 },
    Event::Grant,
    Event::Batch { job: 1, hint: 0 },
    Event::Batch { job: 0, hint: 0 },
    Event::Retire { job: 0 },
    Event::Batch { job: 1, hint: 0 },
    Event::Retire { job: 1 },
];

fn main(rt: HostRuntime) -> Result<(), anyhow::Error> {
    let Ok(mut shared) = world(rt.alloc(), &[4096, 0], false, &[61_440, 65_536]) else {
        println!(rt; "no world of {TOTAL} bytes")?;
        return Ok(());
    };
    let mut replies = Vec::new(rt.alloc());
    let said = match shared.apply_all(&SHARED, &mut replies) {
        Ok(()) => "made",
        Err(ApplyError::Refused) => "refused",
        Err(ApplyError::NoMemory) => "without memory",
    };
    println!(rt; "{} events {said}", replies.len())?;
    for reply in &replies {
        println!(rt; "{reply:?}")?;
    }
    for entry in shared.arb().log() {
        let (change, job, amount) = told(entry);
        println!(rt; "{change} job={job} amount={amount}")?;
    }
    println!(rt; "free {}", shared.arb().free())?;
    Ok(())
}
