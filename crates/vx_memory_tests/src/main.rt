//! The longest text in counted memory: it prints how many blocks and bytes it takes. Its tests are the worked cases of
//! chunks, texts and records.
#![tactic(auto)]

#[cfg(test)]
mod tests;

use vx_arena::Arena;

fn main(rt: HostRuntime) -> Result<(), anyhow::Error> {
    let mut arena = Arena::new(rt.alloc());
    let text = Vec::from_elem(rt.alloc(), 7u8, 65_535)?;
    arena.take_text(&text)?;
    println!(rt; "{} blocks, {} bytes", arena.taken(), arena.held())?;
    Ok(())
}
