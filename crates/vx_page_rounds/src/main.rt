//! Reads pages and writes them again, and prints how many rows and bytes that were: pages alone, for
//! `bench/pages` to measure.
#![tactic(auto)]

mod pages;

use anyhow::{Context, Result};
use pages::{first_page, round};
use std::env;

fn main(rt: HostRuntime) -> Result<()> {
    let word = env::args(&rt)?.nth(1).context("no number of pages")?;
    let count: u64 = word.parse().context("no number of pages")?;
    let mut page = first_page(rt.alloc())?;
    let mut rows: u64 = 0;
    let mut bytes: u64 = 0;
    for _ in 0..count {
        let (written, more) = round(rt.alloc(), &page)?;
        page = written;
        rows = rows.saturating_add(more as u64);
        bytes = bytes.saturating_add(page.len() as u64);
    }
    println!(rt; "rows {rows} bytes {bytes}")?;
    Ok(())
}
