//! Runs each case of the case files in a folder through the top call over a host in memory, and prints those that
//! differ from what they want.
//!
//!     folder · case files · cases · a run of each · what differs
//!
//! The folder is the one word, and without a word the current one. README.md has the words of a case file. The
//! status is 0 where there is a case and none differs.
#![tactic(auto)]

mod case;
mod files;
mod runs;
mod side;
#[cfg(test)]
mod tests;

use anyhow::{Context, Result, ensure};
use files::case_files;
use runs::{Tally, run_text};
use std::{env, fs};

fn main(rt: HostRuntime) -> Result<()> {
    let word = env::args(&rt)?.nth(1);
    let folder = match &word {
        Some(word) => word.as_str(),
        None => ".",
    };
    let mut tally = Tally::default();
    for path in case_files(&rt, folder)? {
        let text = fs::read_to_string(&rt, path.as_str())?;
        run_text(&rt, path.as_str(), text.as_str(), &mut tally)?;
    }
    let Tally { cases, differ } = tally;
    println!(rt; "{cases} cases, {differ} differ")?;
    ensure!(cases > 0, "no case was run");
    ensure!(differ == 0, "cases differ");
    Ok(())
}
