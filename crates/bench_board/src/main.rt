//! Claims, posts or peeks over and over on one board, on one thread or on four: the board alone, for
//! `bench/board` to measure.
//!
//! `bench_board KIND COUNT THREADS`, where KIND is `claim`, `post` or `peek`. It prints how many claims were
//! won, and what a peek answers at the end.
#![tactic(auto)]

mod rounds;

use anyhow::{Context, Result};
use rounds::{Kind, run, run_in_four};
use std::env;
use vx_board::Board;

const JOBS: u32 = 64;

const TOTAL: u64 = 1_048_576;

fn kind_of(word: &str) -> Option<Kind> {
    if word == "claim" {
        return Some(Kind::Claim);
    }
    if word == "post" {
        return Some(Kind::Post);
    }
    if word == "peek" {
        return Some(Kind::Peek);
    }
    None
}

fn main(rt: HostRuntime) -> Result<()> {
    let mut words = env::args(&rt)?.skip(1);
    let kind = kind_of(&words.next().context("no kind")?).context("an unknown kind")?;
    let count: u64 = words
        .next()
        .context("no count")?
        .parse()
        .context("no count")?;
    let threads = words.next().context("no number of threads")?;
    let (board, seat) = Board::new(rt.alloc(), JOBS, TOTAL)?;
    let (won, mut seat) = if threads.as_str() == "4" {
        run_in_four(&rt, &board, seat, kind, count)
    } else {
        run(&board, seat, kind, count)
    };
    println!(rt; "won {won} peak {}", board.peek(&mut seat, 0))?;
    Ok(())
}
