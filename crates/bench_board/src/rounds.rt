//! The rounds that are measured.
ghost use Rattle.std.specs.Prelude.{◌≡◌, ◌≤◌};
ghost use Rattle.vx_board.specs.Seats.{IsSeatOf};
ghost use Rattle.bench_board.specs.Boards.{IsLarge};

use std::thread::{Threads, join};
use vx_board::{Board, Seat};

/// Which call is made.
#[derive(Clone, Copy)]
pub enum Kind {
    Claim,
    Post,
    Peek,
}

/// Makes so many calls of a kind, and counts the claims that were won.
pub fn run(board: &Board, mut seat: Seat, kind: Kind, count: u64) -> (u64, Seat)
    requires board { IsLarge board.now }
    requires seat { IsSeatOf board.now seat }
    ensures won { result.0 ≤ count }
    ensures seat { IsSeatOf board.now result.1 }
{
    let mut won = 0;
    for turn in 0..count {
        if round(board, &mut seat, kind, turn) {
            won += 1;
        }
    }
    (won, seat)
}

// One call, at the next of 64 jobs for a claim and at the first job for the others. True for a claim that is won.
fn round(board: &Board, seat: &mut Seat, kind: Kind, turn: u64) -> bool
    requires board { IsLarge board.now }
    requires seat { IsSeatOf board.now seat.old }
    ensures { IsSeatOf board.now seat.new }
{
    match kind {
        Kind::Claim => board.claim(seat, (turn % 64) as u32),
        Kind::Post => {
            board.post(seat, 0, turn % 1_000_003);
            false
        }
        Kind::Peek => board.peek(seat, 0) > 1_048_576,
    }
}

fn run_in_two<R: Threads + Sync>(
    rt: &R,
    board: &Board,
    mut seat: Seat,
    kind: Kind,
    count: u64,
) -> (u64, Seat)
    requires board { IsLarge board.now }
    requires seat { IsSeatOf board.now seat }
    ensures seat { IsSeatOf board.now result.1 }
{
    let second = board.split(&mut seat);
    let ((won, mut seat), (other, second)) = join(
        rt,
        move || -> (u64, Seat)
            requires { IsLarge board.now × IsSeatOf board.now seat }
            ensures { IsSeatOf board.entry.now result.1 }
        { run(board, seat, kind, count) },
        move || -> (u64, Seat)
            requires { IsLarge board.now × IsSeatOf board.now second }
            ensures { IsSeatOf board.entry.now result.1 }
        { run(board, second, kind, count) },
    );
    board.join(&mut seat, second);
    (won.saturating_add(other), seat)
}

/// The same on four threads, each of which makes so many calls.
pub fn run_in_four<R: Threads + Sync>(
    rt: &R,
    board: &Board,
    mut seat: Seat,
    kind: Kind,
    count: u64,
) -> (u64, Seat)
    requires board { IsLarge board.now }
    requires seat { IsSeatOf board.now seat }
    ensures seat { IsSeatOf board.now result.1 }
{
    let second = board.split(&mut seat);
    let ((won, mut seat), (other, second)) = join(
        rt,
        move || -> (u64, Seat)
            requires { IsLarge board.now × IsSeatOf board.now seat }
            ensures { IsSeatOf board.entry.now result.1 }
        { run_in_two(rt, board, seat, kind, count) },
        move || -> (u64, Seat)
            requires { IsLarge board.now × IsSeatOf board.now second }
            ensures { IsSeatOf board.entry.now result.1 }
        { run_in_two(rt, board, second, kind, count) },
    );
    board.join(&mut seat, second);
    (won.saturating_add(other), seat)
}
