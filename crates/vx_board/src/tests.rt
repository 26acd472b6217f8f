//! What no clause says of a board: that its words hold what was posted, and that threads can share it.
ghost use Rattle.std.specs.Prelude.{◌≡◌, ◌≤◌, IfOk};
ghost use Rattle.vx_board.specs.Seats.{Size, IsSeatOf};
ghost use Rattle.vx_board.specs.TestBoards.{IsLarge};

use crate::{Board, Seat};
use std::alloc::{AllocError, Global};
use std::test::Fail;
use std::thread::{Threads, join};

const JOBS: u32 = 1_000;

const TURNS: u64 = 100_000;

// What a thread did: its seat, the jobs that it drew, and whether no peek fell.
#[derive(Drop)]
struct Work {
    seat: Seat,
    drawn: Vec<u32>,
    rises: bool,
}

fn posted(board: &Board, seat: &mut Seat, job: u32, peak: u64) -> u64
    requires board { IsLarge board.now }
    requires seat { IsSeatOf board.now seat.old }
    requires job { job ≤ 9 }
    requires peak { peak ≤ 10000 }
    ensures { IsSeatOf board.now seat.new }
{
    board.post(seat, job, peak);
    board.peek(seat, job)
}

#[test]
fn one_seat_posts_peeks_and_claims(rt: HostRuntime) -> Result<(), Fail> {
    let (board, mut seat) = Board::new(rt.alloc(), JOBS, 10_000)?;
    assert_eq!(rt;
        posted(&board, &mut seat, 1, 4_096),
        4_096,
        "the first post"
    );
    assert_eq!(rt; posted(&board, &mut seat, 1, 1_024), 4_096, "a lower post");
    assert_eq!(rt;
        posted(&board, &mut seat, 2, 10_000),
        10_000,
        "the whole total"
    );
    assert!(rt;
        board.claim(&mut seat, 1) && !board.claim(&mut seat, 1),
        "a second claim"
    );
    let mut other = board.split(&mut seat);
    assert_eq!(rt;
        posted(&board, &mut other, 1, 5_000),
        5_000,
        "another seat's post"
    );
    assert!(rt;
        !board.claim(&mut other, 1) && board.claim(&mut other, 0),
        "another seat's claims"
    );
    board.join(&mut seat, other);
    assert_eq!(rt; board.peek(&mut seat, 1), 5_000, "what the other posted");
    Ok(())
}

// Claims each job, then posts and peeks.
fn work_all(alloc: Global, board: &Board, mut seat: Seat) -> Result<Work, AllocError>
    requires board { IsLarge board.now }
    requires seat { IsSeatOf board.now seat }
    ensures { IfOk result (λ done. IsSeatOf board.now done.seat) }
{
    let mut drawn = Vec::new(alloc);
    for job in 0..JOBS {
        if board.claim(&mut seat, job) {
            drawn.push(job)?;
        }
    }
    let mut last = 0;
    let mut rises = true;
    for turn in 0..TURNS {
        board.post(&mut seat, 3, turn % 9_973);
        let now = board.peek(&mut seat, 3);
        rises &= last <= now;
        last = now;
    }
    Ok(Work { seat, drawn, rises })
}

fn gathered(board: &Board, work: Work, other: Work) -> Result<Work, AllocError>
    requires work { IsSeatOf board.now work.seat }
    requires other { IsSeatOf board.now other.seat }
    ensures { IfOk result (λ done. IsSeatOf board.now done.seat) }
{
    let Work {
        mut seat,
        mut drawn,
        rises,
    } = work;
    drawn.extend_from_slice(&other.drawn)?;
    let rises = rises && other.rises;
    board.join(&mut seat, other.seat);
    Ok(Work { seat, drawn, rises })
}

fn in_two<R: Threads + Sync>(
    rt: &R,
    alloc: Global,
    board: &Board,
    first: Seat,
    second: Seat,
) -> Result<Work, AllocError>
    requires board { IsLarge board.now }
    requires first { IsSeatOf board.now first }
    requires second { IsSeatOf board.now second }
    ensures { IfOk result (λ done. IsSeatOf board.now done.seat) }
{
    let (one, other) = join(
        rt,
        move || -> Result<Work, AllocError>
            requires { IsLarge board.now × IsSeatOf board.now first }
            ensures { IfOk result (λ done. IsSeatOf board.entry.now done.seat) }
        { work_all(alloc, board, first) },
        move || -> Result<Work, AllocError>
            requires { IsLarge board.now × IsSeatOf board.now second }
            ensures { IfOk result (λ done. IsSeatOf board.entry.now done.seat) }
        { work_all(alloc, board, second) },
    );
    gathered(board, one?, other?)
}

fn in_four<R: Threads + Sync>(
    rt: &R,
    alloc: Global,
    board: &Board,
    mut first: Seat,
) -> Result<Work, AllocError>
    requires board { IsLarge board.now }
    requires seat { IsSeatOf board.now first }
{
    let second = board.split(&mut first);
    let third = board.split(&mut first);
    let fourth = board.split(&mut first);
    let (one, other) = join(
        rt,
        move || -> Result<Work, AllocError>
            requires { IsLarge board.now × IsSeatOf board.now first × IsSeatOf board.now second }
            ensures { IfOk result (λ done. IsSeatOf board.entry.now done.seat) }
        { in_two(rt, alloc, board, first, second) },
        move || -> Result<Work, AllocError>
            requires { IsLarge board.now × IsSeatOf board.now third × IsSeatOf board.now fourth }
            ensures { IfOk result (λ done. IsSeatOf board.entry.now done.seat) }
        { in_two(rt, alloc, board, third, fourth) },
    );
    gathered(board, one?, other?)
}

#[test]
fn four_threads_draw_each_job_once_and_no_peek_falls(rt: HostRuntime) -> Result<(), Fail> {
    let (board, seat) = Board::new(rt.alloc(), JOBS, 10_000)?;
    let Work { drawn, rises, .. } = in_four(&rt, rt.alloc(), &board, seat)?;
    let mut drawn = drawn;
    drawn.sort()?;
    assert!(rt; rises, "a peek fell");
    assert_eq!(rt; drawn.len(), JOBS as usize, "how many were drawn");
    for (place, job) in drawn.iter().enumerate() {
        assert_eq!(rt; *job as usize, place, "a job in its place");
    }
    Ok(())
}
