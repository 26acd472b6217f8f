//! The board: which jobs are claimed, and how much each had in use at most, told without a lock.
//!
//!     new · split* · (claim | post | peek)* · join*      a seat for each thread
//!
//! For each job a board has a claim word and a peak word, which threads change in single atomic steps.
//! Each thread steps with a seat of its own, which carries what that thread knows and has no bytes. No
//! call takes a `Wait`: none of them can wait for another thread.
//!
//! What holds between any two steps, of the words and of all seats, is `KeepsBoard`
//! (`specs/BoardRule.antt`). What a seat's call tells is in `specs/Seats.antt`.
#![tactic(auto)]

mod board;
mod law;
#[cfg(test)]
mod tests;
mod view;

pub use board::{Board, Seat};
pub use view::{Terms, View};
