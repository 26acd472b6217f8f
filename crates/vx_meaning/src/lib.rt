//! What a plan means, and a plain and slow program that answers any plan by it.
//!
//! A plan is seen as a tree (in `vx_plan`). `specs/Answer.antt` says which lists are answers of it,
//! `specs/Begun.antt` which lists begin one, and `specs/Faulty.antt` which faults it can meet; the three share
//! a record for each kind of node (`specs/Lines.antt`). No batch, table, run or reclaim occurs in them.
//! `slow_answer` evaluates one node after another, each over the whole answer of its source.
#![tactic(auto)]

mod answers;
mod cells;
mod folding;
mod grouping;
mod joining;
mod outcome;
mod picking;
mod rowwise;
mod sorting;
mod summing;

pub use answers::{slow_answer, slow_answer_of};
pub use outcome::SlowAnswer;
