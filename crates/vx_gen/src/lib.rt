//! A large plan from a number: rows that look random, filtered, joined with groups, grouped and sorted.
//!
//!     values · filter ─┐
//!                      ├─ join · aggregation · order
//!             groups ──┘
//!
//! The rows come from a linear congruential generator, so that one number gives the same plan everywhere.
//! `specs/Draws.antt` has the generator, `specs/Rows.antt` the rows, `specs/Generated.antt` the plan.
#![tactic(auto)]

mod draws;
mod making;
mod nodes;
mod rows;
#[cfg(test)]
mod tests;

pub use making::make_plan;
