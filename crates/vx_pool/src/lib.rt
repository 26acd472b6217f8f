//! Shares of capacity, and the pool tree of a query.
//!
//! Capacity is never made but once: a share is split and joined, and a tree's capacity is the share
//! that it was raised by. Room is reserved in a tree before memory is taken, in rounded amounts, and
//! the root never has more reserved than the tree's capacity. `specs/Quantum.antt` has the rounding,
//! `specs/Pools.antt` the rest.
#![tactic(auto)]

mod paths;
mod pools;
mod rounding;
mod shares;

pub use pools::{Short, Tree};
pub use rounding::quantum;
pub use shares::Share;
