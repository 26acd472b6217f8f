//! How large a board is, and what a seat knows of it.
use std::collections::LinkedList;

/// How many jobs a board has, and what their peaks never pass.
#[derive(Clone, Copy)]
pub struct Terms {
    pub jobs: u32,
    pub total: u64,
}

/// What a seat knows. It stands in proofs alone: no value of it is ever made.
pub struct View {
    /// The jobs that the seat has drawn.
    pub drawn: LinkedList<u32>,
    /// The jobs that the seat knows to be claimed, by whichever seat.
    pub taken: LinkedList<u32>,
    /// For each job the greatest peak that the seat has posted or seen.
    pub seen: LinkedList<u64>,
    /// The board's total.
    pub most: u64,
}
