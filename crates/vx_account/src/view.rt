//! What a holder has of the accounts.
use std::collections::LinkedList;

/// A book or a part: its account, and its amount.
#[derive(Clone, Copy)]
pub struct Slip {
    pub account: u32,
    pub amount: u64,
}

/// What a holder has. It stands in proofs alone: no value of it is ever made.
pub struct View {
    pub books: LinkedList<Slip>,
    pub parts: LinkedList<Slip>,
    /// The account whose part is about to be moved.
    pub asked: u32,
}
