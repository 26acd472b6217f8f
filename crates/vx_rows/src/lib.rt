//! Rows in counted memory: live rows by number, with their cells, their accumulators and two links of a head.
//!
//! A row has a fixed number of bytes: a head and a body, which has null bits and slots (`specs/Layout.antt`).
//! `specs/Slot.antt` says what the bytes of a slot stand for, and `specs/Body.antt` what a body stores. A text of more
//! than 12 bytes stands in the arena, and its slot has its place.
#![tactic(auto)]

mod batches;
mod body;
mod container;
mod editing;
mod field;
mod fields;
mod layout;
mod need;
mod nulls;
mod slot;
mod texts;
mod write;

pub use container::RowContainer;
pub use fields::Extra;
