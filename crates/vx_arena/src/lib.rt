//! Texts in counted memory, each a chain of blocks.
//!
//!     new · take_text · read_text · equals · give_text · clear
//!
//! Blocks      tile chunks of 4,096 bytes: a head of 8 bytes, and a payload (`specs/Block.antt`, `Chunks.antt`).
//! Free ones   stand in a list for each class of length, linked both ways through their payloads (`Free.antt`).
//! A part      takes the first block of the least class that has one which holds it, cut where it is too long. A
//!             chunk is added only where no free block holds the part (`Part.antt`).
//! A text      is a chain: each block names the next, and each but the last is full (`Text.antt`).
//!
//! Contracts see an arena as its chunks' blocks, read from their bytes, and two counts.
#![tactic(auto)]

mod arena;
mod blocks;
mod free;
mod links;
mod part;
mod words;

pub use arena::Arena;
