//! Numbered records of one length, in chunks of 4,096 bytes.
//!
//!     new · add · write · set_next · set_matched · erase · clear
//!
//! Frames      stand side by side in the chunks of a region, so many bytes for each number (`specs/Frame.antt`).
//! Heads       are the first 8 bytes of a frame: a link, and whether its record is live and matched (`Head.antt`).
//! Free ones   are linked through their heads. A new record takes the first of them; a frame is added only where
//!             there is none, and a chunk only where the last one is full.
//!
//! Contracts see the list of records by number, None where a number is free (`Record.antt`).
#![tactic(auto)]

mod frames;
mod heads;
mod records;

pub use records::Records;
