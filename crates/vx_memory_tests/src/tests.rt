//! Worked cases of the crates of counted memory below rows.

mod chunks;
mod records;
mod texts;
