//! Chunks of memory by number, for rows, texts and tables.
//!
//! A `Region` is a list of chunks of bytes. `grow` adds one of zeros, `shed` frees one and leaves it empty
//! at its number, and numbers start anew when nothing is held. `specs/Region.antt` says what each call
//! does to the list. The memory itself stands behind the private `Chunk`, whose bytes lie behind a raw
//! pointer. Only `src/block.rt` holds one, in a few private functions that are proved by hand.
#![tactic(auto)]

mod block;
mod chunk;
mod place;
mod region;

pub use place::Place;
pub use region::Region;
