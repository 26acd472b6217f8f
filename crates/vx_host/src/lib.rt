//! The outside as the engine sees it: files by name, two sinks, and a gate between steps.
//!
//! `Host` is what a run reads from and writes to. `MemoryHost` keeps its bytes and fails at listed calls;
//! `RealHost` adapts files and the standard streams. `give` hands a piece to a sink until all of it was
//! taken: every output goes through it. `specs/Views.antt` has what contracts see of a host.
#![tactic(auto)]

mod error;
mod gate;
mod give;
mod host;
mod memory_host;
mod memory_sink;
mod reading;
mod real;
mod sink;
mod stream;

pub use error::{ReadError, SinkError};
pub use gate::{FreeGate, Gate, GatePlace};
pub use give::give_all;
pub use host::{Host, To};
pub use memory_host::{MemoryFile, MemoryHost, StoreFail};
pub use memory_sink::MemorySink;
pub use real::RealHost;
pub use sink::Sink;

#[cfg(test)]
mod tests;
