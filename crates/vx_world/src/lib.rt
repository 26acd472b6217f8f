//! The core as one value: an arbitrator, its members, and at most one request, moved by events.
//!
//! An event is one critical section of the running program. `apply` makes it where it is lawful, and
//! refuses it with nothing changed where it isn't; `apply_all` makes a run. What holds of every world of
//! every run stands on these two calls: no capacity is made or lost, and every abort was unavoidable.
//!
//! `specs/Scenes.antt` says what a world is, `specs/Steps.antt` what a lawful step and a run are.
#![tactic(auto)]

mod asking;
mod events;
mod plain;
mod running;
mod seats;

pub use events::{ApplyError, Event, Reply};
pub use plain::PlainMember;
pub use running::World;
