//! The arbitrator: it hands out one capacity among many queries, and writes down every change.
//!
//!     begin_request · (shrink · reclaim · look)* · grant, abort or drop_request
//!
//! A query that lacks capacity begins a request. The arbitrator takes unused capacity from the others,
//! makes them reclaim, looks at what is left, and then grants what is missing or aborts one. An abort is
//! possible only where it is unavoidable: nothing can be reclaimed any more, and nothing lies unused.
//!
//! `specs/Log.antt` says what the log makes of each job's capacity and of the free one,
//! `specs/Unmet.antt` when an abort was unavoidable, `specs/Books.antt` what the arbitrator keeps.
#![tactic(auto)]

mod arbiter;
mod entries;
mod members;
mod requests;
mod rows;
mod sights;

pub use arbiter::Arb;
pub use entries::{AbortNote, Entry, Look, Looks, NoteCause};
pub use members::{Lack, Member, Move};
pub use requests::{Lacking, Request};
pub use rows::{Admitted, Live, Standing};
