//! What a run reports of its queries: how each ended, what it took, what the arbitrator's log says, and their texts.
//!
//! Each call puts its text together in one buffer, as bytes that a sink takes. `specs/Sections.antt` says what the
//! texts of a section are, `specs/Digests.antt` the line that stands in place of one, `specs/Logs.antt` the text of the
//! log, `specs/Notes.antt` what both print of an abort.
#![tactic(auto)]

mod digests;
mod fields;
mod logs;
mod notes;
mod outcomes;
mod sections;
mod tallies;

pub use digests::digest_line;
pub use logs::log_text;
pub use outcomes::{Cause, Outcome};
pub use sections::{outcome_text, section_text};
pub use tallies::{Tally, stats_text};
