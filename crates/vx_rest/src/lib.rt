//! What is still to come of a query, by what it holds now, and the laws of its moves.
//!
//! A query that runs holds rows in operators and in the hands between them. `specs/Held.antt` has what that is,
//! `specs/Rest.antt` which rows may still come out of it, `specs/RestFaulty.antt` which faults it can still
//! meet: the plan's meaning over what is held. A move takes rows out of a hand, changes one operator, or puts
//! rows into a hand (`specs/Fits.antt`). `specs/Calls.antt` has what an operator's call must keep for that.
//!
//! `specs/Machine.antt` has all that decides which move comes next, and what each move needs;
//! `specs/Changes.antt` what it changes. The functions here do nothing: each one's contract is a law.
#![tactic(auto)]

mod laws;

pub use laws::{calls_keep_rules, moves_keep_meaning, runs_keep_meaning, runs_keep_sums};
