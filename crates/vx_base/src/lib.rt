//! Words that contracts share and no crate owns: causes of faults, content that is told or not, prefixes.
//!
//! There is no code here. `specs/Causes.antt` says when a fault may be answered, `specs/Told.antt` what
//! becomes of content, `specs/Calls.antt` which calls of a fake fail.
#![tactic(auto)]
