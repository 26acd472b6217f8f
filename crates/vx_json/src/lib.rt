//! Plan files: from the bytes of a file to a plan, and from rows and refusals to text.
//!
//!     bytes · JSON · form · limits, ids, types, widths · plan        the first stage that finds something refuses
//!
//! The form is read in pre-order: at a node its word, its fields, its number, its own part field by field, then
//! its sources. A list's own length is asked before its items. What is at fault is named by the way to it from
//! the file's root, and that text is made only where something is refused.
//!
//! `specs/Nodes.antt`, `specs/Expressions.antt` and `specs/Cells.antt` say what is read, as functions from JSON
//! to a thing or a refusal, one a form; `specs/Plans.antt` puts the stages together.
#![tactic(auto)]

mod cells;
mod error;
mod expressions;
mod fields;
mod front;
mod fronts;
mod lines;
mod lists;
mod long_texts;
mod nodes;
mod owned;
mod parts;
mod plans;
mod printing;
mod refusals;
mod way;
mod words;

pub use error::PlanError;
pub use lines::Line;
pub use plans::plan_of;
pub use printing::{push_row, row_line};
pub use refusals::refusal_text;
