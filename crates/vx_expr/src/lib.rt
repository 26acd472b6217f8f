//! Expressions over rows: their form, their types, and their value on a row.
#![tactic(auto)]

mod arithmetic;
mod evaluation;
mod expression;
mod functions;
mod outcome;
mod sizes;
mod typing;

pub use evaluation::eval_row;
pub use expression::{Expr, Func};
pub use outcome::{Fault, Got, TypeError};
pub use sizes::{is_within_depth, longest_literal, text_len};
pub use typing::type_of;
