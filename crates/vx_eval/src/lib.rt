//! Evaluation of expressions over batches: column by column, with a typed loop for each function.
//!
//!     eval        the expression is walked once; each function works on all selected rows at a time
//!     lanes       a row is a value in a typed buffer and a mark: fine, null, or one of the faults
//!     wanted      which rows are looked at: `if`, `and`, `or` and `coalesce` want fewer of their later
//!                 arguments, so that no text is made in vain
//!     mask        the faults of the selected rows, beside the vector of their values
//!
//! A fault is a value on the way, so `and`, `if` and `try` read marks. `specs/Mask.antt` says what `eval` gives,
//! in the words of `vx_expr`.
#![tactic(auto)]

mod apply;
mod arithmetic;
mod calls;
mod choice;
mod columns;
mod compare;
mod evaluation;
pub mod kernels;
mod leaf;
mod logic;
mod marks;
mod mask;
mod rows;
mod text_rows;
mod texts;
mod wanted;

pub use evaluation::eval;
pub use mask::FaultMask;
