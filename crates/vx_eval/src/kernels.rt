//! The typed loops over two columns of ints, for callers that have the buffers themselves.
//!
//! A function is a type: `of_ints::<Plus>` adds, `compare_ints::<Less>` compares. The two columns have as many rows as
//! each other; a value under any mark but `FINE` says nothing, and marks from `FIRST_FAULT` on are faults.

pub use crate::arithmetic::{Divide, IntOp, Minus, Modulus, Multiply, Plus, of_ints};
pub use crate::compare::{
    AtLeast, AtMost, Comparison, Equal, Greater, Less, Unequal, compare_ints,
};
