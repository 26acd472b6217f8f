//! Vectors: the columns that queries work on, a batch of rows at a time.
//!
//! A vector is a list of values of one kind, whether it stores each value, one value for all rows, or places
//! in a list of values. `specs/Lanes.antt` says what typed buffers with marks stand for, `specs/Form.antt`
//! what the encodings stand for, and `specs/Selection.antt` what a selection is. Kernels over marks and places
//! work in lanes of `std::simd`; `specs/Marks.antt` says what they give.
#![tactic(auto)]

mod batch;
mod form;
mod gather;
mod index;
mod lanes;
mod marks;
mod places;
mod scan;
mod selection;
mod store;
mod texts;
mod vector;

pub use batch::Batch;
pub use lanes::{Bools, FINE, FIRST_FAULT, Ints, Lanes, NULL};
pub use marks::{combine_marks, invert_marks, settle_marks};
pub use places::are_first_places;
pub use scan::{are_fine, count_mark, has_fault};
pub use selection::Selection;
pub use texts::Texts;
pub use vector::{Decoded, Vector};
