//! Pages of rows, and a store that notices a page that is not what was written.
//!
//! `specs/Page.antt` says what stands on a page, `specs/Reading.antt` how bytes are read as one, and
//! `specs/Sealed.antt` what a sealed store keeps.
#![tactic(auto)]

mod cell;
mod error;
mod reading;
mod sealed;
mod seals;
mod writing;

pub use cell::{Cell, PageRow, Slot};
pub use error::PageError;
pub use reading::read_page;
pub use sealed::Sealed;
pub use writing::{row_len, value_len, write_page};
