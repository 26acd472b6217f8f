//! The top call: from the words of a command line to the bytes on the output.
//!
//!     words · read · plan · answer · print      an error of any part ends the run with its status
//!
//! `vxrun` does all that the program does, over any host, and each thing that it promises is a clause of
//! its own. `vx_json` says what plan the bytes of a file are, `vx_meaning` which rows answer it and which
//! faults it can meet, `specs/Printing.antt` how they are printed, `specs/Run.antt` what each status means.
#![tactic(auto)]

mod load;
mod print;
mod run;
mod stop;
mod top;
mod words;

pub use stop::{BAD_WORDS, DONE, FAULTED, NO_MEMORY, NOT_READ, NOT_WRITTEN, REFUSED};
pub use top::vxrun;
