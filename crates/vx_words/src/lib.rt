//! The command line: from words to settings, or their refusal.
//!
//! `clap` tells options from words by one simple command (`specs/Command.antt`); the values are read
//! by the table of options (`specs/Settings.antt`). `config_of` (`specs/Words.antt`) is the whole rule.
#![tactic(auto)]

mod command;
mod config;
mod error;
mod numbers;
mod options;
mod reading;
mod settings;

pub use config::{Config, Mode};
pub use error::WordsError;
pub use numbers::number_of;
pub use reading::read_words;
