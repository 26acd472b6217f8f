//! The command line.

ghost use Rattle.std.specs.Prelude.{map, string_bytes};
ghost use Rattle.vx_words.specs.Outcome.{Reads};
ghost use Rattle.vx_words.specs.Words.{config_of};

use crate::command::found_in;
use crate::config::Config;
use crate::error::WordsError;
use crate::settings::settings_of;
use std::alloc::Global;

/// The settings of a command line, whose first word is the program's name.
///
/// Words that have no settings are refused, and no others.
#[tactic(auto, unfolding(crate::specs::Words::config_of))]
pub fn read_words(alloc: Global, words: &[String]) -> Result<Config, WordsError>
    ensures { Reads (config_of (map string_bytes words.now)) result }
{
    let matches = found_in(alloc, words)?;
    settings_of(alloc, &matches)
}
