//! What `clap` found of one option.

ghost use Rattle.std.specs.Prelude.{◌≡◌, ◌≤◌, IfOk, codes, map, option_map};
ghost use Rattle.clap.specs.Words.{all_of, first_of};
ghost use Rattle.vx_words.specs.Command.{rows_in};
ghost use Rattle.vx_words.specs.Outcome.{Reads};
ghost use Rattle.vx_words.specs.Settings.{flag, mode_named, mode_or_run, number_setting};

use crate::config::Mode;
use crate::error::WordsError;
use crate::numbers::number_between;
use clap::ArgMatches;

/// An option whose value is a number: its range, both ends included, and its value where it isn't given.
#[derive(Clone, Copy)]
pub(crate) struct NumberOption {
    pub name: &'static str,
    pub least: u64,
    pub most: u64,
    pub default: u64,
}

/// The value of an option that is a number.
pub(crate) fn number_setting(
    matches: &ArgMatches<'_>,
    option: &NumberOption,
) -> Result<u64, WordsError>
    requires least { option.now.least ≤ option.now.default }
    requires most { option.now.default ≤ option.now.most }
    ensures is { Reads (number_setting (rows_in matches.now)
        option.now.name.now option.now.least option.now.most option.now.default) result }
    ensures within { IfOk result (λ n. (option.now.least ≤ n) × (n ≤ option.now.most)) }
{
    let Some(text) = given(matches, option.name) else {
        return Ok(option.default);
    };
    match number_between(text, option.least, option.most) {
        Some(number) => Ok(number),
        None => Err(WordsError::Refused),
    }
}

/// The mode that is given, or that of a run.
pub(crate) fn mode_setting(matches: &ArgMatches<'_>) -> Result<Mode, WordsError>
    ensures { Reads (mode_or_run (first_of (codes "mode") (rows_in matches.now))) result }
{
    match given(matches, "mode") {
        Some(name) => mode_named(name),
        None => Ok(Mode::Run),
    }
}

fn mode_named(name: &str) -> Result<Mode, WordsError>
    ensures { Reads (mode_named name.now) result }
{
    match name {
        "run" => Ok(Mode::Run),
        "check" => Ok(Mode::Check),
        "gen" => Ok(Mode::Gen),
        _ => Err(WordsError::Refused),
    }
}

/// Whether a flag is given.
pub(crate) fn flag(matches: &ArgMatches<'_>, name: &str) -> bool
    ensures { result ≡ flag (rows_in matches.now) name.now }
{
    match given(matches, name) {
        Some(text) => text == "true",
        None => false,
    }
}

/// The text that is given of an option, a flag's being `true`.
fn given<'a>(matches: &ArgMatches<'a>, name: &str) -> Option<&'a str>
    ensures { option_map (λ text. text.now) result ≡ first_of name.now (rows_in matches.now) }
{
    matches.get_str(name)
}

/// All texts that are given of one name.
pub(crate) fn all_given<'m, 'a>(matches: &'m ArgMatches<'a>, name: &str) -> Option<&'m [&'a str]>
    ensures { option_map (λ all. map (λ text. text.now) all.now) result
        ≡ all_of name.now (rows_in matches.now) }
{
    matches.get_strs(name)
}
