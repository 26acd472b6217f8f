//! The simple command by which `clap` tells options from words.

ghost use Rattle.std.specs.Prelude.{◌≡◌, IfOk, map, string_bytes};
ghost use Rattle.clap.specs.Words.{app_of, kind_of, with_rule};
ghost use Rattle.vx_words.specs.Command.{command_line, flag_rule, found, option_rule, words_rule};
ghost use Rattle.vx_words.specs.Outcome.{IsCause, ReadsRows};

use crate::error::WordsError;
use clap::error::ErrorKind;
use clap::{Arg, ArgAction, ArgMatches, Command};
use std::alloc::{AllocError, Global};

/// What `clap` finds in the words, of which the first is the program's name.
pub(crate) fn found_in<'a>(alloc: Global, words: &'a [String]) -> Result<ArgMatches<'a>, WordsError>
    ensures { ReadsRows (found (map string_bytes words.entry.now)) result }
{
    let command = command(alloc)?;
    match command.try_get_matches_from(words) {
        Ok(matches) => Ok(matches),
        Err(error) => Err(cause_of(&error)),
    }
}

fn cause_of(error: &clap::Error) -> WordsError
    ensures { IsCause error.now result }
{
    match error.kind() {
        ErrorKind::OutOfMemory => WordsError::NoMemory,
        _ => WordsError::Refused,
    }
}

fn command<'a>(alloc: Global) -> Result<Command<'a>, AllocError>
    ensures { IfOk result (λ command. app_of command ≡ command_line) }
{
    let command = Command::new(alloc, "vxrun");
    let command = with_option(alloc, command, "capacity")?;
    let command = with_option(alloc, command, "max")?;
    let command = with_option(alloc, command, "unit")?;
    let command = with_option(alloc, command, "batch")?;
    let command = with_option(alloc, command, "drivers")?;
    let command = with_option(alloc, command, "workers")?;
    let command = with_option(alloc, command, "mode")?;
    let command = with_flag(alloc, command, "log")?;
    let command = with_flag(alloc, command, "stats")?;
    with_words(alloc, command, "WORDS")
}

/// Adds `--name VALUE`, its value a text.
fn with_option<'a>(
    alloc: Global,
    command: Command<'a>,
    name: &'a str,
) -> Result<Command<'a>, AllocError>
    ensures { IfOk result (λ r. app_of r ≡ with_rule (app_of command.entry) (option_rule name.entry.now)) }
{
    let arg = Arg::new(alloc, name).long(name);
    command.arg(arg)
}

/// Adds `--name`.
fn with_flag<'a>(
    alloc: Global,
    command: Command<'a>,
    name: &'a str,
) -> Result<Command<'a>, AllocError>
    ensures { IfOk result (λ r. app_of r ≡ with_rule (app_of command.entry) (flag_rule name.entry.now)) }
{
    let arg = Arg::new(alloc, name).long(name).action(ArgAction::SetTrue);
    command.arg(arg)
}

/// Adds the words that are no options.
fn with_words<'a>(
    alloc: Global,
    command: Command<'a>,
    name: &'a str,
) -> Result<Command<'a>, AllocError>
    ensures { IfOk result (λ r. app_of r ≡ with_rule (app_of command.entry) (words_rule name.entry.now)) }
{
    let arg = Arg::new(alloc, name).action(ArgAction::Append);
    command.arg(arg)
}
