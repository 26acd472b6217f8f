//! From what `clap` found to the settings: the table of options.

ghost use Rattle.std.specs.Prelude.{◌≡◌, ◌≤◌, IfOk, map, string_bytes, true};
ghost use Rattle.std.specs.Int.{is_power_of_two};
ghost use Rattle.vx_words.specs.Command.{rows_in};
ghost use Rattle.vx_words.specs.Outcome.{Reads, ReadsTexts};
ghost use Rattle.vx_words.specs.Settings.{are_lawful, is_plan, max_setting, settings_of, unit_setting, words_setting};

use crate::config::{Config, Mode};
use crate::error::WordsError;
use crate::numbers::number_between;
use crate::options::{NumberOption, all_given, flag, mode_setting, number_setting};
use clap::ArgMatches;
use std::alloc::{AllocError, Global};

const CAPACITY: NumberOption = NumberOption {
    name: "capacity",
    least: 65_536,
    most: 8_589_934_592,
    default: 268_435_456,
};

const BATCH: NumberOption = NumberOption {
    name: "batch",
    least: 1,
    most: 4_096,
    default: 256,
};

const DRIVERS: NumberOption = NumberOption {
    name: "drivers",
    least: 1,
    most: 8,
    default: 1,
};

const WORKERS: NumberOption = NumberOption {
    name: "workers",
    least: 1,
    most: 16,
    default: 1,
};

/// The most names of files.
const MOST_NAMES: usize = 32;

/// The settings that `clap`'s matches give.
pub(crate) fn settings_of(alloc: Global, matches: &ArgMatches<'_>) -> Result<Config, WordsError>
    ensures { Reads (settings_of (rows_in matches.now)) result }
{
    let capacity = number_setting(matches, &CAPACITY)?;
    let unit = unit_setting(matches, capacity)?;
    let max = max_setting(matches, unit, capacity)?;
    let batch = number_setting(matches, &BATCH)?;
    let drivers = number_setting(matches, &DRIVERS)?;
    let workers = number_setting(matches, &WORKERS)?;
    let mode = mode_setting(matches)?;
    let words = words_setting(alloc, matches, mode)?;
    Ok(Config {
        capacity,
        max,
        unit,
        batch: batch as u32,
        drivers: drivers as u32,
        workers: workers as u32,
        mode,
        log: flag(matches, "log"),
        stats: flag(matches, "stats"),
        words,
    })
}

/// A power of two that is at most the capacity.
fn unit_setting(matches: &ArgMatches<'_>, capacity: u64) -> Result<u64, WordsError>
    requires { 65536 ≤ capacity }
    ensures is { Reads (unit_setting (rows_in matches.now) capacity) result }
    ensures within { IfOk result (λ unit. (4096 ≤ unit) × (unit ≤ 1048576)) }
    ensures power { IfOk result (λ unit. is_power_of_two unit ≡ true) }
    ensures fits { IfOk result (λ unit. unit ≤ capacity) }
{
    let option = NumberOption {
        name: "unit",
        least: 4_096,
        most: capacity.min(1_048_576),
        default: 65_536,
    };
    let unit = number_setting(matches, &option)?;
    if !unit.is_power_of_two() {
        return Err(WordsError::Refused);
    }
    Ok(unit)
}

/// From the unit to the capacity; the capacity, where it isn't given.
fn max_setting(matches: &ArgMatches<'_>, unit: u64, capacity: u64) -> Result<u64, WordsError>
    requires { unit ≤ capacity }
    ensures is { Reads (max_setting (rows_in matches.now) unit capacity) result }
    ensures within { IfOk result (λ max. (unit ≤ max) × (max ≤ capacity)) }
{
    let option = NumberOption {
        name: "max",
        least: unit,
        most: capacity,
        default: capacity,
    };
    number_setting(matches, &option)
}

fn words_setting(
    alloc: Global,
    matches: &ArgMatches<'_>,
    mode: Mode,
) -> Result<Vec<String>, WordsError>
    ensures is { ReadsTexts (words_setting (rows_in matches.now) mode) result }
    ensures lawful { IfOk result (λ words. are_lawful mode (map string_bytes words.items) ≡ true) }
{
    let Some(words) = all_given(matches, "WORDS") else {
        return Err(WordsError::Refused);
    };
    if !are_lawful(mode, words) {
        return Err(WordsError::Refused);
    }
    let words = owned(alloc, words)?;
    Ok(words)
}

fn are_lawful(mode: Mode, words: &[&str]) -> bool
    ensures { result ≡ are_lawful mode (map (λ word. word.now) words.now) }
{
    match mode {
        Mode::Run | Mode::Check => !words.is_empty() && words.len() <= MOST_NAMES,
        Mode::Gen => is_plan(words),
    }
}

fn is_plan(words: &[&str]) -> bool
    ensures { result ≡ is_plan (map (λ word. word.now) words.now) }
{
    match words {
        [number, rows] => {
            number_between(number, 0, 9_999_999_999).is_some()
                && number_between(rows, 1, 50_000).is_some()
        }
        _ => false,
    }
}

fn owned(alloc: Global, words: &[&str]) -> Result<Vec<String>, AllocError>
    ensures { IfOk result (λ all. map string_bytes all.items ≡ map (λ word. word.now) words.now) }
{
    let mut all = Vec::new(alloc);
    for word in words {
        all.push(String::from_str(alloc, word)?)?;
    }
    Ok(all)
}
