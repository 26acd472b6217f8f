//! Reads command lines, their words parted by single blanks, and prints the settings of each, or that its
//! words are bad: the table of `stdin` and `stdout` is the test of `vx_words`.
#![tactic(auto)]

use anyhow::Result;
use std::alloc::{AllocError, Global};
use vx_words::{Config, Mode, WordsError, read_words};

fn main(rt: HostRuntime) -> Result<()> {
    let alloc = rt.alloc();
    for line in rt.lines(alloc) {
        let line = line?;
        let words = words_of(alloc, line.as_str())?;
        let text = outcome(alloc, words.as_slice())?;
        println!(rt; "{text}")?;
    }
    Ok(())
}

fn words_of(alloc: Global, line: &str) -> Result<Vec<String>, AllocError> {
    let mut words = Vec::new(alloc);
    for word in line.split(' ') {
        words.push(String::from_str(alloc, word)?)?;
    }
    Ok(words)
}

fn outcome(alloc: Global, words: &[String]) -> Result<String> {
    match read_words(alloc, words) {
        Ok(config) => Ok(shown(alloc, &config)?),
        Err(WordsError::Refused) => Ok(String::from_str(alloc, "bad words")?),
        Err(error) => Err(error)?,
    }
}

fn shown(alloc: Global, config: &Config) -> Result<String, AllocError> {
    let memory = memory(alloc, config)?;
    let work = work(alloc, config)?;
    let printed = printed(alloc, config)?;
    let mut text = format!(in alloc; "{memory} {work} {printed}")?;
    for word in config.words() {
        text.push_str(" [")?;
        text.push_str(word.as_str())?;
        text.push(']')?;
    }
    Ok(text)
}

fn memory(alloc: Global, config: &Config) -> Result<String, AllocError> {
    let capacity = config.capacity();
    let max = config.max();
    let unit = config.unit();
    format!(in alloc; "capacity={capacity} max={max} unit={unit}")
}

fn work(alloc: Global, config: &Config) -> Result<String, AllocError> {
    let batch = config.batch();
    let drivers = config.drivers();
    let workers = config.workers();
    format!(in alloc; "batch={batch} drivers={drivers} workers={workers}")
}

fn printed(alloc: Global, config: &Config) -> Result<String, AllocError> {
    let mode = mode_name(config.mode());
    let log = config.log();
    let stats = config.stats();
    format!(in alloc; "mode={mode} log={log} stats={stats}")
}

fn mode_name(mode: Mode) -> &'static str {
    match mode {
        Mode::Run => "run",
        Mode::Check => "check",
        Mode::Gen => "gen",
    }
}
