//! What a command line asks for.

ghost use Rattle.std.specs.Prelude.{◌≡◌, ◌≤◌, length, map, string_bytes, true};
ghost use Rattle.vx_words.specs.Settings.{are_lawful};

use std::marker::Model;

/// What the program does.
#[derive(Clone, Copy, Debug, PartialEq, Eq)]
pub enum Mode {
    /// Runs the plans of files and prints their rows.
    Run,
    /// Says of files whether they hold plans.
    Check,
    /// Runs a plan that it makes itself.
    Gen,
}

/// The settings of a command line. Every value lies in the range that the table of options gives it.
#[derive(Drop)]
pub struct Config {
    pub(crate) capacity: u64,
    pub(crate) max: u64,
    pub(crate) unit: u64,
    pub(crate) batch: u32,
    pub(crate) drivers: u32,
    pub(crate) workers: u32,
    pub(crate) mode: Mode,
    pub(crate) log: bool,
    pub(crate) stats: bool,
    pub(crate) words: Vec<String>,
}

impl Model for Config {
    ghost use Rattle.vx_words.specs.Settings.{Settings};

    ghost Value = { Settings };

    ghost use Rattle.vx_words.specs.Kept.{settings_in, IsKept};

    ghost view = { settings_in };

    ghost invariant = { IsKept };
}

impl Config {
    ghost use Rattle.vx_words.specs.Settings.{IsLawful};

    /// The memory of all queries together, in bytes.
    pub fn capacity(&self) -> u64
        ensures is { result ≡ self.now.capacity }
        ensures lawful { IsLawful self.now }
    {
        self.capacity
    }

    /// The most memory of one query, in bytes.
    pub fn max(&self) -> u64
        ensures is { result ≡ self.now.max }
        ensures lawful { IsLawful self.now }
    {
        self.max
    }

    /// The step in which memory is reserved, in bytes.
    pub fn unit(&self) -> u64
        ensures is { result ≡ self.now.unit }
        ensures lawful { IsLawful self.now }
    {
        self.unit
    }

    /// The most rows of a batch.
    pub fn batch(&self) -> u32
        ensures is { result ≡ self.now.batch }
        ensures lawful { IsLawful self.now }
    {
        self.batch
    }

    /// The drivers of a pipeline that may be parted.
    pub fn drivers(&self) -> u32
        ensures is { result ≡ self.now.drivers }
        ensures lawful { IsLawful self.now }
    {
        self.drivers
    }

    /// The threads that run queries.
    pub fn workers(&self) -> u32
        ensures is { result ≡ self.now.workers }
        ensures lawful { IsLawful self.now }
    {
        self.workers
    }

    /// What is asked for.
    pub fn mode(&self) -> Mode
        ensures { result ≡ self.now.mode }
    {
        self.mode
    }

    /// Whether the log of the arbitrator is printed.
    pub fn log(&self) -> bool
        ensures { result ≡ self.now.log }
    {
        self.log
    }

    /// Whether each section ends with its query's tally.
    pub fn stats(&self) -> bool
        ensures { result ≡ self.now.stats }
    {
        self.stats
    }

    /// The names of files, or the number and the rows of the plan that is made.
    pub fn words(&self) -> &[String]
        ensures is { map string_bytes result.now ≡ self.now.words }
        ensures lawful { are_lawful self.now.mode self.now.words ≡ true }
        ensures some { 1 ≤ length result.now }
    {
        self.words.as_slice()
    }
}
