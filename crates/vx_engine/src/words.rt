//! The command line: the file that it names, where it asks for nothing that isn't built yet.

ghost use Rattle.std.specs.Prelude.{◌≡◌};
ghost use Rattle.vx_engine.specs.Words.{ReadsName, asks_for_unbuilt, is_run, limits_queries, name_of};

use std::alloc::Global;
use vx_words::{Config, Mode, WordsError, read_words};

/// The name of the plan file.
pub(crate) fn file_name(alloc: Global, words: &[String]) -> Result<String, WordsError>
    ensures { ReadsName (name_of words.now) result }
{
    let config = read_words(alloc, words)?;
    if asks_for_unbuilt(&config) {
        return Err(WordsError::Refused);
    }
    let name = String::from_str(alloc, config.words()[0].as_str())?;
    Ok(name)
}

fn asks_for_unbuilt(config: &Config) -> bool
    ensures { result ≡ asks_for_unbuilt config.now }
{
    let runs = is_run(config.mode());
    let count = config.words().len();
    let log = config.log();
    let stats = config.stats();
    !runs || count != 1 || log || stats || limits_queries(config)
}

fn is_run(mode: Mode) -> bool
    ensures { result ≡ is_run mode }
{
    match mode {
        Mode::Run => true,
        Mode::Check | Mode::Gen => false,
    }
}

fn limits_queries(config: &Config) -> bool
    ensures { result ≡ limits_queries config.now }
{
    let capacity = config.capacity();
    let max = config.max();
    let unit = config.unit();
    let batch = config.batch();
    let drivers = config.drivers();
    capacity != 268_435_456 || max != 268_435_456 || unit != 65_536 || batch != 256 || drivers != 1
}
