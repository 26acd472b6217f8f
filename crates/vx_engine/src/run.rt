//! The work of the top call, without a handle, so that it's proved to return.

ghost use Rattle.std.specs.Prelude.{◌≡◌, ◌≤◌, ◌⊎◌};
ghost use Rattle.vx_host.specs.Host.{KeepsFiles, WritesOnly};
ghost use Rattle.vx_host.specs.declared.host.To.TheVariants.{Output, Errors};
ghost use Rattle.vx_engine.specs.Run.{GoesOn, IsRun, Says};
ghost use Rattle.vx_engine.specs.Ending.{Ends, Ran, status_of_run};
ghost use Rattle.vx_engine.specs.Stop.{line_of};
ghost use Rattle.vx_engine.specs.Words.{name_of};
ghost use Rattle.vx_engine.specs.declared.stop.Stop.TheVariants.{NoMemory};

use crate::load::load;
use crate::print::{Printed, print};
use crate::stop::{BAD_WORDS, DONE, FAULTED, NO_MEMORY, NO_MEMORY_LINE, Stop};
use crate::words::file_name;
use std::alloc::Global;
use vx_host::{Host, To, give_all};
use vx_meaning::slow_answer_of;
use vx_words::WordsError;

/// Does all that the program does, and answers its status.
pub(crate) fn run_words<H: Host>(alloc: Global, words: &[String], host: &mut H) -> u8
    ensures run { IsRun (name_of words.now) (H.files host.old) (H.files host.new)
        (H.sink host.old Output) (H.sink host.new Output)
        (H.sink host.old Errors) (H.sink host.new Errors) result }
{
    match file_name(alloc, words) {
        Err(WordsError::Refused) => {
            say("vxrun: bad words\n", host);
            BAD_WORDS
        }
        Err(WordsError::NoMemory) => {
            say(NO_MEMORY_LINE, host);
            NO_MEMORY
        }
        Ok(name) => {
            let outcome = run_file(alloc, name.as_str(), host);
            status_of_run(&outcome)
        }
    }
}

fn status_of_run(outcome: &Result<Printed, Stop>) -> u8
    ensures { result ≡ status_of_run outcome.now }
{
    match outcome {
        Ok(Printed::Rows) => DONE,
        Ok(Printed::Fault) => FAULTED,
        Err(stop) => stop.status(),
    }
}

/// Runs the plan of the named file, and reports why where that stops.
fn run_file<H: Host>(alloc: Global, name: &str, host: &mut H) -> Result<Printed, Stop>
    ensures ran { Ran (H.files host.old) (H.files host.new) (H.sink host.old Output) (H.sink host.new Output)
        (H.sink host.old Errors) (H.sink host.new Errors) name.now result }
{
    match answer(alloc, name, host) {
        Ok(printed) => Ok(printed),
        Err(Stop::NotWritten) => Err(Stop::NotWritten),
        Err(stop) => Err(report(alloc, name, stop, host)),
    }
}

/// Runs the plan of the named file and writes its section to the output.
fn answer<H: Host>(alloc: Global, name: &str, host: &mut H) -> Result<Printed, Stop>
    ensures ends { Ends (H.files host.old) (H.files host.new) (H.sink host.old Output) (H.sink host.new Output) name.now result }
    ensures files { KeepsFiles (H.files host.old) (H.files host.new) }
    ensures later { (H.files host.old).faults ≤ (H.files host.new).faults }
    ensures out { GoesOn (H.sink host.old Output) (H.sink host.new Output) }
    ensures errors { H.sink host.new Errors ≡ H.sink host.old Errors }
{
    let plan = load(alloc, name, host)?;
    let answer = slow_answer_of(alloc, plan)?;
    print(alloc, name, answer, host)
}

/// Writes the line that belongs to the cause, and answers what the run ends by: want of memory, where memory for the
/// line is wanted.
fn report<H: Host>(alloc: Global, name: &str, stop: Stop, host: &mut H) -> Stop
    ensures is { (result ≡ stop) ⊎ (result ≡ NoMemory) }
    ensures said { Says (H.sink host.old Errors) (H.sink host.new Errors) (line_of name.now result) }
    ensures err { GoesOn (H.sink host.old Errors) (H.sink host.new Errors) }
    ensures others { WritesOnly H.files H.sink Errors host.old host.new }
{
    match stop.line(alloc, name) {
        Ok(line) => {
            say(line.as_str(), host);
            stop
        }
        Err(_) => {
            say(NO_MEMORY_LINE, host);
            Stop::NoMemory
        }
    }
}

/// Writes a line to err. That this fails changes nothing.
fn say<H: Host>(line: &str, host: &mut H)
    ensures said { Says (H.sink host.old Errors) (H.sink host.new Errors) line.now }
    ensures err { GoesOn (H.sink host.old Errors) (H.sink host.new Errors) }
    ensures others { WritesOnly H.files H.sink Errors host.old host.new }
{
    let _ = give_all(host, To::Errors, line.as_bytes());
}
