//! From a plan's answer to its section on the output.

ghost use Rattle.std.specs.Prelude.{◌≡◌, OnErr, OnOk, IfOk, IfErr};
ghost use Rattle.vx_base.specs.Told.{gained};
ghost use Rattle.vx_host.specs.Host.{WritesOnly};
ghost use Rattle.vx_host.specs.Sink.{GainsPart};
ghost use Rattle.vx_host.specs.declared.host.To.TheVariants.{Output};
ghost use Rattle.vx_engine.specs.Printing.{outcome_of, section_text};
ghost use Rattle.vx_engine.specs.Run.{GoesOn};
ghost use Rattle.vx_engine.specs.Ending.{StopsPrinting, printed_of};

use crate::stop::Stop;
use std::alloc::Global;
use vx_host::{Host, To, give_all};
use vx_meaning::SlowAnswer;
use vx_report::{Cause, Outcome, section_text};

/// The only job that there is.
const JOB: u32 = 0;

/// What a section holds.
#[derive(Clone, Copy, Debug, PartialEq, Eq)]
pub(crate) enum Printed {
    Rows,
    Fault,
}

/// Writes the section of a plan's answer to the output.
pub(crate) fn print<H: Host>(
    alloc: Global,
    name: &str,
    answer: SlowAnswer,
    host: &mut H,
) -> Result<Printed, Stop>
    ensures ok { OnOk result ((H.sink host.new Output).taken
        ≡ gained (H.sink host.old Output).taken (section_text name.now answer)) }
    ensures printed { IfOk result (λ printed. printed ≡ printed_of answer) }
    ensures front { OnErr result (GainsPart (H.sink host.old Output).taken
        (H.sink host.new Output).taken (section_text name.now answer)) }
    ensures err { IfErr result (StopsPrinting (H.sink host.old Output) (H.sink host.new Output)) }
    ensures out { GoesOn (H.sink host.old Output) (H.sink host.new Output) }
    ensures others { WritesOnly H.files H.sink Output host.old host.new }
{
    let printed = printed_of(&answer);
    let outcome = outcome_of(answer);
    let text = section_text(alloc, JOB, name, &outcome)?;
    give_all(host, To::Output, text.as_slice())?;
    Ok(printed)
}

fn printed_of(answer: &SlowAnswer) -> Printed
    ensures { result ≡ printed_of answer.now }
{
    match answer {
        SlowAnswer::Rows(_) => Printed::Rows,
        SlowAnswer::Fault { .. } => Printed::Fault,
    }
}

/// How a query ends whose plan has this answer.
fn outcome_of(answer: SlowAnswer) -> Outcome
    ensures { result ≡ outcome_of answer }
{
    match answer {
        SlowAnswer::Rows(rows) => Outcome::Ok(rows),
        SlowAnswer::Fault { node, row, code } => Outcome::Error(Cause::Fault { node, row, code }),
    }
}
