//! Prints each text of a report once, of values that stand below: `stdout`, written down by hand, is what the tests of
//! `vx_report` want.
#![tactic(auto)]

use anyhow::Result;
use sqlite_items::Items;
use std::alloc::{AllocError, Global};
use std::io::{Stdout, Write};
use vx_arb::{AbortNote, Entry, Look, Looks, NoteCause};
use vx_expr::Fault;
use vx_report::{Cause, Outcome, Tally, log_text, outcome_text, section_text, stats_text};
use vx_value::{Row, Txt, Value};

fn main(rt: HostRuntime) -> Result<()> {
    let alloc = rt.alloc();
    let mut out = rt.stdout();
    sections(alloc, &mut out)?;
    faults(alloc, &mut out)?;
    causes(alloc, &mut out)?;
    tallies(alloc, &mut out)?;
    logs(alloc, &mut out)
}

fn sections(alloc: Global, out: &mut Stdout) -> Result<()> {
    let rows = Outcome::Ok(two_rows(alloc)?);
    section(alloc, out, 0, "a.json", &rows)?;
    let none = Outcome::Ok(Items::new(alloc));
    section(alloc, out, 31, "b c.json", &none)
}

fn faults(alloc: Global, out: &mut Stdout) -> Result<()> {
    error(alloc, out, fault(alloc, 4, Fault::Overflow)?)?;
    error(alloc, out, fault(alloc, 65535, Fault::DivideByZero)?)?;
    error(alloc, out, fault(alloc, 0, Fault::TooLong)?)
}

fn causes(alloc: Global, out: &mut Stdout) -> Result<()> {
    error(alloc, out, Cause::Spill { faults: 3 })?;
    error(alloc, out, Cause::Aborted(total_note()))?;
    error(alloc, out, Cause::Aborted(own_note()))?;
    error(alloc, out, Cause::Memory)
}

fn tallies(alloc: Global, out: &mut Stdout) -> Result<()> {
    let tally = Tally {
        taken: 12,
        given: 11,
        spilled: 4096,
        peak: 65536,
    };
    let text = stats_text(alloc, &tally, 61440)?;
    out.write_all(text.as_slice())?;
    Ok(())
}

fn logs(alloc: Global, out: &mut Stdout) -> Result<()> {
    let none = log_text(alloc, &[], 8192)?;
    out.write_all(none.as_slice())?;
    let entries = entries(alloc)?;
    let text = log_text(alloc, entries.as_slice(), 18446744073709551615)?;
    out.write_all(text.as_slice())?;
    Ok(())
}

fn section(alloc: Global, out: &mut Stdout, job: u32, name: &str, outcome: &Outcome) -> Result<()> {
    let text = section_text(alloc, job, name, outcome)?;
    out.write_all(text.as_slice())?;
    Ok(())
}

fn error(alloc: Global, out: &mut Stdout, cause: Cause) -> Result<()> {
    let outcome = Outcome::Error(cause);
    let text = outcome_text(alloc, &outcome)?;
    out.write_all(text.as_slice())?;
    Ok(())
}

fn two_rows(alloc: Global) -> Result<Items<Row>, AllocError> {
    let mut rows = Vec::new(alloc);
    rows.push(row(alloc)?)?;
    rows.push(Row::of(Vec::new(alloc)))?;
    Ok(Items::from_vec(rows))
}

fn row(alloc: Global) -> Result<Row, AllocError> {
    let text = Txt::of(alloc, b"a\"b\n")?;
    let mut cells = Vec::new(alloc);
    cells.push(Value::Int(-7))?;
    cells.push(Value::Null)?;
    cells.push(Value::Bool(true))?;
    cells.push(Value::Text(text))?;
    Ok(Row::of(cells))
}

fn fault(alloc: Global, node: u32, code: Fault) -> Result<Cause, AllocError> {
    let row = row(alloc)?;
    Ok(Cause::Fault { node, row, code })
}

fn total_note() -> AbortNote {
    AbortNote {
        request: 5,
        by: 2,
        job: 7,
        cause: NoteCause::Total,
        need: 16384,
        free: 4096,
        looks: 3,
    }
}

fn own_note() -> AbortNote {
    AbortNote {
        request: 9,
        by: 7,
        job: 7,
        cause: NoteCause::Own,
        need: 8192,
        free: 0,
        looks: 1,
    }
}

fn entries(alloc: Global) -> Result<Vec<Entry>, AllocError> {
    let looks = looks(alloc)?;
    let mut all = Vec::new(alloc);
    all.push(Entry::Grant {
        job: 2,
        amount: 4096,
    })?;
    all.push(Entry::Shrink { job: 3, amount: 1 })?;
    all.push(Entry::Reclaim {
        job: 11,
        amount: 65536,
    })?;
    all.push(abort(looks))?;
    all.push(Entry::Retire { job: 2, amount: 0 })?;
    Ok(all)
}

fn abort(looks: Looks) -> Entry {
    Entry::Abort {
        note: total_note(),
        amount: 20480,
        looks,
    }
}

/// Three looks, in an order that isn't that of the jobs.
fn looks(alloc: Global) -> Result<Looks, AllocError> {
    let mut all = Vec::new(alloc);
    all.push(look(11))?;
    all.push(look(2))?;
    all.push(look(7))?;
    Ok(Looks::from_vec(all))
}

fn look(job: u32) -> Look {
    Look {
        job,
        unused: 1,
        reclaimable: 0,
    }
}
