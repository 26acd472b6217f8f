//! The text of the arbitrator's log.
ghost use Rattle.std.specs.Prelude.{◌≡◌, ◌++◌, map, IfOk, OnOk};
ghost use Rattle.std.specs.List.{enumerate_from, flat_map};
ghost use Rattle.vx_arb.specs.declared.entries.Look.{Look};
ghost use Rattle.vx_report.specs.Logs as spec;

use crate::fields::push_field;
use crate::notes::push_note;
use std::alloc::{AllocError, Global};
use vx_arb::{AbortNote, Entry, Look};

/// The entries of a log, one on a line and numbered from 0, and a line with the bytes that are free.
pub fn log_text(alloc: Global, log: &[Entry], free: u64) -> Result<Vec<u8>, AllocError>
    ensures { IfOk result (λ text. text.items ≡ spec.log_text log.now free) }
{
    let mut text = Vec::new(alloc);
    push_entries(alloc, &mut text, log)?;
    push_field(&mut text, "free ", free)?;
    text.push(b'\n')?;
    Ok(text)
}

fn push_entries(alloc: Global, text: &mut Vec<u8>, log: &[Entry]) -> Result<(), AllocError>
    ensures { OnOk result (text.new.items
        ≡ text.old.items ++ flat_map spec.entry_line (enumerate_from 0 log.now)) }
{
    for (number, entry) in log.iter().enumerate() {
        push_entry(alloc, text, number, entry)?;
    }
    Ok(())
}

fn push_entry(
    alloc: Global,
    text: &mut Vec<u8>,
    number: usize,
    entry: &Entry,
) -> Result<(), AllocError>
    ensures { OnOk result (text.new.items ≡ text.old.items ++ spec.entry_line (number, entry.now)) }
{
    push_field(text, "log ", number)?;
    text.push(b' ')?;
    push_change_of(alloc, text, entry)?;
    text.push(b'\n')?;
    Ok(())
}

fn push_change_of(alloc: Global, text: &mut Vec<u8>, entry: &Entry) -> Result<(), AllocError>
    ensures { OnOk result (text.new.items ≡ text.old.items ++ spec.entry_text entry.now) }
{
    match entry {
        Entry::Grant { job, amount } => push_change(text, "grant", *job, *amount),
        Entry::Shrink { job, amount } => push_change(text, "shrink", *job, *amount),
        Entry::Reclaim { job, amount } => push_change(text, "reclaim", *job, *amount),
        Entry::Abort {
            note,
            amount,
            looks,
        } => push_abort(alloc, text, note, *amount, looks.as_slice()),
        Entry::Retire { job, amount } => push_change(text, "retire", *job, *amount),
    }
}

fn push_change(text: &mut Vec<u8>, name: &str, job: u32, amount: u64) -> Result<(), AllocError>
    ensures { OnOk result (text.new.items ≡ text.old.items ++ spec.change_text name.now job amount) }
{
    text.extend_from_slice(name.as_bytes())?;
    push_field(text, " job=", job)?;
    push_field(text, " amount=", amount)
}

fn push_abort(
    alloc: Global,
    text: &mut Vec<u8>,
    note: &AbortNote,
    amount: u64,
    looks: &[Look],
) -> Result<(), AllocError>
    ensures { OnOk result (text.new.items
        ≡ text.old.items ++ spec.abort_text note.now amount looks.now) }
{
    push_change(text, "abort", note.job, amount)?;
    push_note(text, note)?;
    text.extend_from_slice(b" looks=")?;
    let jobs = jobs_of(alloc, looks)?;
    push_jobs(text, jobs.as_slice())
}

/// The numbers of the jobs that were looked at, ascending.
fn jobs_of(alloc: Global, looks: &[Look]) -> Result<Vec<u32>, AllocError>
    ensures { IfOk result (λ jobs. jobs.items ≡ spec.jobs_of looks.now) }
{
    let mut jobs = jobs_as_looked_at(alloc, looks)?;
    jobs.sort_unstable();
    Ok(jobs)
}

fn jobs_as_looked_at(alloc: Global, looks: &[Look]) -> Result<Vec<u32>, AllocError>
    ensures { IfOk result (λ jobs. jobs.items ≡ map (λ (look : Look). look.job) looks.now) }
{
    let mut jobs = Vec::with_capacity(alloc, looks.len())?;
    for look in looks {
        jobs.push(look.job)?;
    }
    Ok(jobs)
}

fn push_jobs(text: &mut Vec<u8>, jobs: &[u32]) -> Result<(), AllocError>
    ensures { OnOk result (text.new.items ≡ text.old.items ++ spec.listed jobs.now) }
{
    match jobs.split_first() {
        None => Ok(()),
        Some((first, rest)) => {
            push_field(text, "", *first)?;
            push_more_jobs(text, rest)
        }
    }
}

fn push_more_jobs(text: &mut Vec<u8>, jobs: &[u32]) -> Result<(), AllocError>
    ensures { OnOk result (text.new.items ≡ text.old.items ++ spec.listed_after jobs.now) }
{
    for job in jobs {
        push_field(text, ",", *job)?;
    }
    Ok(())
}
