//! Runs of cases, and what differs.
ghost use Rattle.std.specs.Prelude.{◌≡◌, Some, false, IfOk, IsTrue};

use crate::case::Case;
use crate::side::part;
use anyhow::{Context, Result, ensure};
use std::alloc::{AllocError, Global};
use std::sync::Wait;
use std::thread::Threads;
use vx_engine::vxrun;
use vx_host::{FreeGate, To};

/// How many cases were run, and how many of them differ.
#[derive(Clone, Copy, Default)]
pub struct Tally {
    pub cases: u64,
    pub differ: u64,
}

/// What a run left.
#[derive(Drop)]
struct Left {
    status: u8,
    out: Vec<u8>,
    err: Vec<u8>,
}

/// Runs the cases of a file's text, one after another, and prints those that differ.
pub fn run_text<R: Threads + Wait + Sync + Print + AllocGlobal>(
    rt: &R,
    path: &str,
    text: &str,
    tally: &mut Tally,
) -> Result<()> {
    let before = tally.cases;
    let mut current: Option<Case> = None;
    for (place, line) in text.lines().enumerate() {
        let (word, rest) = part(line);
        if word == "case" {
            settle(rt, path, current.take(), tally)?;
            current = Some(Case::new(rt.alloc(), rest)?);
        } else if word != "" && word != "#" {
            let number = place.saturating_add(1);
            let mut case = current
                .take()
                .context(format_args!("{path}: {number}: no case yet"))?;
            case.add(rt.alloc(), word, rest)
                .context(format_args!("{path}: {number}"))?;
            current = Some(case);
        }
    }
    settle(rt, path, current, tally)?;
    ensure!(tally.cases > before, "{path}: no case");
    Ok(())
}

/// Runs a case, where there is one, and prints it where it differs.
fn settle<R: Threads + Wait + Sync + Print + AllocGlobal>(
    rt: &R,
    path: &str,
    finished: Option<Case>,
    tally: &mut Tally,
) -> Result<()> {
    let Some(mut case) = finished else {
        return Ok(());
    };
    let alloc = rt.alloc();
    let left = run(rt, alloc, &mut case)?;
    tally.cases = tally.cases.saturating_add(1);
    if !agrees(alloc, &case, &left)? {
        tally.differ = tally.differ.saturating_add(1);
        let name = &case.name;
        let came = told(alloc, Some(left.status), &left.out, &left.err)?;
        let wanted = told(alloc, case.status, &case.out.wanted, &case.err.wanted)?;
        println!(rt; "{path}: {name}: came {came}, wanted {wanted}")?;
    }
    Ok(())
}

fn run<R: Threads + Wait + Sync>(
    rt: &R,
    alloc: Global,
    case: &mut Case,
) -> Result<Left, AllocError> {
    let words = case.words(alloc)?;
    let mut host = case.host(alloc);
    let status = vxrun(rt, alloc, words.as_slice(), &mut host, &FreeGate);
    Ok(Left {
        status,
        out: Vec::from_slice(alloc, host.taken(To::Output))?,
        err: Vec::from_slice(alloc, host.taken(To::Errors))?,
    })
}

/// Whether a run left what the case wants.
fn agrees(alloc: Global, case: &Case, left: &Left) -> Result<bool, AllocError>
    ensures status { IfOk result (λ met. IsTrue met → case.now.status ≡ Some left.now.status) }
    ensures err { IfOk result (λ met. IsTrue met → case.now.err.wanted.items ≡ left.now.err.items) }
    ensures out { case.now.any_order ≡ false
        → IfOk result (λ met. IsTrue met → case.now.out.wanted.items ≡ left.now.out.items) }
{
    if case.status != Some(left.status) || case.err.wanted != left.err {
        return Ok(false);
    }
    if case.any_order {
        return is_shuffled(alloc, &case.out.wanted, &left.out);
    }
    Ok(case.out.wanted == left.out)
}

/// Whether two outputs have the same lines, the first two in their places.
fn is_shuffled(alloc: Global, wanted: &[u8], left: &[u8]) -> Result<bool, AllocError> {
    let wanted_text = String::from_utf8_lossy(alloc, wanted)?;
    let left_text = String::from_utf8_lossy(alloc, left)?;
    are_shuffled(alloc, wanted_text.as_str(), left_text.as_str())
}

fn are_shuffled(alloc: Global, wanted: &str, left: &str) -> Result<bool, AllocError> {
    let (wanted_head, wanted_count, wanted_rows) = parts(wanted);
    let (left_head, left_count, left_rows) = parts(left);
    if wanted_head != left_head || wanted_count != left_count {
        return Ok(false);
    }
    let wanted_lines = sorted(alloc, wanted_rows)?;
    let left_lines = sorted(alloc, left_rows)?;
    Ok(wanted_lines == left_lines)
}

/// The first line, the second one, and what stands behind them.
fn parts(text: &str) -> (&str, &str, &str) {
    let (head, rest) = text.split_once('\n').unwrap_or((text, ""));
    let (count, rows) = rest.split_once('\n').unwrap_or((rest, ""));
    (head, count, rows)
}

fn sorted(alloc: Global, rows: &str) -> Result<Vec<&str>, AllocError> {
    let mut lines: Vec<&str> = rows.split('\n').collect(alloc)?;
    lines.sort()?;
    Ok(lines)
}

fn told(alloc: Global, status: Option<u8>, out: &[u8], err: &[u8]) -> Result<String, AllocError> {
    let out = String::from_utf8_lossy(alloc, out)?;
    let err = String::from_utf8_lossy(alloc, err)?;
    format!(in alloc; "status {status:?} out {out:?} err {err:?}")
}
