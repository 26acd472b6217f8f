//! Expressions over batches. Of each line of `expressions.txt` it evaluates batches of 36 rows in every encoding of
//! every column, at all rows and at some, and compares with the same of each row alone; of each line of `values.txt`,
//! a batch of its own, with the values and faults that stand there. It prints what differs.
#![tactic(auto)]

ghost use Rattle.std.specs.Prelude.{IsTrue};
ghost use Rattle.vx_eval.specs.Literals.{literals_fit};

mod columns;
mod comparing;
mod expressions;
mod samples;
mod values;

use anyhow::{Context, Result};
use columns::kind_of;
use comparing::is_same_over;
use expressions::expression;
use samples::{ENCODINGS, column};
use std::alloc::Global;
use std::fs;
use values::said;
use vx_expr::Expr;
use vx_value::Kind;

fn main(rt: HostRuntime) -> Result<()> {
    let alloc = rt.alloc();
    let (mut count, mut batches, mut differ) = (0u32, 0u32, 0u32);
    for line in fs::read_to_string(&rt, "expressions.txt")?.as_str().lines() {
        if line.is_empty() || line.starts_with('#') {
            continue;
        }
        let (kinds, words) = line.split_once(" | ").context("no expression")?;
        let (all, apart) = over_encodings(alloc, kinds, words)?;
        count = count.saturating_add(1);
        batches = batches.saturating_add(all);
        if apart > 0 {
            differ = differ.saturating_add(1);
            println!(rt; "{line}: {apart} of {all} batches differ")?;
        }
    }
    println!(rt; "{count} expressions over {batches} batches, {differ} differ")?;
    let (mut count, mut differ) = (0u32, 0u32);
    for line in fs::read_to_string(&rt, "values.txt")?.as_str().lines() {
        if line.is_empty() || line.starts_with("--") {
            continue;
        }
        let (given, wanted) = line.rsplit_once(" | ").context("no values")?;
        let said = said(alloc, given)?;
        count = count.saturating_add(1);
        if said.as_str() != wanted {
            differ = differ.saturating_add(1);
            println!(rt; "{line}: {said}")?;
        }
    }
    println!(rt; "{count} batches of values, {differ} differ")?;
    Ok(())
}

/// How many batches an expression was evaluated over, and how many gave another thing than their rows alone.
fn over_encodings(alloc: Global, kinds: &str, words: &str) -> Result<(u32, u32)> {
    let mut all: Vec<Kind> = Vec::new(alloc);
    for word in kinds.split(' ') {
        all.push(kind_of(alloc, word)?)?;
    }
    let fit = expression(alloc, words)?;
    let (mut count, mut differ) = (0u32, 0u32);
    for code in 0..codes_of(all.len()) {
        count = count.saturating_add(1);
        if !is_same_in(alloc, &fit.expr, all.as_slice(), code)? {
            differ = differ.saturating_add(1);
        }
    }
    Ok((count, differ))
}

/// How many codes so many columns have.
fn codes_of(columns: usize) -> u32 {
    match columns {
        1 => 4,
        3 => 64,
        _ => 16,
    }
}

/// Whether a batch gives the same as its rows alone. Two bits of the code are a column's encoding; of four columns
/// the third has that of the first, and the fourth that of the second.
fn is_same_in(alloc: Global, e: &Expr, kinds: &[Kind], code: u32) -> Result<bool>
    requires { IsTrue (literals_fit e.now) }
{
    let mut columns = Vec::new(alloc);
    let (mut number, mut rest) = (0u32, code);
    for kind in kinds {
        let encoding = ENCODINGS[(rest % 4) as usize];
        columns.push(column(alloc, *kind, encoding, number)?)?;
        number = number.saturating_add(1);
        rest = if number == 2 && kinds.len() == 4 {
            code
        } else {
            rest / 4
        };
    }
    Ok(is_same_over(alloc, e, columns)?)
}
