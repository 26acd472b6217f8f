//! Aggregates that pick one of a group's values.
ghost use Rattle.std.specs.Prelude.{◌≡◌, ◌&&◌, ◌||◌, Bool};
ghost use Rattle.vx_value.specs.Value.{owned, IsLawful};
ghost use Rattle.vx_meaning.specs.Folds as folds;
ghost use Rattle.vx_meaning.specs.Picks.{pick_name};
ghost use Rattle.vx_meaning.specs.Sums.{fold_in};

use crate::cells::cell;
use std::cmp::Ordering;
use vx_plan::{Aggregate, Step};
use vx_value::{Row, ValueRef, cmp_values};

/// Which of the values of a column an aggregate picks.
#[derive(Clone, Copy, Debug, PartialEq, Eq)]
pub enum Pick {
    Least,
    Greatest,
    /// Whether all bools are true.
    All,
    /// Whether any bool is true.
    Any,
}

impl Pick {
    /// What is picked over these rows, null where there is nothing to pick.
    pub fn over(self, step: Step, column: Option<u32>, rows: &[Row]) -> ValueRef<'_>
        ensures is { owned result ≡ fold_in step (pick_name self) column rows.now }
        ensures lawful { IsLawful (owned result) }
    {
        let mut picked = ValueRef::Null;
        for row in rows {
            picked = self.plus(picked, self.part(column, row));
        }
        picked
    }

    /// Two picks put together.
    fn plus<'a>(self, a: ValueRef<'a>, b: ValueRef<'a>) -> ValueRef<'a>
        requires a { IsLawful (owned a) }
        requires b { IsLawful (owned b) }
        ensures is { owned result ≡ folds.plus (pick_name self) (owned a.entry) (owned b.entry) }
        ensures lawful { IsLawful (owned result) }
    {
        match self {
            Pick::Least => lesser(a, b),
            Pick::Greatest => greater(a, b),
            Pick::All => all(a, b),
            Pick::Any => any(a, b),
        }
    }

    /// What a row brings.
    fn part(self, column: Option<u32>, row: &Row) -> ValueRef<'_>
        ensures is { owned result ≡ folds.part Step.Single (pick_name self) column row.now }
        ensures lawful { IsLawful (owned result) }
    {
        match self {
            Pick::Least => cell(column, row),
            Pick::Greatest => cell(column, row),
            Pick::All => truth_only(cell(column, row)),
            Pick::Any => truth_only(cell(column, row)),
        }
    }
}

fn truth_only(value: ValueRef<'_>) -> ValueRef<'_>
    ensures is { owned result ≡ folds.truth_only (owned value.entry) }
    ensures lawful { IsLawful (owned result) }
{
    match value {
        ValueRef::Bool(b) => ValueRef::Bool(b),
        _ => ValueRef::Null,
    }
}

fn lesser<'a>(a: ValueRef<'a>, b: ValueRef<'a>) -> ValueRef<'a>
    requires a { IsLawful (owned a) }
    requires b { IsLawful (owned b) }
    ensures is { owned result ≡ folds.lesser (owned a.entry) (owned b.entry) }
    ensures lawful { IsLawful (owned result) }
{
    if a.is_null() {
        return b;
    }
    if b.is_null() {
        return a;
    }
    match cmp_values(b, a) {
        Ordering::Less => b,
        _ => a,
    }
}

fn greater<'a>(a: ValueRef<'a>, b: ValueRef<'a>) -> ValueRef<'a>
    requires a { IsLawful (owned a) }
    requires b { IsLawful (owned b) }
    ensures is { owned result ≡ folds.greater (owned a.entry) (owned b.entry) }
    ensures lawful { IsLawful (owned result) }
{
    if a.is_null() {
        return b;
    }
    if b.is_null() {
        return a;
    }
    match cmp_values(b, a) {
        Ordering::Greater => b,
        _ => a,
    }
}

fn all<'a>(a: ValueRef<'a>, b: ValueRef<'a>) -> ValueRef<'a>
    ensures is { owned result ≡ folds.by_truths ◌&&◌ (owned a.entry) (owned b.entry) }
    ensures lawful { IsLawful (owned result) }
{
    match truth_only(a) {
        ValueRef::Bool(x) => match truth_only(b) {
            ValueRef::Bool(y) => ValueRef::Bool(x && y),
            _ => ValueRef::Bool(x),
        },
        _ => truth_only(b),
    }
}

fn any<'a>(a: ValueRef<'a>, b: ValueRef<'a>) -> ValueRef<'a>
    ensures is { owned result ≡ folds.by_truths ◌||◌ (owned a.entry) (owned b.entry) }
    ensures lawful { IsLawful (owned result) }
{
    match truth_only(a) {
        ValueRef::Bool(x) => match truth_only(b) {
            ValueRef::Bool(y) => ValueRef::Bool(x || y),
            _ => ValueRef::Bool(x),
        },
        _ => truth_only(b),
    }
}
