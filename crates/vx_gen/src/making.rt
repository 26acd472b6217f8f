//! The plan of a number.
ghost use Rattle.std.specs.Prelude.{◌≡◌, ◌≤◌, IfOk};
ghost use Rattle.vx_plan.specs.Check.{IsChecked};
ghost use Rattle.vx_gen.specs.Generated.{generated_plan};

use crate::nodes::{filtered, given, grouped, joined, sorted};
use crate::rows::{GROUPS, drawn_rows, group_rows};
use std::alloc::{AllocError, Global};
use vx_plan::Plan;
use vx_value::Kind;

/// The plan over so many rows that are drawn from a number. Nothing refuses it.
pub fn make_plan(alloc: Global, number: u64, rows: u32) -> Result<Plan, AllocError>
    requires some { 1 ≤ rows }
    requires most { rows ≤ 50000 }
    ensures is { IfOk result (λ plan. plan ≡ generated_plan number rows) }
    ensures checked { IfOk result IsChecked }
{
    let drawn = drawn_rows(alloc, number, rows)?;
    let drawn = given(alloc, 0, &[Kind::Int, Kind::Int, Kind::Int], drawn)?;
    let groups = group_rows(alloc, GROUPS)?;
    let groups = given(alloc, 2, &[Kind::Int, Kind::Text], groups)?;
    let drawn = filtered(alloc, drawn)?;
    let joined = joined(alloc, drawn, groups)?;
    let grouped = grouped(alloc, joined)?;
    let root = sorted(alloc, grouped)?;
    Ok(Plan { root })
}
