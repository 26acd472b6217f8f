//! The plan of a file's bytes, or its first refusal.
ghost use Rattle.std.specs.Prelude.{◌≡◌, ◌||◌, IfOk, OnOk};
ghost use Rattle.vx_plan.specs.Check.{IsChecked};
ghost use Rattle.serde_json.specs.View.{view};
ghost use Rattle.vx_json.specs.Outcome.{Gives};
ghost use Rattle.vx_json.specs.Plans as spec;

use crate::error::PlanError;
use crate::fields::has_only;
use crate::fronts::MOST_LEVELS;
use crate::owned::source_of;
use crate::way::Way;
use serde_json::Value as Json;
use std::alloc::Global;
use vx_plan::{LimitName, Node, Plan, Refusal, check, check_sizes};

/// The plan of a file's bytes, or the first refusal of it: of its form first, then of its limits, its ids, its
/// types and its widths.
pub fn plan_of(alloc: Global, bytes: &[u8]) -> Result<Plan, PlanError>
    ensures gives { Gives result (spec.plan_of bytes.now) }
    ensures checked { IfOk result IsChecked }
{
    let Parsed { plan, long } = parse_plan(alloc, bytes)?;
    if_checked(plan, long)
}

/// The plan, if the later stages refuse nothing.
#[tactic(auto, using(crate::proofs::PlanLaws::checking))]
fn if_checked(plan: Plan, long: bool) -> Result<Plan, PlanError>
    ensures gives { Gives result (spec.if_checked plan (spec.checked long plan)) }
    ensures checked { IfOk result IsChecked }
{
    match checked(&plan, long) {
        Ok(()) => Ok(plan),
        Err(refusal) => Err(PlanError::Refused(refusal)),
    }
}

/// What the later stages say of a plan from which a text was left out or not.
fn checked(plan: &Plan, long: bool) -> Result<(), Refusal>
    ensures { result ≡ spec.checked long plan.now }
{
    if long {
        check_sizes(plan)?;
        Err(Refusal::P6(LimitName::Text))
    } else {
        check(plan)
    }
}

/// What the bytes of a file spell.
#[derive(Drop)]
pub(crate) struct Parsed {
    /// The plan. A text of more than 65,535 bytes is left out.
    pub(crate) plan: Plan,
    /// Whether such a text was there.
    pub(crate) long: bool,
}

/// The plan that the bytes of a file spell.
pub(crate) fn parse_plan(alloc: Global, bytes: &[u8]) -> Result<Parsed, PlanError>
    ensures { Gives result (spec.parsed bytes.now) }
{
    let json = Json::from_slice(alloc, bytes)?;
    let mut long = false;
    let plan = plan_in(alloc, json, &mut long)?;
    Ok(Parsed { plan, long })
}

/// The plan that a JSON value is, and whether a string in it is too long.
fn plan_in(alloc: Global, value: Json, long: &mut bool) -> Result<Plan, PlanError>
    ensures gives { Gives result (spec.plan_in (view value)) }
    ensures noted { OnOk result (long.new ≡ (long.old || spec.has_long (view value))) }
{
    if !is_file(&value) {
        let path = String::from_str(alloc, "/")?;
        return Err(PlanError::Refused(Refusal::P2(path)));
    }
    let root = root_in(alloc, value, long)?;
    Ok(Plan { root })
}

fn is_file(value: &Json) -> bool
    ensures { result ≡ spec.is_file (view value.now) }
{
    has_only(&["plan"], &[], value)
}

fn root_in(alloc: Global, value: Json, long: &mut bool) -> Result<Node, PlanError>
    ensures gives { Gives result (spec.root_in (view value)) }
    ensures noted { OnOk result (long.new ≡ (long.old || spec.has_long (view value))) }
{
    source_of(alloc, MOST_LEVELS, &Way::Root, "plan", value, long)
}
