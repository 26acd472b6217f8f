//! The check of a plan, in the order in which refusals are asked.
ghost use Rattle.std.specs.Prelude.{◌≡◌, Ok};
ghost use Rattle.vx_plan.specs.Tree.{tree};
ghost use Rattle.vx_plan.specs.Limits as limits;
ghost use Rattle.vx_plan.specs.Check as spec;

use crate::allowance::left_after;
use crate::columns::columns_within;
use crate::growth::growth_within;
use crate::ids::{Seen, enter_all};
use crate::node::{Node, Plan};
use crate::refusal::{LimitName, Refusal};
use crate::texts::{are_depths_within, are_texts_within};
use crate::types::node_kinds;
use crate::widths::{from_one, node_width};

/// Refuses a plan that was read for the first thing that is wrong in it: a limit, an id that stands twice, a node
/// that doesn't type, a width that isn't lawful. It takes no memory.
pub fn check(plan: &Plan) -> Result<(), Refusal>
    ensures { result ≡ spec.check_plan plan.now }
{
    check_sizes(plan)?;
    check_texts(plan)?;
    check_rest(plan)
}

/// The limits that are asked before the lengths of texts. A reader that met a text too long for a `Txt` asks
/// these first, and then refuses the text itself.
pub fn check_sizes(plan: &Plan) -> Result<(), Refusal>
    ensures { result ≡ spec.check_sizes (tree plan.now.root) }
{
    check_limits(
        &[
            LimitName::Nodes,
            LimitName::Columns,
            LimitName::Rows,
            LimitName::Cells,
            LimitName::Depth,
        ],
        &plan.root,
    )
}

fn check_texts(plan: &Plan) -> Result<(), Refusal>
    ensures { result ≡ spec.check_texts (tree plan.now.root) }
{
    check_limits(&[LimitName::Text], &plan.root)
}

/// What is asked after the lengths of texts.
#[tactic(auto, using(crate::proofs::CheckLemmas::few_nodes, crate::proofs::CheckLemmas::lawful_columns, crate::proofs::CheckLemmas::stages))]
fn check_rest(plan: &Plan) -> Result<(), Refusal>
    requires { spec.check_sizes (tree plan.now.root) ≡ Ok tt }
    ensures { result ≡ spec.check_rest (tree plan.now.root) }
{
    check_limits(&[LimitName::Growth], &plan.root)?;
    enter_all(&plan.root, Seen::new())?;
    node_kinds(&plan.root)?;
    let width = node_width(&plan.root)?;
    from_one(plan.root.id, width)?;
    Ok(())
}

/// The first of these limits that is passed refuses.
fn check_limits(names: &[LimitName], node: &Node) -> Result<(), Refusal>
    ensures { result ≡ limits.check_limits names.now (tree node.now) }
{
    for name in names {
        if !keeps(*name, node) {
            return Err(Refusal::P6(*name));
        }
    }
    Ok(())
}

fn keeps(name: LimitName, node: &Node) -> bool
    ensures { result ≡ limits.keeps name (tree node.now) }
{
    match name {
        LimitName::Nodes => left_after(name, node, 64).is_some(),
        LimitName::Columns => columns_within(node).is_some(),
        LimitName::Rows => left_after(name, node, 100_000).is_some(),
        LimitName::Cells => left_after(name, node, 1_000_000).is_some(),
        LimitName::Depth => are_depths_within(node),
        LimitName::Text => are_texts_within(node),
        LimitName::Growth => growth_within(node).is_some(),
    }
}
