//! Ids that stand twice.
ghost use Rattle.std.specs.Prelude.{◌≡◌, ◌≤◌, ◌<◌, ◌+◌, ◌++◌, ◌∷◌, [], length, nat_eq, IfOk};
ghost use Rattle.std.specs.List.{list_any};
ghost use Rattle.vx_plan.specs.Tree.{tree, pre_order};
ghost use Rattle.vx_plan.specs.Ids as ids;

use crate::lists::contains;
use crate::node::{Body, Node};
use crate::refusal::Refusal;
use std::marker::Model;

/// Up to 64 ids that were met.
#[derive(Drop)]
pub struct Seen {
    ids: [u32; 64],
    len: usize,
}

impl Model for Seen {
    ghost use Rattle.std.specs.Prelude.{ℕ, List, ◌≤◌, take};

    ghost Value = { List ℕ };

    ghost view = { λ seen. take seen.len seen.ids };

    ghost invariant = { λ seen. seen.len ≤ 64 };
}

impl Seen {
    pub fn new() -> Seen
        ensures { result ≡ [] }
    {
        Seen {
            ids: [0; 64],
            len: 0,
        }
    }

    fn has(&self, id: u32) -> bool
        ensures { result ≡ list_any (nat_eq id) self.now }
    {
        contains(&self.ids[..self.len], id)
    }

    fn push(&mut self, id: u32)
        requires { length self.old < 64 }
        ensures { self.new ≡ self.old ++ id ∷ [] }
    {
        self.ids[self.len] = id;
        self.len += 1;
    }
}

/// The ids met with one more, or the refusal of one that was met before.
fn enter(seen: Seen, id: u32) -> Result<Seen, Refusal>
    requires { length seen < 64 }
    ensures is { result ≡ ids.enter seen id }
    ensures count { IfOk result (λ more. length more ≡ length seen + 1) }
{
    let mut seen = seen;
    if seen.has(id) {
        return Err(Refusal::P7 { id });
    }
    seen.push(id);
    Ok(seen)
}

/// The ids met with those of a node and all below it, each node before its sources, or the refusal of the first
/// that was met before.
pub fn enter_all(node: &Node, seen: Seen) -> Result<Seen, Refusal>
    requires { length seen + length (pre_order (tree node.now)) ≤ 64 }
    ensures is { result ≡ ids.enter_all (tree node.now) seen }
    ensures count { IfOk result (λ more. length more ≡ length seen + length (pre_order (tree node.now))) }
{
    match &node.body {
        Body::Values { .. } => enter(seen, node.id),
        Body::Filter { source, .. } => enter_all(source.get(), enter(seen, node.id)?),
        Body::Project { source, .. } => enter_all(source.get(), enter(seen, node.id)?),
        Body::Aggregation { source, .. } => enter_all(source.get(), enter(seen, node.id)?),
        Body::Join { left, right, .. } => {
            let here = enter(seen, node.id)?;
            let left = enter_all(left.get(), here)?;
            enter_all(right.get(), left)
        }
        Body::Order { source, .. } => enter_all(source.get(), enter(seen, node.id)?),
        Body::TopN { source, .. } => enter_all(source.get(), enter(seen, node.id)?),
        Body::Limit { source, .. } => enter_all(source.get(), enter(seen, node.id)?),
        Body::Exchange { source, .. } => enter_all(source.get(), enter(seen, node.id)?),
    }
}
