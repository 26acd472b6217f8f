//! The typing of a plan's nodes.
ghost use Rattle.std.specs.Prelude.{◌≡◌, ◌≤◌, true, map, length, slice_get, Ok, IfOk};
ghost use Rattle.vx_expr.specs.Typing.{type_of as type_of_expr, all_kinds};
ghost use Rattle.vx_plan.specs.declared.refusal.LimitName.TheVariants.{Columns};
ghost use Rattle.vx_plan.specs.Limits.{columns, columns_joined, keeps_everywhere};
ghost use Rattle.vx_plan.specs.Outcome.{on_ok};
ghost use Rattle.vx_plan.specs.Tree.{tree};
ghost use Rattle.vx_plan.specs.Types as types;

use crate::aggregates::{grouped_kinds, is_same, kind_at};
use crate::kinds::Kinds;
use crate::node::{Body, JoinKind, Node};
use crate::refusal::Refusal;
use vx_expr::{Expr, TypeError, type_of};
use vx_value::{Kind, SortKey};

/// The kinds of the columns that a node gives, or the refusal of the first node at or below it that doesn't type;
/// sources come before the node, left before right.
pub fn node_kinds(node: &Node) -> Result<Kinds, Refusal>
    requires { keeps_everywhere Columns (tree node.now) ≡ true }
    ensures is { result ≡ types.typed (tree node.now) }
    ensures columns { IfOk result (λ kinds. length kinds ≡ columns (tree node.now)) }
{
    match &node.body {
        Body::Values { kinds, .. } => Ok(values_kinds(kinds.as_slice())),
        Body::Filter { predicate, source } => {
            let kinds = node_kinds(source.get())?;
            named(node.id, filter_kinds(predicate, kinds))
        }
        Body::Project { exprs, source } => {
            let kinds = node_kinds(source.get())?;
            named(node.id, project_kinds(exprs.as_slice(), kinds.as_slice()))
        }
        Body::Aggregation {
            step,
            keys,
            aggregates,
            source,
        } => {
            let below = node_kinds(source.get())?;
            let kinds = grouped_kinds(
                *step,
                keys.as_slice(),
                aggregates.as_slice(),
                below.as_slice(),
            );
            named(node.id, kinds)
        }
        Body::Join {
            kind,
            left_keys,
            right_keys,
            left,
            right,
        } => {
            let left = node_kinds(left.get())?;
            let right = node_kinds(right.get())?;
            let keys = (left_keys.as_slice(), right_keys.as_slice());
            named(
                node.id,
                joined_kinds(*kind, keys.0, keys.1, left, right.as_slice()),
            )
        }
        Body::Order { keys, source } => {
            let kinds = node_kinds(source.get())?;
            named(node.id, sorted_kinds(keys.as_slice(), kinds))
        }
        Body::TopN { keys, source, .. } => {
            let kinds = node_kinds(source.get())?;
            named(node.id, sorted_kinds(keys.as_slice(), kinds))
        }
        Body::Limit { source, .. } => node_kinds(source.get()),
        Body::Exchange { keys, source, .. } => {
            let kinds = node_kinds(source.get())?;
            named(node.id, dealt_kinds(keys.as_slice(), kinds))
        }
    }
}

/// A refusal with its node's id.
fn named(id: u32, kinds: Result<Kinds, TypeError>) -> Result<Kinds, Refusal>
    ensures { result ≡ types.named id kinds }
{
    match kinds {
        Ok(kinds) => Ok(kinds),
        Err(error) => Err(Refusal::P4 { node: id, error }),
    }
}

fn values_kinds(kinds: &[Kind]) -> Kinds
    requires { length kinds.now ≤ 64 }
    ensures { result ≡ kinds.now }
{
    let mut out = Kinds::new();
    out.append(kinds);
    out
}

fn filter_kinds(predicate: &Expr, kinds: Kinds) -> Result<Kinds, TypeError>
    ensures is { result ≡ on_ok (types.is_predicate (type_of_expr predicate.now kinds)) (λ _. Ok kinds) }
    ensures columns { IfOk result (λ out. length out ≡ length kinds) }
{
    let kind = type_of(predicate, kinds.as_slice())?;
    if is_same(kind, Kind::Bool) {
        Ok(kinds)
    } else {
        Err(TypeError::T2)
    }
}

fn project_kinds(exprs: &[Expr], kinds: &[Kind]) -> Result<Kinds, TypeError>
    requires { length exprs.now ≤ 64 }
    ensures is { result ≡ all_kinds (map (λ e. type_of_expr e kinds.now) exprs.now) }
    ensures columns { IfOk result (λ out. length out ≡ length exprs.now) }
{
    let mut out = Kinds::new();
    for e in exprs {
        out.push(type_of(e, kinds)?);
    }
    Ok(out)
}

fn sorted_kinds(keys: &[SortKey], kinds: Kinds) -> Result<Kinds, TypeError>
    ensures is { result ≡ on_ok (types.are_there kinds (map (λ key. key.column) keys.now)) (λ _. Ok kinds) }
    ensures columns { IfOk result (λ out. length out ≡ length kinds) }
{
    are_sort_keys_there(keys, kinds.as_slice())?;
    Ok(kinds)
}

fn are_sort_keys_there(keys: &[SortKey], kinds: &[Kind]) -> Result<(), TypeError>
    ensures { result ≡ types.are_there kinds.now (map (λ key. key.column) keys.now) }
{
    for key in keys {
        kind_at(kinds, key.column as usize)?;
    }
    Ok(())
}

fn dealt_kinds(keys: &[u32], kinds: Kinds) -> Result<Kinds, TypeError>
    ensures is { result ≡ on_ok (types.are_there kinds keys.now) (λ _. Ok kinds) }
    ensures columns { IfOk result (λ out. length out ≡ length kinds) }
{
    are_there(keys, kinds.as_slice())?;
    Ok(kinds)
}

fn are_there(keys: &[u32], kinds: &[Kind]) -> Result<(), TypeError>
    ensures { result ≡ types.are_there kinds.now keys.now }
{
    for key in keys {
        kind_at(kinds, *key as usize)?;
    }
    Ok(())
}

/// Key lists of different length are asked first, then the columns, left before right, then pairs of different
/// kinds.
fn joined_kinds(
    kind: JoinKind,
    left_keys: &[u32],
    right_keys: &[u32],
    left: Kinds,
    right: &[Kind],
) -> Result<Kinds, TypeError>
    requires { columns_joined kind (length left) (length right.now) ≤ 64 }
    ensures is { result ≡ types.kinds_joined kind left_keys.now right_keys.now left right.now }
    ensures columns { IfOk result (λ out. length out ≡ columns_joined kind (length left) (length right.now)) }
{
    if left_keys.len() != right_keys.len() {
        return Err(TypeError::T4);
    }
    are_there(left_keys, left.as_slice())?;
    are_there(right_keys, right)?;
    if !are_pairs_same(left_keys, right_keys, left.as_slice(), right) {
        return Err(TypeError::T3);
    }
    Ok(joined_columns(kind, left, right))
}

fn joined_columns(kind: JoinKind, left: Kinds, right: &[Kind]) -> Kinds
    requires { columns_joined kind (length left) (length right.now) ≤ 64 }
    ensures is { result ≡ types.joined kind left right.now }
    ensures columns { length result ≡ columns_joined kind (length left) (length right.now) }
{
    match kind {
        JoinKind::Semi | JoinKind::Anti => left,
        _ => {
            let mut out = left;
            out.append(right);
            out
        }
    }
}

/// Whether the keys' columns, which are there, are of one kind pair by pair.
fn are_pairs_same(left_keys: &[u32], right_keys: &[u32], left: &[Kind], right: &[Kind]) -> bool
    requires { length left_keys.now ≡ length right_keys.now }
    ensures { result ≡ types.are_pairs_same left.now right.now left_keys.now right_keys.now }
{
    for at in 0..left_keys.len() {
        if !is_same_at(left, left_keys[at], right, right_keys[at]) {
            return false;
        }
    }
    true
}

fn is_same_at(left: &[Kind], a: u32, right: &[Kind], b: u32) -> bool
    ensures { result ≡ types.is_same_at (slice_get left.now a) (slice_get right.now b) }
{
    match left.get(a as usize) {
        Some(a) => match right.get(b as usize) {
            Some(b) => is_same(*a, *b),
            None => false,
        },
        None => false,
    }
}
