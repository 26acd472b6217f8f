//! The nodes of the plan, from the leaves to the root.
ghost use Rattle.std.specs.Prelude.{◌≡◌, IfOk};
ghost use Rattle.vx_gen.specs.Generated as spec;

use sqlite_items::{Boxed, Items};
use std::alloc::{AllocError, Global};
use vx_expr::{Expr, Func};
use vx_plan::{Aggregate, AggregateName, Body, JoinKind, Node, Step};
use vx_value::{Kind, Row, SortKey, Value};

/// Values for one driver.
pub(crate) fn given(
    alloc: Global,
    id: u32,
    kinds: &[Kind],
    rows: Vec<Row>,
) -> Result<Node, AllocError>
    ensures { IfOk result (λ node. node ≡ spec.given id kinds.now rows.items) }
{
    let body = Body::Values {
        kinds: Items::from_slice(alloc, kinds)?,
        rows: Items::from_vec(rows),
        parallel: false,
    };
    Ok(Node { id, body })
}

/// The rows whose amount isn't 0.
pub(crate) fn filtered(alloc: Global, source: Node) -> Result<Node, AllocError>
    ensures { IfOk result (λ node. node ≡ spec.filtered source) }
{
    let body = Body::Filter {
        predicate: has_amount(alloc)?,
        source: Boxed::new(alloc, source)?,
    };
    Ok(Node { id: 1, body })
}

/// `neq(amount, 0)`
fn has_amount(alloc: Global) -> Result<Expr, AllocError>
    ensures { IfOk result (λ e. e ≡ spec.has_amount) }
{
    let amount = Expr::Column(2);
    let zero = Expr::Literal(Value::Int(0), Kind::Int);
    Ok(Expr::Call {
        func: Func::Neq,
        args: Items::from_vec(vec![in alloc; amount, zero]?),
    })
}

/// Each row with its group's number and name.
pub(crate) fn joined(alloc: Global, left: Node, right: Node) -> Result<Node, AllocError>
    ensures { IfOk result (λ node. node ≡ spec.joined left right) }
{
    let body = Body::Join {
        kind: JoinKind::Inner,
        left_keys: Items::from_slice(alloc, &[1])?,
        right_keys: Items::from_slice(alloc, &[0])?,
        left: Boxed::new(alloc, left)?,
        right: Boxed::new(alloc, right)?,
    };
    Ok(Node { id: 3, body })
}

/// For each name the number of its rows and the sum of their amounts.
pub(crate) fn grouped(alloc: Global, source: Node) -> Result<Node, AllocError>
    ensures { IfOk result (λ node. node ≡ spec.grouped source) }
{
    let count = Aggregate {
        name: AggregateName::Count,
        column: None,
    };
    let sum = Aggregate {
        name: AggregateName::Sum,
        column: Some(2),
    };
    let body = Body::Aggregation {
        step: Step::Single,
        keys: Items::from_slice(alloc, &[4])?,
        aggregates: Items::from_slice(alloc, &[count, sum])?,
        source: Boxed::new(alloc, source)?,
    };
    Ok(Node { id: 4, body })
}

/// The groups by name, ascending.
pub(crate) fn sorted(alloc: Global, source: Node) -> Result<Node, AllocError>
    ensures { IfOk result (λ node. node ≡ spec.sorted source) }
{
    let by_name = SortKey {
        column: 0,
        descending: false,
        nulls_first: false,
    };
    let body = Body::Order {
        keys: Items::from_slice(alloc, &[by_name])?,
        source: Boxed::new(alloc, source)?,
    };
    Ok(Node { id: 5, body })
}
