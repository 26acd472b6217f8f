//! The first rows of the generated plan, and its rows' hashes beside another language's.
use crate::make_plan;
use crate::rows::{drawn_rows, group_rows};
use std::test::Fail;
use vx_plan::{Body, Node, check};
use vx_value::{Row, Value, hash_key, hash_value};

/// The ints of a row of three.
fn ints(row: Option<&Row>) -> Option<(i64, i64, i64)> {
    match row?.cells() {
        [Value::Int(a), Value::Int(b), Value::Int(c)] => Some((*a, *b, *c)),
        _ => None,
    }
}

/// FNV-1a over the key bytes of all cells.
fn hash_of(rows: &[Row]) -> u64 {
    let mut hash = hash_key(&[]);
    for row in rows {
        for cell in row.cells() {
            hash = hash_value(hash, cell.as_ref());
        }
    }
    hash
}

/// The source of a node, of a join the left one, and a values node itself.
fn below(node: &Node) -> &Node {
    match &node.body {
        Body::Order { source, .. } => source.get(),
        Body::Aggregation { source, .. } => source.get(),
        Body::Join { left, .. } => left.get(),
        Body::Filter { source, .. } => source.get(),
        _ => node,
    }
}

#[test]
fn first_rows_are_those_of_the_formula(rt: HostRuntime) -> Result<(), Fail> {
    let cases = [
        (7, 0, (0, 278, -482)),
        (7, 1, (1, 253, 40)),
        (7, 2, (2, 45, -241)),
        (0, 0, (0, 307, -254)),
        (0, 2, (2, 125, 158)),
        (9_999_999_999, 1, (1, 235, 151)),
    ];
    for (number, place, wanted) in cases {
        let rows = drawn_rows(rt.alloc(), number, 3)?;
        assert_eq!(rt; ints(rows.get(place)), Some(wanted), "{number}, {place}");
    }
    Ok(())
}

/// The hashes are those of a program in another language.
#[test]
fn many_rows_are_those_of_the_formula(rt: HostRuntime) -> Result<(), Fail> {
    let rows = drawn_rows(rt.alloc(), 7, 1000)?;
    assert_eq!(rt; rows.len(), 1000);
    assert_eq!(rt; hash_of(rows.as_slice()), 0x2397_1d61_5285_f367);
    let groups = group_rows(rt.alloc(), 500)?;
    assert_eq!(rt; hash_of(groups.as_slice()), 0x96b0_0d0a_1bc9_e0df);
    Ok(())
}

#[test]
fn nodes_stand_above_each_other_in_order(rt: HostRuntime) -> Result<(), Fail> {
    let plan = make_plan(rt.alloc(), 7, 1000)?;
    assert!(rt; check(&plan).is_ok());
    let grouped = below(&plan.root);
    let joined = below(grouped);
    let filtered = below(joined);
    let given = below(filtered);
    let ids = [plan.root.id, grouped.id, joined.id, filtered.id, given.id];
    assert_eq!(rt; ids, [5, 4, 3, 1, 0]);
    Ok(())
}
