//! Orders of values, of nulls under each key, and of rows by two keys.
use crate::rows::pair;
use anyhow::Result;
use std::alloc::Global;
use vx_value::{SortKey, ValueRef, cmp_rows, cmp_values, is_same};

/// Pairs of which the first is less: how they compare, the other way round, the first with itself, and sameness.
pub fn of_values(alloc: Global) -> Result<String> {
    let mut text = String::new(alloc);
    for (low, high) in [
        (ValueRef::Null, ValueRef::Bool(false)),
        (ValueRef::Null, ValueRef::Text(b"")),
        (ValueRef::Bool(false), ValueRef::Bool(true)),
        (ValueRef::Int(i64::MIN), ValueRef::Int(-1)),
        (ValueRef::Int(-1), ValueRef::Int(0)),
        (ValueRef::Int(9), ValueRef::Int(10)),
        (ValueRef::Text(b""), ValueRef::Text(b"\0")),
        (ValueRef::Text(b"ab"), ValueRef::Text(b"abc")),
        (ValueRef::Text(b"abc"), ValueRef::Text(b"b")),
        (ValueRef::Text(b"z"), ValueRef::Text("\u{e9}".as_bytes())),
    ] {
        let orders = [
            cmp_values(low, high),
            cmp_values(high, low),
            cmp_values(low, low),
        ];
        let same = [is_same(low, high), is_same(low, low)];
        text.push_str(format!(in alloc; "values {orders:?} {same:?}\n")?.as_str())?;
    }
    Ok(text)
}

/// A null with an int, an int with a null, two ints, and two nulls, by each direction and place of nulls.
pub fn of_nulls(alloc: Global) -> Result<String> {
    let mut text = String::new(alloc);
    for (descending, nulls_first) in [(false, true), (false, false), (true, true), (true, false)] {
        let key = SortKey {
            column: 0,
            descending,
            nulls_first,
        };
        let (null, one, two) = (ValueRef::Null, ValueRef::Int(1), ValueRef::Int(2));
        let orders = [
            key.compare(null, one),
            key.compare(one, null),
            key.compare(one, two),
            key.compare(null, null),
        ];
        text.push_str(format!(in alloc; "nulls {orders:?}\n")?.as_str())?;
    }
    Ok(text)
}

const KEYS: [SortKey; 2] = [
    SortKey {
        column: 0,
        descending: false,
        nulls_first: false,
    },
    SortKey {
        column: 1,
        descending: true,
        nulls_first: false,
    },
];

/// Rows by a first column and, in a tie, by a second one that descends; and by no key.
pub fn of_rows(alloc: Global) -> Result<String> {
    let mut text = String::new(alloc);
    for (a, b, c, d) in [
        (1, Some(5), 2, Some(9)),
        (1, Some(5), 1, Some(9)),
        (1, Some(5), 1, None),
        (1, Some(5), 1, Some(5)),
    ] {
        let left = pair(alloc, a, b)?;
        let right = pair(alloc, c, d)?;
        let orders = [cmp_rows(&left, &right, &KEYS), cmp_rows(&left, &right, &[])];
        text.push_str(format!(in alloc; "rows {orders:?}\n")?.as_str())?;
    }
    Ok(text)
}
