//! Single cells of rows, and keys made of them.
ghost use Rattle.std.specs.Prelude.{◌≡◌, IfOk};
ghost use Rattle.vx_value.specs.Value.{owned, IsLawful};
ghost use Rattle.vx_value.specs.Row.{value_at};
ghost use Rattle.vx_value.specs.KeyBytes.{key_values};
ghost use Rattle.vx_value.specs.Order as order;
ghost use Rattle.vx_meaning.specs.Folds as folds;
ghost use Rattle.vx_meaning.specs.Groups.{key_cmp};

use std::alloc::{AllocError, Global};
use std::cmp::Ordering;
use vx_value::{Row, SortKey, Txt, Value, ValueRef, cmp_values};

/// The value at a place, and null past the end.
pub fn value_in(row: &Row, place: usize) -> ValueRef<'_>
    ensures is { owned result ≡ value_at row.now place }
    ensures lawful { IsLawful (owned result) }
{
    match row.cells().get(place) {
        Some(value) => value.as_ref(),
        None => ValueRef::Null,
    }
}

/// The value in a column, and null where there is none.
pub fn cell(column: Option<u32>, row: &Row) -> ValueRef<'_>
    ensures is { owned result ≡ folds.cell column row.now }
    ensures lawful { IsLawful (owned result) }
{
    match column {
        Some(column) => value_in(row, column as usize),
        None => ValueRef::Null,
    }
}

/// The value in the next column.
pub fn next_cell(column: Option<u32>, row: &Row) -> ValueRef<'_>
    ensures is { owned result ≡ folds.next_cell column row.now }
    ensures lawful { IsLawful (owned result) }
{
    match column {
        Some(column) => value_in(row, column as usize + 1),
        None => ValueRef::Null,
    }
}

/// The same value, a text in memory of its own.
pub fn to_value(alloc: Global, value: ValueRef<'_>) -> Result<Value, AllocError>
    requires { IsLawful (owned value) }
    ensures { IfOk result (λ v. v ≡ owned value.entry) }
{
    match value {
        ValueRef::Null => Ok(Value::Null),
        ValueRef::Bool(b) => Ok(Value::Bool(b)),
        ValueRef::Int(n) => Ok(Value::Int(n)),
        ValueRef::Text(bytes) => Ok(Value::Text(Txt::of(alloc, bytes)?)),
    }
}

/// The values in these columns.
pub fn key_of(alloc: Global, row: &Row, columns: &[u32]) -> Result<Vec<Value>, AllocError>
    ensures { IfOk result (λ key. key.items ≡ key_values columns.now row.now) }
{
    let mut key = Vec::with_capacity(alloc, columns.len())?;
    for column in columns {
        key.push(to_value(alloc, value_in(row, *column as usize))?)?;
    }
    Ok(key)
}

/// The order of two keys, value by value.
pub fn cmp_keys(a: &Row, of_a: &[u32], b: &Row, of_b: &[u32]) -> Ordering
    ensures { result ≡ key_cmp (key_values of_a.now a.now) (key_values of_b.now b.now) }
{
    let mut at = 0;
    while at < of_a.len() {
        if at >= of_b.len() {
            return Ordering::Greater;
        }
        match cmp_values(
            value_in(a, of_a[at] as usize),
            value_in(b, of_b[at] as usize),
        ) {
            Ordering::Equal => {}
            order => return order,
        }
        at += 1;
    }
    if at < of_b.len() {
        Ordering::Less
    } else {
        Ordering::Equal
    }
}

/// Two rows by the first sort key that tells them apart; a missing column is null.
pub fn cmp_sorted(a: &Row, b: &Row, keys: &[SortKey]) -> Ordering
    ensures { result ≡ order.cmp_rows keys.now a.now b.now }
{
    for key in keys {
        match key.compare(
            value_in(a, key.column as usize),
            value_in(b, key.column as usize),
        ) {
            Ordering::Equal => {}
            order => return order,
        }
    }
    Ordering::Equal
}
