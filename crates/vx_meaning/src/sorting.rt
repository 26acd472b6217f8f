//! Order and top-n of a whole list.
ghost use Rattle.std.specs.Prelude.{◌≡◌, IfOk, IsPermutation, IsSorted};
ghost use Rattle.vx_value.specs.Order as order;
ghost use Rattle.vx_meaning.specs.Lines.{Ordered, FirstOf};
ghost use Rattle.vx_meaning.specs.Groups.{by_columns};
ghost use Rattle.vx_meaning.specs.Stopped.{Exactly};

use crate::cells::{cmp_keys, cmp_sorted};
use std::alloc::AllocError;
use std::cmp::Ordering;
use vx_value::{Row, SortKey};

/// The rows in the order of the keys; rows that tie stay as they came.
pub fn over_order(keys: &[SortKey], below: Vec<Row>) -> Result<Vec<Row>, AllocError>
    ensures { IfOk result (λ rows. Ordered keys.now (Exactly below.items) rows.items) }
{
    let mut rows = below;
    rows.sort_by(
        |a: &Row, b: &Row| -> Ordering
            ensures { result ≡ order.cmp_rows keys.entry.now a.entry.now b.entry.now }
        { cmp_sorted(a, b, keys) },
    )?;
    Ok(rows)
}

/// The first rows in the order of the keys.
pub fn over_top(count: u64, keys: &[SortKey], below: Vec<Row>) -> Result<Vec<Row>, AllocError>
    ensures { IfOk result (λ rows. FirstOf count keys.now (Exactly below.items) rows.items) }
{
    let mut rows = over_order(keys, below)?;
    rows.truncate(count as usize);
    Ok(rows)
}

/// The rows with those of one key side by side.
pub fn by_key(columns: &[u32], below: Vec<Row>) -> Result<Vec<Row>, AllocError>
    ensures same { IfOk result (λ rows. IsPermutation below.items rows.items) }
    ensures sorted { IfOk result (λ rows. IsSorted (by_columns columns.now) rows.items) }
{
    let mut rows = below;
    rows.sort_by(
        |a: &Row, b: &Row| -> Ordering
            ensures { result ≡ by_columns columns.entry.now a.entry.now b.entry.now }
        { cmp_keys(a, columns, b, columns) },
    )?;
    Ok(rows)
}
