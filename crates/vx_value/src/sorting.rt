//! Sort keys, and rows compared by them.
ghost use Rattle.std.specs.Prelude.{◌≡◌, ◌<◌, length, All};
ghost use Rattle.vx_value.specs.Value.{owned};
ghost use Rattle.vx_value.specs.Order as spec;

use crate::order::cmp_values;
use crate::row::Row;
use crate::value::ValueRef;
use std::cmp::Ordering;

/// One key of an order: a column, its direction, and where nulls stand, whatever the direction.
#[derive(Clone, Copy, Debug, PartialEq, Eq)]
pub struct SortKey {
    pub column: u32,
    pub descending: bool,
    pub nulls_first: bool,
}

impl SortKey {
    /// Two values of the key's column.
    #[tactic(auto, using(crate::proofs::OrderLemmas::key_orders))]
    pub fn compare(self, a: ValueRef<'_>, b: ValueRef<'_>) -> Ordering
        ensures { result ≡ spec.by_key self (owned a.entry) (owned b.entry) }
    {
        let null = a.is_null();
        if null != b.is_null() {
            return if null == self.nulls_first {
                Ordering::Less
            } else {
                Ordering::Greater
            };
        }
        if self.descending {
            cmp_values(b, a)
        } else {
            cmp_values(a, b)
        }
    }
}

/// Two rows by the first key that tells them apart.
pub fn cmp_rows(a: &Row, b: &Row, keys: &[SortKey]) -> Ordering
    requires left { All (λ key. key.column < length a.now) keys.now }
    requires right { All (λ key. key.column < length b.now) keys.now }
    ensures { result ≡ spec.cmp_rows keys.now a.now b.now }
{
    for key in keys {
        match key.compare(a.get(key.column), b.get(key.column)) {
            Ordering::Equal => {}
            order => return order,
        }
    }
    Ordering::Equal
}
