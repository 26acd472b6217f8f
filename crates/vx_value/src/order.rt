//! The order of values, and when two are one value.
ghost use Rattle.std.specs.Prelude.{◌≡◌, ◌↔◌, IsTrue};
ghost use Rattle.vx_value.specs.Value.{owned};
ghost use Rattle.vx_value.specs.Order as spec;

use crate::value::ValueRef;
use std::cmp::Ordering;

/// False before true, ints by number, texts by bytes, and null before all. Values of different kinds stand
/// as their kinds do: bools, ints, texts.
#[tactic(auto, using(crate::proofs::OrderLemmas::value_orders), unfolding(crate::specs::Order::cmp_values))]
pub fn cmp_values(a: ValueRef<'_>, b: ValueRef<'_>) -> Ordering
    ensures { result ≡ spec.cmp_values (owned a.entry) (owned b.entry) }
{
    match a {
        ValueRef::Null => match b {
            ValueRef::Null => Ordering::Equal,
            ValueRef::Bool(_) | ValueRef::Int(_) | ValueRef::Text(_) => Ordering::Less,
        },
        ValueRef::Bool(m) => match b {
            ValueRef::Null => Ordering::Greater,
            ValueRef::Bool(n) => m.cmp(&n),
            ValueRef::Int(_) | ValueRef::Text(_) => Ordering::Less,
        },
        ValueRef::Int(m) => match b {
            ValueRef::Null | ValueRef::Bool(_) => Ordering::Greater,
            ValueRef::Int(n) => m.cmp(&n),
            ValueRef::Text(_) => Ordering::Less,
        },
        ValueRef::Text(s) => match b {
            ValueRef::Null | ValueRef::Bool(_) | ValueRef::Int(_) => Ordering::Greater,
            ValueRef::Text(t) => s.cmp(&t),
        },
    }
}

/// Whether two values are one value, where null is null.
pub fn is_same(a: ValueRef<'_>, b: ValueRef<'_>) -> bool
    ensures { IsTrue result ↔ (owned a.entry ≡ owned b.entry) }
{
    match a {
        ValueRef::Null => matches!(b, ValueRef::Null),
        ValueRef::Bool(m) => match b {
            ValueRef::Bool(n) => m == n,
            _ => false,
        },
        ValueRef::Int(m) => match b {
            ValueRef::Int(n) => m == n,
            _ => false,
        },
        ValueRef::Text(s) => match b {
            ValueRef::Text(t) => s == t,
            _ => false,
        },
    }
}
