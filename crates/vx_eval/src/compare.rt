//! Comparisons of two values of one kind, over whole columns.
ghost use Rattle.std.specs.Prelude.{◌≡◌, ℕ, ◌<◌, length, get_or, pos, false, IfOk};
ghost use Rattle.vx_value.specs.declared.value.Value.TheVariants as value;
ghost use Rattle.vx_expr.specs.Eval as eval;
ghost use Rattle.vx_expr.specs.declared.expression.Func.TheVariants as func;
ghost use Rattle.vx_eval.specs.Got.{got_of, got_under};
ghost use Rattle.vx_vector.specs.Lanes.{bool_lane, int_lane};

use crate::leaf::filled;
use crate::marks::{strictest, strictest_marks};
use crate::rows::{Two, each_two};
use std::alloc::{AllocError, Global};
use std::cmp::Ordering;
use std::marker::PhantomData;
use vx_vector::{Bools, Ints};

/// A comparison of two values of one kind.
pub trait Comparison {
    ghost use Rattle.vx_expr.specs.declared.expression.Func.{Func};

    ghost func: { Func };

    /// Whether two values in this order pass.
    fn of_order(order: Ordering) -> bool
        ensures { eval.truth result ≡ eval.order_test func order };
}

/// `eq`.
pub struct Equal;

impl Comparison for Equal {
    ghost func = { func.Eq };

    #[inline(always)]
    fn of_order(order: Ordering) -> bool {
        order.is_eq()
    }
}

/// `neq`.
pub struct Unequal;

impl Comparison for Unequal {
    ghost func = { func.Neq };

    #[inline(always)]
    fn of_order(order: Ordering) -> bool {
        order.is_ne()
    }
}

/// `lt`.
pub struct Less;

impl Comparison for Less {
    ghost func = { func.Lt };

    #[inline(always)]
    fn of_order(order: Ordering) -> bool {
        order.is_lt()
    }
}

/// `lte`.
pub struct AtMost;

impl Comparison for AtMost {
    ghost func = { func.Lte };

    #[inline(always)]
    fn of_order(order: Ordering) -> bool {
        order.is_le()
    }
}

/// `gt`.
pub struct Greater;

impl Comparison for Greater {
    ghost func = { func.Gt };

    #[inline(always)]
    fn of_order(order: Ordering) -> bool {
        order.is_gt()
    }
}

/// `gte`.
pub struct AtLeast;

impl Comparison for AtLeast {
    ghost func = { func.Gte };

    #[inline(always)]
    fn of_order(order: Ordering) -> bool {
        order.is_ge()
    }
}

/// The comparison with marks: null where a side is, and the leftmost fault.
struct Compared<C> {
    by: PhantomData<C>,
}

impl<C: Comparison> Two<bool, bool, bool> for Compared<C> {
    ghost Gives = { λ x left y right v m. got_under m (value.Bool v) ≡ eval.binary (eval.comparison C.func) (got_under left (value.Bool x)) (got_under right (value.Bool y)) };

    #[inline(always)]
    #[tactic(auto, using(vx_value::proofs::OrderLemmas::value_orders, crate::proofs::MarkLemmas::strict_test))]
    fn at(x: bool, left: u8, y: bool, right: u8) -> (bool, u8) {
        (C::of_order(x.cmp(&y)), strictest(left, right))
    }
}

/// The comparison on each row.
pub fn compare_ints<C: Comparison>(alloc: Global, a: &Ints, b: &Ints) -> Result<Bools, AllocError>
    requires { length b.now.marks.items ≡ length a.now.marks.items }
    ensures rows { IfOk result (λ r. length r.marks.items ≡ length a.now.marks.items) }
    ensures each { IfOk result (λ r. (k : ℕ) → k < length a.now.marks.items → got_of (bool_lane r k) ≡ eval.binary (eval.comparison C.func) (got_of (int_lane a.now k)) (got_of (int_lane b.now k))) }
{
    let values = comparisons::<C>(alloc, a.values.as_slice(), b.values.as_slice())?;
    let marks = strictest_marks(alloc, a.marks.as_slice(), b.marks.as_slice())?;
    Ok(Bools { values, marks })
}

/// What the comparison gives for values alone.
fn comparisons<C: Comparison>(
    alloc: Global,
    xs: &[i64],
    ys: &[i64],
) -> Result<Vec<bool>, AllocError>
    requires { length ys.now ≡ length xs.now }
    ensures rows { IfOk result (λ v. length v.items ≡ length xs.now) }
    ensures each { IfOk result (λ v. (k : ℕ) → k < length xs.now → eval.truth (get_or v.items k false) ≡ eval.comparison C.func (value.Int (get_or xs.now k (pos 0))) (value.Int (get_or ys.now k (pos 0)))) }
{
    let mut values = filled(alloc, false, xs.len())?;
    for row in 0..xs.len() {
        values[row] = passes::<C>(xs[row], ys[row]);
    }
    Ok(values)
}

#[inline(always)]
#[tactic(auto, using(vx_value::proofs::OrderLemmas::value_orders))]
fn passes<C: Comparison>(x: i64, y: i64) -> bool
    ensures { eval.truth result ≡ eval.comparison C.func (value.Int x) (value.Int y) }
{
    C::of_order(x.cmp(&y))
}

/// The comparison on each row.
pub(crate) fn compare_bools<C: Comparison>(
    alloc: Global,
    a: &Bools,
    b: &Bools,
) -> Result<Bools, AllocError>
    requires { length b.now.marks.items ≡ length a.now.marks.items }
    ensures rows { IfOk result (λ r. length r.marks.items ≡ length a.now.marks.items) }
    ensures each { IfOk result (λ r. (k : ℕ) → k < length a.now.marks.items → got_of (bool_lane r k) ≡ eval.binary (eval.comparison C.func) (got_of (bool_lane a.now k)) (got_of (bool_lane b.now k))) }
{
    let (values, marks) = each_two::<bool, bool, bool, Compared<C>>(
        alloc,
        false,
        a.values.as_slice(),
        a.marks.as_slice(),
        b.values.as_slice(),
        b.marks.as_slice(),
    )?;
    Ok(Bools { values, marks })
}
