//! Tests and lengths of texts, over whole columns.
ghost use Rattle.std.specs.Prelude.{◌≡◌, ℕ, ◌<◌, length, get_or, refl, IfOk};
ghost use Rattle.vx_value.specs.declared.value.Value.TheVariants as value;
ghost use Rattle.vx_expr.specs.Eval as eval;
ghost use Rattle.vx_eval.specs.Got.{got_of};
ghost use Rattle.vx_vector.specs.Lane.{text_at};
ghost use Rattle.vx_vector.specs.Lanes.{bool_lane, int_lane, text_lane};

use crate::compare::Comparison;
use crate::leaf::filled;
use crate::marks::strictest;
use std::alloc::{AllocError, Global};
use std::marker::PhantomData;
use vx_vector::{Bools, Ints, Texts};

/// A strict test of two texts.
pub(crate) trait TextTest {
    ghost use Rattle.std.specs.Prelude.{List};
    ghost use Rattle.vx_value.specs.declared.value.Value.{Value};
    ghost use Rattle.vx_expr.specs.declared.outcome.Got.{Got};

    ghost meaning: { Value → Value → Got };

    fn at(a: &[u8], b: &[u8]) -> bool
        ensures { eval.truth result ≡ meaning (value.Text a.now) (value.Text b.now) };

    ghost strict: { (a b : List ℕ) → (meaning (value.Text a) value.Null ≡ eval.null) × (meaning value.Null (value.Text b) ≡ eval.null) × (meaning value.Null value.Null ≡ eval.null) };
}

/// A comparison by bytes.
pub(crate) struct ByBytes<C> {
    by: PhantomData<C>,
}

impl<C: Comparison> TextTest for ByBytes<C> {
    ghost meaning = { eval.comparison C.func };

    ghost strict = { λ a b. (refl, refl, refl) };

    #[inline(always)]
    #[tactic(auto, using(vx_value::proofs::OrderLemmas::value_orders))]
    fn at(a: &[u8], b: &[u8]) -> bool {
        C::of_order(a.cmp(b))
    }
}

/// Whether the first begins with the second.
pub(crate) struct Prefix;

impl TextTest for Prefix {
    ghost meaning = { eval.of_texts eval.prefix_test };

    ghost strict = { λ a b. (refl, refl, refl) };

    #[inline(always)]
    fn at(a: &[u8], b: &[u8]) -> bool {
        a.starts_with(b)
    }
}

/// The test on each row.
pub(crate) fn test_texts<X: TextTest>(
    alloc: Global,
    a: &Texts,
    b: &Texts,
) -> Result<Bools, AllocError>
    requires { length b.now ≡ length a.now }
    ensures rows { IfOk result (λ r. length r.marks.items ≡ length a.now) }
    ensures each { IfOk result (λ r. (k : ℕ) → k < length a.now → got_of (bool_lane r k) ≡ eval.binary X.meaning (got_of (text_lane a.now k)) (got_of (text_lane b.now k))) }
{
    let rows = a.len();
    let mut values = filled(alloc, false, rows)?;
    let mut marks = filled(alloc, 0, rows)?;
    for row in 0..rows {
        values[row] = X::at(a.get(row), b.get(row));
        marks[row] = strictest(a.mark(row), b.mark(row));
    }
    Ok(Bools { values, marks })
}

/// `byte_length` on each row.
pub(crate) fn lengths(alloc: Global, a: &Texts) -> Result<Ints, AllocError>
    ensures rows { IfOk result (λ r. length r.marks.items ≡ length a.now) }
    ensures each { IfOk result (λ r. (k : ℕ) → k < length a.now → got_of (int_lane r k) ≡ eval.unary eval.byte_length (got_of (text_lane a.now k))) }
{
    let rows = a.len();
    let mut values = filled(alloc, 0, rows)?;
    let mut marks = filled(alloc, 0, rows)?;
    for row in 0..rows {
        values[row] = a.get(row).len() as i64;
        marks[row] = a.mark(row);
    }
    Ok(Ints { values, marks })
}

/// The mark of each row.
pub(crate) fn marks_of(alloc: Global, a: &Texts) -> Result<Vec<u8>, AllocError>
    ensures rows { IfOk result (λ marks. length marks.items ≡ length a.now) }
    ensures at { IfOk result (λ marks. (k : ℕ) → k < length a.now → get_or marks.items k 1 ≡ (text_at a.now k).mark) }
{
    let mut marks = Vec::with_capacity(alloc, a.len())?;
    for row in 0..a.len() {
        marks.push(a.mark(row))?;
    }
    Ok(marks)
}
