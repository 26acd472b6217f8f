//! `if`, `coalesce` and `is_null`, over bools and ints.
ghost use Rattle.std.specs.Prelude.{◌≡◌, ℕ, ◌<◌, length, get_or, false, IfOk};
ghost use Rattle.vx_value.specs.declared.value.Value.{Value};
ghost use Rattle.vx_value.specs.declared.value.Value.TheVariants as value;
ghost use Rattle.vx_value.specs.Value.{is_null};
ghost use Rattle.vx_expr.specs.Eval as eval;
ghost use Rattle.vx_eval.specs.Got.{got_of, got_under};
ghost use Rattle.vx_vector.specs.Lanes.{bool_lane, int_lane};

use crate::rows::{Marked, One, Three, Two, each_one, each_three, each_two};
use std::alloc::{AllocError, Global};
use vx_vector::{Bools, FINE, Ints, NULL};

/// The condition's fault; else the second where it is true, else the third.
struct Choice;

impl<T: Copy> Three<bool, T, T, T> for Choice {
    ghost Gives = { λ c first x left y right v m. (of : T → Value) → got_under m (of v) ≡ eval.choice (got_under first (value.Bool c)) (got_under left (of x)) (got_under right (of y)) };

    #[inline(always)]
    fn at(c: bool, first: u8, x: T, left: u8, y: T, right: u8) -> (T, u8) {
        if c & (first == FINE) {
            return (x, left);
        }
        if first > NULL {
            return (y, first);
        }
        (y, right)
    }
}

/// The first where it isn't null, else the second.
struct Given;

impl<T: Copy> Two<T, T, T> for Given {
    ghost Gives = { λ x left y right v m. (of : T → Value) → ((z : T) → is_null (of z) ≡ false) → got_under m (of v) ≡ eval.first_given (got_under left (of x)) (got_under right (of y)) };

    #[inline(always)]
    fn at(x: T, left: u8, y: T, right: u8) -> (T, u8) {
        if left == NULL {
            return (y, right);
        }
        (x, left)
    }
}

/// Whether a row is null; it needs the marks alone.
struct NullTest;

impl One<u8, bool> for NullTest {
    ghost Gives = { λ x mark v m. (raw : Value) → is_null raw ≡ false → got_under m (value.Bool v) ≡ eval.unary eval.null_test (got_under mark raw) };

    #[inline(always)]
    fn at(_x: u8, mark: u8) -> (bool, u8) {
        if mark > NULL {
            return (false, mark);
        }
        (mark == NULL, FINE)
    }
}

/// `if` on each row.
pub(crate) fn chosen_bools(
    alloc: Global,
    c: &Bools,
    a: &Bools,
    b: &Bools,
) -> Result<Bools, AllocError>
    requires left { length a.now.marks.items ≡ length c.now.marks.items }
    requires right { length b.now.marks.items ≡ length c.now.marks.items }
    ensures rows { IfOk result (λ r. length r.marks.items ≡ length c.now.marks.items) }
    ensures each { IfOk result (λ r. (k : ℕ) → k < length c.now.marks.items → got_of (bool_lane r k) ≡ eval.choice (got_of (bool_lane c.now k)) (got_of (bool_lane a.now k)) (got_of (bool_lane b.now k))) }
{
    let (values, marks) = each_three::<bool, bool, bool, bool, Choice>(
        alloc,
        false,
        bools_of(c),
        bools_of(a),
        bools_of(b),
    )?;
    Ok(Bools { values, marks })
}

/// `if` on each row.
pub(crate) fn chosen_ints(alloc: Global, c: &Bools, a: &Ints, b: &Ints) -> Result<Ints, AllocError>
    requires left { length a.now.marks.items ≡ length c.now.marks.items }
    requires right { length b.now.marks.items ≡ length c.now.marks.items }
    ensures rows { IfOk result (λ r. length r.marks.items ≡ length c.now.marks.items) }
    ensures each { IfOk result (λ r. (k : ℕ) → k < length c.now.marks.items → got_of (int_lane r k) ≡ eval.choice (got_of (bool_lane c.now k)) (got_of (int_lane a.now k)) (got_of (int_lane b.now k))) }
{
    let (values, marks) = each_three::<bool, i64, i64, i64, Choice>(
        alloc,
        0,
        bools_of(c),
        ints_of(a),
        ints_of(b),
    )?;
    Ok(Ints { values, marks })
}

fn bools_of(a: &Bools) -> Marked<'_, bool>
    ensures values { result.values.now ≡ a.now.values.items }
    ensures marks { result.marks.now ≡ a.now.marks.items }
{
    Marked {
        values: a.values.as_slice(),
        marks: a.marks.as_slice(),
    }
}

fn ints_of(a: &Ints) -> Marked<'_, i64>
    ensures values { result.values.now ≡ a.now.values.items }
    ensures marks { result.marks.now ≡ a.now.marks.items }
{
    Marked {
        values: a.values.as_slice(),
        marks: a.marks.as_slice(),
    }
}

/// `coalesce` on each row.
pub(crate) fn given_bools(alloc: Global, a: &Bools, b: &Bools) -> Result<Bools, AllocError>
    requires { length b.now.marks.items ≡ length a.now.marks.items }
    ensures rows { IfOk result (λ r. length r.marks.items ≡ length a.now.marks.items) }
    ensures each { IfOk result (λ r. (k : ℕ) → k < length a.now.marks.items → got_of (bool_lane r k) ≡ eval.first_given (got_of (bool_lane a.now k)) (got_of (bool_lane b.now k))) }
{
    let (values, marks) = each_two::<bool, bool, bool, Given>(
        alloc,
        false,
        a.values.as_slice(),
        a.marks.as_slice(),
        b.values.as_slice(),
        b.marks.as_slice(),
    )?;
    Ok(Bools { values, marks })
}

/// `coalesce` on each row.
pub(crate) fn given_ints(alloc: Global, a: &Ints, b: &Ints) -> Result<Ints, AllocError>
    requires { length b.now.marks.items ≡ length a.now.marks.items }
    ensures rows { IfOk result (λ r. length r.marks.items ≡ length a.now.marks.items) }
    ensures each { IfOk result (λ r. (k : ℕ) → k < length a.now.marks.items → got_of (int_lane r k) ≡ eval.first_given (got_of (int_lane a.now k)) (got_of (int_lane b.now k))) }
{
    let (values, marks) = each_two::<i64, i64, i64, Given>(
        alloc,
        0,
        a.values.as_slice(),
        a.marks.as_slice(),
        b.values.as_slice(),
        b.marks.as_slice(),
    )?;
    Ok(Ints { values, marks })
}

/// `is_null` on each row of these marks.
pub(crate) fn null_tests(alloc: Global, marks: &[u8]) -> Result<Bools, AllocError>
    ensures rows { IfOk result (λ r. length r.marks.items ≡ length marks.now) }
    ensures each { IfOk result (λ r. (k : ℕ) (raw : Value) → k < length marks.now → is_null raw ≡ false → got_of (bool_lane r k) ≡ eval.unary eval.null_test (got_under (get_or marks.now k 1) raw)) }
{
    let (values, marks) = each_one::<u8, bool, NullTest>(alloc, false, marks, marks)?;
    Ok(Bools { values, marks })
}
