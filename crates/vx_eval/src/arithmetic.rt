//! Strict functions of ints, over whole columns.
ghost use Rattle.std.specs.Prelude.{◌≡◌, ℕ, ◌<◌, if◌then◌else◌, length, get_or, pos, IfOk, FitsSigned};
ghost use Rattle.std.specs.Int.{w64};
ghost use Rattle.vx_value.specs.declared.value.Value.TheVariants as value;
ghost use Rattle.vx_expr.specs.declared.outcome.Got.TheVariants as got;
ghost use Rattle.vx_expr.specs.Eval as eval;
ghost use Rattle.vx_eval.specs.Got.{got_of, got_under};
ghost use Rattle.vx_vector.specs.Lanes.{int_lane};

use crate::leaf::filled;
use crate::marks::{DIVIDE_BY_ZERO, OVERFLOW, marked, strictest, strictest_marks};
use crate::rows::{One, Two, each_one, each_two};
use std::alloc::{AllocError, Global};
use std::marker::PhantomData;
use vx_vector::{FINE, Ints};

/// A strict function of two ints. Its meaning is that of one row.
pub trait IntOp {
    ghost use Rattle.std.specs.Prelude.{ℤ};
    ghost use Rattle.vx_expr.specs.declared.outcome.Got.{Got};

    ghost meaning: { ℤ → ℤ → Got };

    /// Whether it costs little to compute a row again.
    const IS_CHEAP: bool;

    /// A number and the mark under which it stands.
    fn at(x: i64, y: i64) -> (i64, u8)
        ensures got { got_under result.1 (value.Int result.0) ≡ meaning x y }
        ensures fits { FitsSigned w64 result.0 };
}

/// `plus`.
pub struct Plus;

impl IntOp for Plus {
    ghost meaning = { eval.sum };

    const IS_CHEAP: bool = true;

    #[inline(always)]
    fn at(x: i64, y: i64) -> (i64, u8) {
        let (value, over) = x.overflowing_add(y);
        (value, overflow_if(over))
    }
}

/// `minus`.
pub struct Minus;

impl IntOp for Minus {
    ghost meaning = { eval.difference };

    const IS_CHEAP: bool = true;

    #[inline(always)]
    fn at(x: i64, y: i64) -> (i64, u8) {
        let (value, over) = x.overflowing_sub(y);
        (value, overflow_if(over))
    }
}

/// `multiply`.
pub struct Multiply;

impl IntOp for Multiply {
    ghost meaning = { eval.product };

    const IS_CHEAP: bool = false;

    #[inline(always)]
    fn at(x: i64, y: i64) -> (i64, u8) {
        match x.checked_mul(y) {
            Some(value) => (value, FINE),
            None => (0, OVERFLOW),
        }
    }
}

/// `divide`.
pub struct Divide;

impl IntOp for Divide {
    ghost meaning = { eval.quotient };

    const IS_CHEAP: bool = false;

    #[inline(always)]
    fn at(x: i64, y: i64) -> (i64, u8) {
        if y == 0 {
            return (0, DIVIDE_BY_ZERO);
        }
        if x == i64::MIN && y == -1 {
            return (0, OVERFLOW);
        }
        (x / y, FINE)
    }
}

/// `modulus`.
pub struct Modulus;

impl IntOp for Modulus {
    ghost meaning = { eval.remainder };

    const IS_CHEAP: bool = false;

    #[inline(always)]
    fn at(x: i64, y: i64) -> (i64, u8) {
        if y == 0 {
            return (0, DIVIDE_BY_ZERO);
        }
        (x.wrapping_rem(y), FINE)
    }
}

#[inline(always)]
fn overflow_if(over: bool) -> u8
    ensures { result ≡ (if over then 2 else 0) }
{
    if over { OVERFLOW } else { FINE }
}

/// The strict function with marks: null where a side is, and the leftmost fault.
struct Strict<O> {
    of: PhantomData<O>,
}

impl<O: IntOp> Two<i64, i64, i64> for Strict<O> {
    ghost Gives = { λ x left y right v m. got_under m (value.Int v) ≡ eval.binary (eval.of_ints O.meaning) (got_under left (value.Int x)) (got_under right (value.Int y)) };

    #[inline(always)]
    fn at(x: i64, left: u8, y: i64, right: u8) -> (i64, u8) {
        let (value, own) = O::at(x, y);
        (value, marked(strictest(left, right), own))
    }
}

/// The function on each row. Where it is cheap, all values are computed before any mark, in a loop of their own; its own
/// faults are rare, and only where there is one the rows are computed again, each with its mark.
pub fn of_ints<O: IntOp>(alloc: Global, a: &Ints, b: &Ints) -> Result<Ints, AllocError>
    requires { length b.now.marks.items ≡ length a.now.marks.items }
    ensures rows { IfOk result (λ r. length r.marks.items ≡ length a.now.marks.items) }
    ensures each { IfOk result (λ r. (k : ℕ) → k < length a.now.marks.items → got_of (int_lane r k) ≡ eval.binary (eval.of_ints O.meaning) (got_of (int_lane a.now k)) (got_of (int_lane b.now k))) }
{
    if !O::IS_CHEAP {
        return row_by_row::<O>(alloc, a, b);
    }
    let (values, faults) = computed::<O>(alloc, a.values.as_slice(), b.values.as_slice())?;
    if faults > 0 {
        return row_by_row::<O>(alloc, a, b);
    }
    let marks = strictest_marks(alloc, a.marks.as_slice(), b.marks.as_slice())?;
    Ok(Ints { values, marks })
}

/// What the function gives for values alone, and on how many rows that is a fault.
fn computed<O: IntOp>(
    alloc: Global,
    xs: &[i64],
    ys: &[i64],
) -> Result<(Vec<i64>, usize), AllocError>
    requires { length ys.now ≡ length xs.now }
    ensures rows { IfOk result (λ r. length r.0.items ≡ length xs.now) }
    ensures each { IfOk result (λ r. r.1 ≡ 0 → (k : ℕ) → k < length xs.now → got.Value (value.Int (get_or r.0.items k (pos 0))) ≡ O.meaning (get_or xs.now k (pos 0)) (get_or ys.now k (pos 0))) }
{
    let mut values = filled(alloc, 0, xs.len())?;
    let mut faults = 0;
    for row in 0..xs.len() {
        let (value, own) = O::at(xs[row], ys[row]);
        values[row] = value;
        faults += usize::from(own != FINE);
    }
    Ok((values, faults))
}

/// Each row's value and mark at once.
fn row_by_row<O: IntOp>(alloc: Global, a: &Ints, b: &Ints) -> Result<Ints, AllocError>
    requires { length b.now.marks.items ≡ length a.now.marks.items }
    ensures rows { IfOk result (λ r. length r.marks.items ≡ length a.now.marks.items) }
    ensures each { IfOk result (λ r. (k : ℕ) → k < length a.now.marks.items → got_of (int_lane r k) ≡ eval.binary (eval.of_ints O.meaning) (got_of (int_lane a.now k)) (got_of (int_lane b.now k))) }
{
    let (values, marks) = each_two::<i64, i64, i64, Strict<O>>(
        alloc,
        0,
        a.values.as_slice(),
        a.marks.as_slice(),
        b.values.as_slice(),
        b.marks.as_slice(),
    )?;
    Ok(Ints { values, marks })
}

struct Negation;

impl One<i64, i64> for Negation {
    ghost Gives = { λ x mark v m. got_under m (value.Int v) ≡ eval.unary eval.negation (got_under mark (value.Int x)) };

    #[inline(always)]
    fn at(x: i64, mark: u8) -> (i64, u8) {
        match x.checked_neg() {
            Some(value) => (value, mark),
            None => (0, marked(mark, OVERFLOW)),
        }
    }
}

/// `negate` on each row.
pub(crate) fn negations(alloc: Global, a: &Ints) -> Result<Ints, AllocError>
    ensures rows { IfOk result (λ r. length r.marks.items ≡ length a.now.marks.items) }
    ensures each { IfOk result (λ r. (k : ℕ) → k < length a.now.marks.items → got_of (int_lane r k) ≡ eval.unary eval.negation (got_of (int_lane a.now k))) }
{
    let (values, marks) = each_one::<i64, i64, Negation>(
        alloc,
        0,
        a.values.as_slice(),
        a.marks.as_slice(),
    )?;
    Ok(Ints { values, marks })
}
