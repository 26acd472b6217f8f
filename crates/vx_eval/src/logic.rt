//! `and`, `or` and `not` in three-valued logic, over whole columns.
ghost use Rattle.std.specs.Prelude.{◌≡◌, ℕ, ◌<◌, length, IfOk};
ghost use Rattle.vx_value.specs.declared.value.Value.TheVariants as value;
ghost use Rattle.vx_expr.specs.Eval as eval;
ghost use Rattle.vx_eval.specs.Got.{got_of, got_under};
ghost use Rattle.vx_vector.specs.Lanes.{bool_lane};

use crate::marks::strictest;
use crate::rows::{One, Two, each_one, each_two};
use std::alloc::{AllocError, Global};
use vx_vector::{Bools, FINE};

struct Conjunction;

impl Two<bool, bool, bool> for Conjunction {
    ghost Gives = { λ x left y right v m. got_under m (value.Bool v) ≡ eval.conjunction (got_under left (value.Bool x)) (got_under right (value.Bool y)) };

    #[inline(always)]
    fn at(x: bool, left: u8, y: bool, right: u8) -> (bool, u8) {
        if is(false, x, left) | is(false, y, right) {
            return (false, FINE);
        }
        (true, strictest(left, right))
    }
}

struct Disjunction;

impl Two<bool, bool, bool> for Disjunction {
    ghost Gives = { λ x left y right v m. got_under m (value.Bool v) ≡ eval.disjunction (got_under left (value.Bool x)) (got_under right (value.Bool y)) };

    #[inline(always)]
    fn at(x: bool, left: u8, y: bool, right: u8) -> (bool, u8) {
        if is(true, x, left) | is(true, y, right) {
            return (true, FINE);
        }
        (false, strictest(left, right))
    }
}

/// Whether it is this truth value, and no null and no fault.
#[inline(always)]
fn is(wanted: bool, x: bool, mark: u8) -> bool
    ensures { result ≡ eval.is_truth wanted (got_under mark (value.Bool x)) }
{
    (x == wanted) & (mark == FINE)
}

struct Complement;

impl One<bool, bool> for Complement {
    ghost Gives = { λ x mark v m. got_under m (value.Bool v) ≡ eval.unary eval.complement (got_under mark (value.Bool x)) };

    #[inline(always)]
    fn at(x: bool, mark: u8) -> (bool, u8) {
        (!x, mark)
    }
}

/// `and` on each row.
pub(crate) fn conjunctions(alloc: Global, a: &Bools, b: &Bools) -> Result<Bools, AllocError>
    requires { length b.now.marks.items ≡ length a.now.marks.items }
    ensures rows { IfOk result (λ r. length r.marks.items ≡ length a.now.marks.items) }
    ensures each { IfOk result (λ r. (k : ℕ) → k < length a.now.marks.items → got_of (bool_lane r k) ≡ eval.conjunction (got_of (bool_lane a.now k)) (got_of (bool_lane b.now k))) }
{
    let (values, marks) = each_two::<bool, bool, bool, Conjunction>(
        alloc,
        false,
        a.values.as_slice(),
        a.marks.as_slice(),
        b.values.as_slice(),
        b.marks.as_slice(),
    )?;
    Ok(Bools { values, marks })
}

/// `or` on each row.
pub(crate) fn disjunctions(alloc: Global, a: &Bools, b: &Bools) -> Result<Bools, AllocError>
    requires { length b.now.marks.items ≡ length a.now.marks.items }
    ensures rows { IfOk result (λ r. length r.marks.items ≡ length a.now.marks.items) }
    ensures each { IfOk result (λ r. (k : ℕ) → k < length a.now.marks.items → got_of (bool_lane r k) ≡ eval.disjunction (got_of (bool_lane a.now k)) (got_of (bool_lane b.now k))) }
{
    let (values, marks) = each_two::<bool, bool, bool, Disjunction>(
        alloc,
        false,
        a.values.as_slice(),
        a.marks.as_slice(),
        b.values.as_slice(),
        b.marks.as_slice(),
    )?;
    Ok(Bools { values, marks })
}

/// `not` on each row.
pub(crate) fn complements(alloc: Global, a: &Bools) -> Result<Bools, AllocError>
    ensures rows { IfOk result (λ r. length r.marks.items ≡ length a.now.marks.items) }
    ensures each { IfOk result (λ r. (k : ℕ) → k < length a.now.marks.items → got_of (bool_lane r k) ≡ eval.unary eval.complement (got_of (bool_lane a.now k))) }
{
    let (values, marks) = each_one::<bool, bool, Complement>(
        alloc,
        false,
        a.values.as_slice(),
        a.marks.as_slice(),
    )?;
    Ok(Bools { values, marks })
}
