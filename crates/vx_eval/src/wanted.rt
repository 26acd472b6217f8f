//! On which rows a function looks at an argument.
ghost use Rattle.std.specs.Prelude.{◌≡◌, ℕ, ◌<◌, not, length, get_or, true, false, IfOk};
ghost use Rattle.vx_value.specs.declared.value.Value.{Value};
ghost use Rattle.vx_value.specs.declared.value.Value.TheVariants as value;
ghost use Rattle.vx_value.specs.Value.{is_null};
ghost use Rattle.vx_expr.specs.Eval.{is_truth};
ghost use Rattle.vx_eval.specs.Got.{got_at, got_of, got_under};
ghost use Rattle.vx_eval.specs.Matters.{matters, is_else, gives_null};
ghost use Rattle.vx_eval.specs.Wanted as spec;
ghost use Rattle.vx_vector.specs.Lanes.{rows_of, bool_lane};

use crate::rows::{Two, each_two};
use crate::texts::marks_of;
use std::alloc::{AllocError, Global};
use vx_expr::Func;
use vx_vector::{Bools, FINE, Lanes, NULL};

/// A bool isn't false.
struct UnlessFalse;

impl Two<bool, bool, bool> for UnlessFalse {
    ghost Gives = { λ x mark y right v m. y ≡ true → v ≡ false → not (is_truth false (got_under mark (value.Bool x))) ≡ false };

    #[inline(always)]
    fn at(x: bool, mark: u8, y: bool, right: u8) -> (bool, u8) {
        ((x | (mark != FINE)) & y, right)
    }
}

/// A bool isn't true.
struct UnlessTrue;

impl Two<bool, bool, bool> for UnlessTrue {
    ghost Gives = { λ x mark y right v m. y ≡ true → v ≡ false → not (is_truth true (got_under mark (value.Bool x))) ≡ false };

    #[inline(always)]
    fn at(x: bool, mark: u8, y: bool, right: u8) -> (bool, u8) {
        ((!x | (mark != FINE)) & y, right)
    }
}

/// A bool is true.
struct WhereTrue;

impl Two<bool, bool, bool> for WhereTrue {
    ghost Gives = { λ x mark y right v m. y ≡ true → v ≡ false → is_truth true (got_under mark (value.Bool x)) ≡ false };

    #[inline(always)]
    fn at(x: bool, mark: u8, y: bool, right: u8) -> (bool, u8) {
        ((x & (mark == FINE)) & y, right)
    }
}

/// A bool is neither true nor a fault.
struct WhereElse;

impl Two<bool, bool, bool> for WhereElse {
    ghost Gives = { λ x mark y right v m. y ≡ true → v ≡ false → is_else (got_under mark (value.Bool x)) ≡ false };

    #[inline(always)]
    fn at(x: bool, mark: u8, y: bool, right: u8) -> (bool, u8) {
        (((mark == NULL) | (!x & (mark == FINE))) & y, right)
    }
}

/// A row is null; it needs the marks alone.
struct WhereNull;

impl Two<u8, bool, bool> for WhereNull {
    ghost Gives = { λ x mark y right v m. (raw : Value) → is_null raw ≡ false → y ≡ true → v ≡ false → gives_null (got_under mark raw) ≡ false };

    #[inline(always)]
    fn at(_x: u8, mark: u8, y: bool, right: u8) -> (bool, u8) {
        ((mark == NULL) & y, right)
    }
}

/// The wanted rows but some on which a function's second argument doesn't matter, after what its first one
/// gave; none where these are all wanted rows.
pub(crate) fn second_wanted(
    alloc: Global,
    func: Func,
    a: &Lanes,
    wanted: &[bool],
) -> Result<Option<Vec<bool>>, AllocError>
    requires { length wanted.now ≡ rows_of a.now }
    ensures rows { IfOk result (λ r. length (spec.these_or r wanted.now) ≡ rows_of a.now) }
    ensures each { IfOk result (λ r. (k : ℕ) → k < rows_of a.now → get_or wanted.now k false ≡ true → get_or (spec.these_or r wanted.now) k false ≡ false → matters func (got_at a.now k) ≡ false) }
{
    match func {
        Func::And => match a {
            Lanes::Bools(a) => Ok(Some(unless_false(alloc, a, wanted)?)),
            _ => Ok(None),
        },
        Func::Or => match a {
            Lanes::Bools(a) => Ok(Some(unless_true(alloc, a, wanted)?)),
            _ => Ok(None),
        },
        Func::Coalesce => Ok(Some(where_null(alloc, a, wanted)?)),
        _ => Ok(None),
    }
}

/// These rows, or all wanted ones.
pub(crate) fn these_or<'a>(these: &'a Option<Vec<bool>>, wanted: &'a [bool]) -> &'a [bool]
    ensures { result.now ≡ spec.these_or these.now wanted.now }
{
    match these {
        Some(rows) => rows.as_slice(),
        None => wanted,
    }
}

/// The wanted rows but some on which `if` doesn't take its second argument.
pub(crate) fn taken(alloc: Global, c: &Lanes, wanted: &[bool]) -> Result<Vec<bool>, AllocError>
    requires { length wanted.now ≡ rows_of c.now }
    ensures rows { IfOk result (λ r. length r.items ≡ rows_of c.now) }
    ensures each { IfOk result (λ r. (k : ℕ) → k < rows_of c.now → get_or wanted.now k false ≡ true → get_or r.items k false ≡ false → is_truth true (got_at c.now k) ≡ false) }
{
    match c {
        Lanes::Bools(c) => where_true(alloc, c, wanted),
        _ => Vec::from_slice(alloc, wanted),
    }
}

/// The wanted rows but some on which `if` doesn't take its third argument.
pub(crate) fn left_over(alloc: Global, c: &Lanes, wanted: &[bool]) -> Result<Vec<bool>, AllocError>
    requires { length wanted.now ≡ rows_of c.now }
    ensures rows { IfOk result (λ r. length r.items ≡ rows_of c.now) }
    ensures each { IfOk result (λ r. (k : ℕ) → k < rows_of c.now → get_or wanted.now k false ≡ true → get_or r.items k false ≡ false → is_else (got_at c.now k) ≡ false) }
{
    match c {
        Lanes::Bools(c) => where_else(alloc, c, wanted),
        _ => Vec::from_slice(alloc, wanted),
    }
}

fn unless_false(alloc: Global, a: &Bools, wanted: &[bool]) -> Result<Vec<bool>, AllocError>
    requires { length wanted.now ≡ length a.now.marks.items }
    ensures rows { IfOk result (λ r. length r.items ≡ length a.now.marks.items) }
    ensures each { IfOk result (λ r. (k : ℕ) → k < length a.now.marks.items → get_or wanted.now k false ≡ true → get_or r.items k false ≡ false → not (is_truth false (got_of (bool_lane a.now k))) ≡ false) }
{
    let (values, _) = each_two::<bool, bool, bool, UnlessFalse>(
        alloc,
        false,
        a.values.as_slice(),
        a.marks.as_slice(),
        wanted,
        a.marks.as_slice(),
    )?;
    Ok(values)
}

fn unless_true(alloc: Global, a: &Bools, wanted: &[bool]) -> Result<Vec<bool>, AllocError>
    requires { length wanted.now ≡ length a.now.marks.items }
    ensures rows { IfOk result (λ r. length r.items ≡ length a.now.marks.items) }
    ensures each { IfOk result (λ r. (k : ℕ) → k < length a.now.marks.items → get_or wanted.now k false ≡ true → get_or r.items k false ≡ false → not (is_truth true (got_of (bool_lane a.now k))) ≡ false) }
{
    let (values, _) = each_two::<bool, bool, bool, UnlessTrue>(
        alloc,
        false,
        a.values.as_slice(),
        a.marks.as_slice(),
        wanted,
        a.marks.as_slice(),
    )?;
    Ok(values)
}

fn where_true(alloc: Global, a: &Bools, wanted: &[bool]) -> Result<Vec<bool>, AllocError>
    requires { length wanted.now ≡ length a.now.marks.items }
    ensures rows { IfOk result (λ r. length r.items ≡ length a.now.marks.items) }
    ensures each { IfOk result (λ r. (k : ℕ) → k < length a.now.marks.items → get_or wanted.now k false ≡ true → get_or r.items k false ≡ false → is_truth true (got_of (bool_lane a.now k)) ≡ false) }
{
    let (values, _) = each_two::<bool, bool, bool, WhereTrue>(
        alloc,
        false,
        a.values.as_slice(),
        a.marks.as_slice(),
        wanted,
        a.marks.as_slice(),
    )?;
    Ok(values)
}

fn where_else(alloc: Global, a: &Bools, wanted: &[bool]) -> Result<Vec<bool>, AllocError>
    requires { length wanted.now ≡ length a.now.marks.items }
    ensures rows { IfOk result (λ r. length r.items ≡ length a.now.marks.items) }
    ensures each { IfOk result (λ r. (k : ℕ) → k < length a.now.marks.items → get_or wanted.now k false ≡ true → get_or r.items k false ≡ false → is_else (got_of (bool_lane a.now k)) ≡ false) }
{
    let (values, _) = each_two::<bool, bool, bool, WhereElse>(
        alloc,
        false,
        a.values.as_slice(),
        a.marks.as_slice(),
        wanted,
        a.marks.as_slice(),
    )?;
    Ok(values)
}

fn where_null(alloc: Global, a: &Lanes, wanted: &[bool]) -> Result<Vec<bool>, AllocError>
    requires { length wanted.now ≡ rows_of a.now }
    ensures rows { IfOk result (λ r. length r.items ≡ rows_of a.now) }
    ensures each { IfOk result (λ r. (k : ℕ) → k < rows_of a.now → get_or wanted.now k false ≡ true → get_or r.items k false ≡ false → gives_null (got_at a.now k) ≡ false) }
{
    match a {
        Lanes::Bools(a) => by_nulls(alloc, a.marks.as_slice(), wanted),
        Lanes::Ints(a) => by_nulls(alloc, a.marks.as_slice(), wanted),
        Lanes::Texts(a) => {
            let marks = marks_of(alloc, a)?;
            by_nulls(alloc, marks.as_slice(), wanted)
        }
    }
}

fn by_nulls(alloc: Global, marks: &[u8], wanted: &[bool]) -> Result<Vec<bool>, AllocError>
    requires { length wanted.now ≡ length marks.now }
    ensures rows { IfOk result (λ r. length r.items ≡ length marks.now) }
    ensures each { IfOk result (λ r. (k : ℕ) (raw : Value) → k < length marks.now → is_null raw ≡ false → get_or wanted.now k false ≡ true → get_or r.items k false ≡ false → gives_null (got_under (get_or marks.now k 1) raw) ≡ false) }
{
    let (values, _) = each_two::<u8, bool, bool, WhereNull>(
        alloc, false, marks, marks, wanted, marks,
    )?;
    Ok(values)
}
