//! What each call computes, chosen by its function and by the kinds of its arguments.
ghost use Rattle.std.specs.Prelude.{◌≡◌, [], ◌∷◌, length, IfOk, IsOk};
ghost use Rattle.std.specs.Cow.{cow_value};
ghost use Rattle.vx_expr.specs.Eval as eval;
ghost use Rattle.vx_expr.specs.Typing as typing;
ghost use Rattle.vx_eval.specs.Got.{got_at, got_of};
ghost use Rattle.vx_eval.specs.Gives.{Gives, GivesWhere};
ghost use Rattle.vx_vector.specs.Lanes.{kind_of, rows_of, bool_lane};

use crate::arithmetic::{IntOp, negations, of_ints};
use crate::choice::{chosen_bools, chosen_ints, given_bools, given_ints, null_tests};
use crate::compare::{Comparison, compare_bools, compare_ints};
use crate::logic::{complements, conjunctions, disjunctions};
use crate::text_rows::{chosen_texts, concatenations, given_texts};
use crate::texts::{ByBytes, Prefix, lengths, marks_of, test_texts};
use std::alloc::{AllocError, Global};
use std::borrow::Cow;
use vx_value::Kind;
use vx_vector::{Bools, Lanes};

/// A strict function of two ints.
pub(crate) fn arithmetic<O: IntOp>(alloc: Global, a: &Lanes, b: &Lanes) -> Result<Lanes, AllocError>
    requires kinds { IsOk (typing.binary Kind.Int Kind.Int (kind_of a.now ∷ kind_of b.now ∷ [])) }
    requires rows { rows_of b.now ≡ rows_of a.now }
    ensures kind { IfOk result (λ r. typing.binary Kind.Int Kind.Int (kind_of a.now ∷ kind_of b.now ∷ []) ≡ Ok (kind_of r)) }
    ensures each { IfOk result (Gives (rows_of a.now) (λ k. eval.binary (eval.of_ints O.meaning) (got_at a.now k) (got_at b.now k))) }
{
    match a {
        Lanes::Ints(a) => match b {
            Lanes::Ints(b) => Ok(Lanes::Ints(of_ints::<O>(alloc, a, b)?)),
            _ => unreachable!(),
        },
        _ => unreachable!(),
    }
}

/// A comparison of two of one kind.
pub(crate) fn comparison<C: Comparison>(
    alloc: Global,
    a: &Lanes,
    b: &Lanes,
) -> Result<Lanes, AllocError>
    requires kinds { IsOk (typing.comparison (kind_of a.now ∷ kind_of b.now ∷ [])) }
    requires rows { rows_of b.now ≡ rows_of a.now }
    ensures kind { IfOk result (λ r. typing.comparison (kind_of a.now ∷ kind_of b.now ∷ []) ≡ Ok (kind_of r)) }
    ensures each { IfOk result (Gives (rows_of a.now) (λ k. eval.binary (eval.comparison C.func) (got_at a.now k) (got_at b.now k))) }
{
    match a {
        Lanes::Bools(a) => match b {
            Lanes::Bools(b) => Ok(Lanes::Bools(compare_bools::<C>(alloc, a, b)?)),
            _ => unreachable!(),
        },
        Lanes::Ints(a) => match b {
            Lanes::Ints(b) => Ok(Lanes::Bools(compare_ints::<C>(alloc, a, b)?)),
            _ => unreachable!(),
        },
        Lanes::Texts(a) => match b {
            Lanes::Texts(b) => Ok(Lanes::Bools(test_texts::<ByBytes<C>>(alloc, a, b)?)),
            _ => unreachable!(),
        },
    }
}

pub(crate) fn negate(alloc: Global, a: &Lanes) -> Result<Lanes, AllocError>
    requires { IsOk (typing.unary Kind.Int Kind.Int (kind_of a.now ∷ [])) }
    ensures kind { IfOk result (λ r. typing.unary Kind.Int Kind.Int (kind_of a.now ∷ []) ≡ Ok (kind_of r)) }
    ensures each { IfOk result (Gives (rows_of a.now) (λ k. eval.unary eval.negation (got_at a.now k))) }
{
    match a {
        Lanes::Ints(a) => Ok(Lanes::Ints(negations(alloc, a)?)),
        _ => unreachable!(),
    }
}

pub(crate) fn complement(alloc: Global, a: &Lanes) -> Result<Lanes, AllocError>
    requires { IsOk (typing.unary Kind.Bool Kind.Bool (kind_of a.now ∷ [])) }
    ensures kind { IfOk result (λ r. typing.unary Kind.Bool Kind.Bool (kind_of a.now ∷ []) ≡ Ok (kind_of r)) }
    ensures each { IfOk result (Gives (rows_of a.now) (λ k. eval.unary eval.complement (got_at a.now k))) }
{
    match a {
        Lanes::Bools(a) => Ok(Lanes::Bools(complements(alloc, a)?)),
        _ => unreachable!(),
    }
}

pub(crate) fn conjunction(alloc: Global, a: &Lanes, b: &Lanes) -> Result<Lanes, AllocError>
    requires kinds { IsOk (typing.binary Kind.Bool Kind.Bool (kind_of a.now ∷ kind_of b.now ∷ [])) }
    requires rows { rows_of b.now ≡ rows_of a.now }
    ensures kind { IfOk result (λ r. typing.binary Kind.Bool Kind.Bool (kind_of a.now ∷ kind_of b.now ∷ []) ≡ Ok (kind_of r)) }
    ensures each { IfOk result (Gives (rows_of a.now) (λ k. eval.conjunction (got_at a.now k) (got_at b.now k))) }
{
    match a {
        Lanes::Bools(a) => match b {
            Lanes::Bools(b) => Ok(Lanes::Bools(conjunctions(alloc, a, b)?)),
            _ => unreachable!(),
        },
        _ => unreachable!(),
    }
}

pub(crate) fn disjunction(alloc: Global, a: &Lanes, b: &Lanes) -> Result<Lanes, AllocError>
    requires kinds { IsOk (typing.binary Kind.Bool Kind.Bool (kind_of a.now ∷ kind_of b.now ∷ [])) }
    requires rows { rows_of b.now ≡ rows_of a.now }
    ensures kind { IfOk result (λ r. typing.binary Kind.Bool Kind.Bool (kind_of a.now ∷ kind_of b.now ∷ []) ≡ Ok (kind_of r)) }
    ensures each { IfOk result (Gives (rows_of a.now) (λ k. eval.disjunction (got_at a.now k) (got_at b.now k))) }
{
    match a {
        Lanes::Bools(a) => match b {
            Lanes::Bools(b) => Ok(Lanes::Bools(disjunctions(alloc, a, b)?)),
            _ => unreachable!(),
        },
        _ => unreachable!(),
    }
}

pub(crate) fn null_test(alloc: Global, a: &Lanes) -> Result<Lanes, AllocError>
    ensures kind { IfOk result (λ r. kind_of r ≡ Kind.Bool) }
    ensures each { IfOk result (Gives (rows_of a.now) (λ k. eval.unary eval.null_test (got_at a.now k))) }
{
    match a {
        Lanes::Bools(a) => Ok(Lanes::Bools(null_tests(alloc, a.marks.as_slice())?)),
        Lanes::Ints(a) => Ok(Lanes::Bools(null_tests(alloc, a.marks.as_slice())?)),
        Lanes::Texts(a) => {
            let marks = marks_of(alloc, a)?;
            Ok(Lanes::Bools(null_tests(alloc, marks.as_slice())?))
        }
    }
}

/// The mark of each fault becomes that of a null.
pub(crate) fn tried(alloc: Global, a: Cow<'_, Lanes>) -> Result<Lanes, AllocError>
    ensures kind { IfOk result (λ r. kind_of r ≡ kind_of (cow_value a.entry)) }
    ensures each { IfOk result (Gives (rows_of (cow_value a.entry)) (λ k. eval.value_or_null (got_at (cow_value a.entry) k))) }
{
    let mut lanes = Lanes::owned(alloc, a)?;
    lanes.settle();
    Ok(lanes)
}

/// `coalesce` of two of one kind.
#[tactic(auto, using(crate::proofs::TextLemmas::text_rows))]
pub(crate) fn fallback(alloc: Global, a: &Lanes, b: &Lanes) -> Result<Lanes, AllocError>
    requires kinds { IsOk (typing.fallback (kind_of a.now ∷ kind_of b.now ∷ [])) }
    requires rows { rows_of b.now ≡ rows_of a.now }
    ensures kind { IfOk result (λ r. typing.fallback (kind_of a.now ∷ kind_of b.now ∷ []) ≡ Ok (kind_of r)) }
    ensures each { IfOk result (Gives (rows_of a.now) (λ k. eval.first_given (got_at a.now k) (got_at b.now k))) }
{
    match a {
        Lanes::Bools(a) => match b {
            Lanes::Bools(b) => Ok(Lanes::Bools(given_bools(alloc, a, b)?)),
            _ => unreachable!(),
        },
        Lanes::Ints(a) => match b {
            Lanes::Ints(b) => Ok(Lanes::Ints(given_ints(alloc, a, b)?)),
            _ => unreachable!(),
        },
        Lanes::Texts(a) => match b {
            Lanes::Texts(b) => Ok(Lanes::Texts(given_texts(alloc, a, b)?)),
            _ => unreachable!(),
        },
    }
}

/// `if` on two of one kind.
pub(crate) fn choice(alloc: Global, c: &Lanes, a: &Lanes, b: &Lanes) -> Result<Lanes, AllocError>
    requires kinds { IsOk (typing.choice (kind_of c.now ∷ kind_of a.now ∷ kind_of b.now ∷ [])) }
    requires left { rows_of a.now ≡ rows_of c.now }
    requires right { rows_of b.now ≡ rows_of c.now }
    ensures kind { IfOk result (λ r. typing.choice (kind_of c.now ∷ kind_of a.now ∷ kind_of b.now ∷ []) ≡ Ok (kind_of r)) }
    ensures each { IfOk result (Gives (rows_of c.now) (λ k. eval.choice (got_at c.now k) (got_at a.now k) (got_at b.now k))) }
{
    match c {
        Lanes::Bools(c) => choice_by(alloc, c, a, b),
        _ => unreachable!(),
    }
}

#[tactic(auto, using(crate::proofs::TextLemmas::text_rows))]
fn choice_by(alloc: Global, c: &Bools, a: &Lanes, b: &Lanes) -> Result<Lanes, AllocError>
    requires kinds { IsOk (typing.fallback (kind_of a.now ∷ kind_of b.now ∷ [])) }
    requires left { rows_of a.now ≡ length c.now.marks.items }
    requires right { rows_of b.now ≡ length c.now.marks.items }
    ensures kind { IfOk result (λ r. typing.fallback (kind_of a.now ∷ kind_of b.now ∷ []) ≡ Ok (kind_of r)) }
    ensures each { IfOk result (Gives (length c.now.marks.items) (λ k. eval.choice (got_of (bool_lane c.now k)) (got_at a.now k) (got_at b.now k))) }
{
    match a {
        Lanes::Bools(a) => match b {
            Lanes::Bools(b) => Ok(Lanes::Bools(chosen_bools(alloc, c, a, b)?)),
            _ => unreachable!(),
        },
        Lanes::Ints(a) => match b {
            Lanes::Ints(b) => Ok(Lanes::Ints(chosen_ints(alloc, c, a, b)?)),
            _ => unreachable!(),
        },
        Lanes::Texts(a) => match b {
            Lanes::Texts(b) => Ok(Lanes::Texts(chosen_texts(alloc, c, a, b)?)),
            _ => unreachable!(),
        },
    }
}

#[tactic(auto, using(crate::proofs::TextLemmas::joined_where))]
pub(crate) fn concatenation(
    alloc: Global,
    wanted: &[bool],
    a: &Lanes,
    b: &Lanes,
) -> Result<Lanes, AllocError>
    requires kinds { IsOk (typing.binary Kind.Text Kind.Text (kind_of a.now ∷ kind_of b.now ∷ [])) }
    requires wanted { length wanted.now ≡ rows_of a.now }
    requires rows { rows_of b.now ≡ rows_of a.now }
    ensures kind { IfOk result (λ r. typing.binary Kind.Text Kind.Text (kind_of a.now ∷ kind_of b.now ∷ []) ≡ Ok (kind_of r)) }
    ensures each { IfOk result (GivesWhere wanted.now (rows_of a.now) (λ k. eval.binary (eval.of_texts eval.concatenation) (got_at a.now k) (got_at b.now k))) }
{
    match a {
        Lanes::Texts(a) => match b {
            Lanes::Texts(b) => Ok(Lanes::Texts(concatenations(alloc, wanted, a, b)?)),
            _ => unreachable!(),
        },
        _ => unreachable!(),
    }
}

pub(crate) fn byte_length(alloc: Global, a: &Lanes) -> Result<Lanes, AllocError>
    requires { IsOk (typing.unary Kind.Text Kind.Int (kind_of a.now ∷ [])) }
    ensures kind { IfOk result (λ r. typing.unary Kind.Text Kind.Int (kind_of a.now ∷ []) ≡ Ok (kind_of r)) }
    ensures each { IfOk result (Gives (rows_of a.now) (λ k. eval.unary eval.byte_length (got_at a.now k))) }
{
    match a {
        Lanes::Texts(a) => Ok(Lanes::Ints(lengths(alloc, a)?)),
        _ => unreachable!(),
    }
}

pub(crate) fn prefix_test(alloc: Global, a: &Lanes, b: &Lanes) -> Result<Lanes, AllocError>
    requires kinds { IsOk (typing.binary Kind.Text Kind.Bool (kind_of a.now ∷ kind_of b.now ∷ [])) }
    requires rows { rows_of b.now ≡ rows_of a.now }
    ensures kind { IfOk result (λ r. typing.binary Kind.Text Kind.Bool (kind_of a.now ∷ kind_of b.now ∷ []) ≡ Ok (kind_of r)) }
    ensures each { IfOk result (Gives (rows_of a.now) (λ k. eval.binary (eval.of_texts eval.prefix_test) (got_at a.now k) (got_at b.now k))) }
{
    match a {
        Lanes::Texts(a) => match b {
            Lanes::Texts(b) => Ok(Lanes::Bools(test_texts::<Prefix>(alloc, a, b)?)),
            _ => unreachable!(),
        },
        _ => unreachable!(),
    }
}
