//! A function over the rows of its arguments, by how many it has.
ghost use Rattle.std.specs.Prelude.{◌≡◌, [], ◌∷◌, length, IfOk, IsOk};
ghost use Rattle.std.specs.Cow.{cow_value};
ghost use Rattle.vx_expr.specs.Eval as eval;
ghost use Rattle.vx_expr.specs.Typing as typing;
ghost use Rattle.vx_eval.specs.Got.{got_at};
ghost use Rattle.vx_eval.specs.Gives.{Gives, GivesWhere};
ghost use Rattle.vx_vector.specs.Lanes.{kind_of, rows_of};

use crate::arithmetic::{Divide, Minus, Modulus, Multiply, Plus};
use crate::calls::{
    arithmetic, byte_length, choice, comparison, complement, concatenation, conjunction,
    disjunction, fallback, negate, null_test, prefix_test, tried,
};
use crate::compare::{AtLeast, AtMost, Equal, Greater, Less, Unequal};
use std::alloc::{AllocError, Global};
use std::borrow::Cow;
use vx_expr::Func;
use vx_vector::Lanes;

/// A function of one argument.
pub(crate) fn apply_one(alloc: Global, func: Func, a: Cow<'_, Lanes>) -> Result<Lanes, AllocError>
    requires { IsOk (typing.kind_of_call func (kind_of (cow_value a) ∷ [])) }
    ensures kind { IfOk result (λ r. typing.kind_of_call func (kind_of (cow_value a.entry) ∷ []) ≡ Ok (kind_of r)) }
    ensures each { IfOk result (Gives (rows_of (cow_value a.entry)) (λ k. eval.apply func (got_at (cow_value a.entry) k ∷ []))) }
{
    match func {
        Func::Negate => negate(alloc, &a),
        Func::Not => complement(alloc, &a),
        Func::IsNull => null_test(alloc, &a),
        Func::Try => tried(alloc, a),
        Func::ByteLength => byte_length(alloc, &a),
        _ => unreachable!(),
    }
}

/// A function of two arguments, on the wanted rows.
pub(crate) fn apply_two(
    alloc: Global,
    func: Func,
    a: &Lanes,
    b: &Lanes,
    wanted: &[bool],
) -> Result<Lanes, AllocError>
    requires wanted { length wanted.now ≡ rows_of a.now }
    requires kinds { IsOk (typing.kind_of_call func (kind_of a.now ∷ kind_of b.now ∷ [])) }
    requires rows { rows_of b.now ≡ rows_of a.now }
    ensures kind { IfOk result (λ r. typing.kind_of_call func (kind_of a.now ∷ kind_of b.now ∷ []) ≡ Ok (kind_of r)) }
    ensures each { IfOk result (GivesWhere wanted.now (rows_of a.now) (λ k. eval.apply func (got_at a.now k ∷ got_at b.now k ∷ []))) }
{
    match func {
        Func::Plus => arithmetic::<Plus>(alloc, a, b),
        Func::Minus => arithmetic::<Minus>(alloc, a, b),
        Func::Multiply => arithmetic::<Multiply>(alloc, a, b),
        Func::Divide => arithmetic::<Divide>(alloc, a, b),
        Func::Modulus => arithmetic::<Modulus>(alloc, a, b),
        Func::Eq => comparison::<Equal>(alloc, a, b),
        Func::Neq => comparison::<Unequal>(alloc, a, b),
        Func::Lt => comparison::<Less>(alloc, a, b),
        Func::Lte => comparison::<AtMost>(alloc, a, b),
        Func::Gt => comparison::<Greater>(alloc, a, b),
        Func::Gte => comparison::<AtLeast>(alloc, a, b),
        Func::And => conjunction(alloc, a, b),
        Func::Or => disjunction(alloc, a, b),
        Func::Coalesce => fallback(alloc, a, b),
        Func::Concat => concatenation(alloc, wanted, a, b),
        Func::StartsWith => prefix_test(alloc, a, b),
        _ => unreachable!(),
    }
}

/// A function of three arguments.
pub(crate) fn apply_three(
    alloc: Global,
    func: Func,
    c: &Lanes,
    a: &Lanes,
    b: &Lanes,
) -> Result<Lanes, AllocError>
    requires kinds { IsOk (typing.kind_of_call func (kind_of c.now ∷ kind_of a.now ∷ kind_of b.now ∷ [])) }
    requires left { rows_of a.now ≡ rows_of c.now }
    requires right { rows_of b.now ≡ rows_of c.now }
    ensures kind { IfOk result (λ r. typing.kind_of_call func (kind_of c.now ∷ kind_of a.now ∷ kind_of b.now ∷ []) ≡ Ok (kind_of r)) }
    ensures each { IfOk result (Gives (rows_of c.now) (λ k. eval.apply func (got_at c.now k ∷ got_at a.now k ∷ got_at b.now k ∷ []))) }
{
    match func {
        Func::If => choice(alloc, c, a, b),
        _ => unreachable!(),
    }
}
