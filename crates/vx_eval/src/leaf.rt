//! A literal on each row.
ghost use Rattle.std.specs.Prelude.{◌≡◌, ℕ, ◌<◌, if◌then◌else◌, length, get_or, false, IfOk, IsTrue};
ghost use Rattle.vx_value.specs.Value as values;
ghost use Rattle.vx_value.specs.Value.{IsText};
ghost use Rattle.vx_vector.specs.Lane.{text_at, text_row};
ghost use Rattle.vx_expr.specs.declared.outcome.Got.TheVariants as got;
ghost use Rattle.vx_eval.specs.Gives.{GivesWhere};
ghost use Rattle.vx_eval.specs.TextRows.{blank_row};
ghost use Rattle.vx_eval.specs.Literals.{is_none_or};
ghost use Rattle.vx_vector.specs.Lanes.{kind_of};

use std::alloc::{AllocError, Global};
use vx_value::{Kind, Value};
use vx_vector::{Bools, FINE, Ints, Lanes, NULL, Texts};

/// A literal on each row; a text is copied on the wanted ones alone.
#[tactic(auto, using(crate::proofs::TextLemmas::text_got))]
pub(crate) fn literal_lanes(
    alloc: Global,
    value: &Value,
    kind: Kind,
    wanted: &[bool],
) -> Result<Lanes, AllocError>
    requires { IsTrue (is_none_or kind (values.kind_of value.now)) }
    ensures kind { IfOk result (λ l. kind_of l ≡ kind) }
    ensures each { IfOk result (GivesWhere wanted.now (length wanted.now) (λ k. got.Value value.now)) }
{
    let count = wanted.len();
    match value {
        Value::Null => null_lanes(alloc, kind, wanted),
        Value::Bool(b) => Ok(Lanes::Bools(Bools {
            values: filled(alloc, *b, count)?,
            marks: filled(alloc, FINE, count)?,
        })),
        Value::Int(n) => Ok(Lanes::Ints(Ints {
            values: filled(alloc, *n, count)?,
            marks: filled(alloc, FINE, count)?,
        })),
        Value::Text(text) => {
            let texts = texts_filled(alloc, text.as_bytes(), wanted)?;
            Ok(Lanes::Texts(texts))
        }
    }
}

#[tactic(auto, using(crate::proofs::TextLemmas::blank_got))]
fn null_lanes(alloc: Global, kind: Kind, wanted: &[bool]) -> Result<Lanes, AllocError>
    ensures kind { IfOk result (λ l. kind_of l ≡ kind) }
    ensures each { IfOk result (GivesWhere wanted.now (length wanted.now) (λ k. got.Value Value.Null)) }
{
    let count = wanted.len();
    match kind {
        Kind::Bool => Ok(Lanes::Bools(Bools {
            values: filled(alloc, false, count)?,
            marks: filled(alloc, NULL, count)?,
        })),
        Kind::Int => Ok(Lanes::Ints(Ints {
            values: filled(alloc, 0, count)?,
            marks: filled(alloc, NULL, count)?,
        })),
        Kind::Text => Ok(Lanes::Texts(nulls_filled(alloc, count)?)),
    }
}

/// An item as often as said.
pub(crate) fn filled<T: Copy>(alloc: Global, item: T, count: usize) -> Result<Vec<T>, AllocError>
    ensures rows { IfOk result (λ v. length v.items ≡ count) }
    ensures at { IfOk result (λ v. (k : ℕ) (d : T) → k < count → get_or v.items k d ≡ item) }
{
    let mut items = Vec::new(alloc);
    items.resize(count, item)?;
    Ok(items)
}

/// The text on each wanted row, and a null on the others.
fn texts_filled(alloc: Global, text: &[u8], wanted: &[bool]) -> Result<Texts, AllocError>
    requires { IsText text.now }
    ensures rows { IfOk result (λ t. length t ≡ length wanted.now) }
    ensures at { IfOk result (λ t. (k : ℕ) → k < length wanted.now → text_at t k ≡ (if get_or wanted.now k false then text_row 0 text.now else blank_row 1)) }
{
    let mut texts = Texts::with_room(alloc, wanted.len(), 0)?;
    for row in 0..wanted.len() {
        if wanted[row] {
            texts.push(FINE, text)?;
        } else {
            texts.push(NULL, &[])?;
        }
    }
    Ok(texts)
}

fn nulls_filled(alloc: Global, count: usize) -> Result<Texts, AllocError>
    ensures rows { IfOk result (λ t. length t ≡ count) }
    ensures at { IfOk result (λ t. (k : ℕ) → k < count → text_at t k ≡ blank_row 1) }
{
    let mut texts = Texts::with_room(alloc, count, 0)?;
    for _row in 0..count {
        texts.push(NULL, &[])?;
    }
    Ok(texts)
}
