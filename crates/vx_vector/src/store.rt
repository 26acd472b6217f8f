//! Typed buffers made of values.
ghost use Rattle.std.specs.Prelude.{◌≡◌, ℕ, ◌<◌, length, get_or, map, All, IfOk};
ghost use Rattle.vx_vector.specs.Column.{FitsKind};
ghost use Rattle.vx_vector.specs.Lane.{value_of};
ghost use Rattle.vx_vector.specs.Lanes.{kind_of, rows_of, lane_at};
ghost use Rattle.vx_vector.specs.Store.{bool_in, bool_mark, int_in, int_mark, text_in};

use crate::lanes::{Bools, FINE, Ints, Lanes, NULL};
use crate::texts::Texts;
use std::alloc::{AllocError, Global};
use vx_value::{Kind, Value};

/// Typed buffers with these values, which are of the kind or null.
pub(crate) fn lanes_of(alloc: Global, kind: Kind, values: &[Value]) -> Result<Lanes, AllocError>
    requires { All (FitsKind kind) values.now }
    ensures kind { IfOk result (λ l. kind_of l ≡ kind) }
    ensures rows { IfOk result (λ l. rows_of l ≡ length values.now) }
    ensures at { IfOk result (λ l. (k : ℕ) → k < length values.now → value_of (lane_at l k) ≡ get_or values.now k Value.Null) }
{
    match kind {
        Kind::Bool => Ok(Lanes::Bools(bools_of(alloc, values)?)),
        Kind::Int => Ok(Lanes::Ints(ints_of(alloc, values)?)),
        Kind::Text => Ok(Lanes::Texts(texts_of(alloc, values)?)),
    }
}

fn bools_of(alloc: Global, values: &[Value]) -> Result<Bools, AllocError>
    ensures values { IfOk result (λ b. b.values.items ≡ map bool_in values.now) }
    ensures marks { IfOk result (λ b. b.marks.items ≡ map bool_mark values.now) }
{
    let mut bools = Vec::with_capacity(alloc, values.len())?;
    let mut marks = Vec::with_capacity(alloc, values.len())?;
    for value in values {
        let (b, mark) = bool_lane(value);
        bools.push(b)?;
        marks.push(mark)?;
    }
    Ok(Bools {
        values: bools,
        marks,
    })
}

fn bool_lane(value: &Value) -> (bool, u8)
    ensures is { result.0 ≡ bool_in value.now }
    ensures mark { result.1 ≡ bool_mark value.now }
{
    match value {
        Value::Bool(b) => (*b, FINE),
        _ => (false, NULL),
    }
}

fn ints_of(alloc: Global, values: &[Value]) -> Result<Ints, AllocError>
    ensures values { IfOk result (λ i. i.values.items ≡ map int_in values.now) }
    ensures marks { IfOk result (λ i. i.marks.items ≡ map int_mark values.now) }
{
    let mut ints = Vec::with_capacity(alloc, values.len())?;
    let mut marks = Vec::with_capacity(alloc, values.len())?;
    for value in values {
        let (n, mark) = int_lane(value);
        ints.push(n)?;
        marks.push(mark)?;
    }
    Ok(Ints {
        values: ints,
        marks,
    })
}

fn int_lane(value: &Value) -> (i64, u8)
    ensures is { result.0 ≡ int_in value.now }
    ensures mark { result.1 ≡ int_mark value.now }
{
    match value {
        Value::Int(n) => (*n, FINE),
        _ => (0, NULL),
    }
}

fn texts_of(alloc: Global, values: &[Value]) -> Result<Texts, AllocError>
    ensures { IfOk result (λ t. t ≡ map text_in values.now) }
{
    let mut texts = Texts::new(alloc);
    for value in values {
        match value {
            Value::Text(text) => texts.push(FINE, text.as_bytes())?,
            _ => texts.push(NULL, &[])?,
        }
    }
    Ok(texts)
}
