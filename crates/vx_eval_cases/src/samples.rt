//! Columns to evaluate over: six values of each kind, in each encoding.
ghost use Rattle.std.specs.Prelude.{All, IfOk, IsTrue, ◌<◌};
ghost use Rattle.vx_vector.specs.Column.{FitsKind};

use std::alloc::{AllocError, Global};
use vx_value::{Kind, Txt, Value};
use vx_vector::Vector;

/// How a column has its values: each, one by its number, or places among six with some nulls.
#[derive(Clone, Copy)]
pub enum Encoding {
    Flat,
    Constant(u32),
    Dictionary,
}

pub const ENCODINGS: [Encoding; 4] = [
    Encoding::Flat,
    Encoding::Constant(3),
    Encoding::Constant(5),
    Encoding::Dictionary,
];

/// Every pair of six values.
pub const ROWS: u32 = 36;

/// One of six values of a kind. The last is null.
fn value(alloc: Global, kind: Kind, number: u32) -> Result<Value, AllocError>
    ensures { IfOk result (FitsKind kind) }
{
    match kind {
        Kind::Bool => Ok(bool_value(number)),
        Kind::Int => Ok(int_value(number)),
        Kind::Text => text_value(alloc, number),
    }
}

fn bool_value(number: u32) -> Value
    ensures { FitsKind Kind.Bool result }
{
    match number {
        0 => Value::Bool(false),
        1 => Value::Bool(true),
        2 => Value::Null,
        3 => Value::Bool(true),
        4 => Value::Bool(false),
        _ => Value::Null,
    }
}

fn int_value(number: u32) -> Value
    ensures { FitsKind Kind.Int result }
{
    match number {
        0 => Value::Int(i64::MIN),
        1 => Value::Int(-1),
        2 => Value::Int(0),
        3 => Value::Int(3),
        4 => Value::Int(i64::MAX),
        _ => Value::Null,
    }
}

fn text_value(alloc: Global, number: u32) -> Result<Value, AllocError>
    ensures { IfOk result (FitsKind Kind.Text) }
{
    match number {
        0 => text(alloc, ""),
        1 => text(alloc, "b"),
        2 => text(alloc, "ab"),
        3 => text(alloc, "a"),
        4 => text(alloc, "grüße an alle"),
        _ => Ok(Value::Null),
    }
}

pub fn text(alloc: Global, words: &str) -> Result<Value, AllocError>
    ensures { IfOk result (FitsKind Kind.Text) }
{
    if words.len() > 65_535 {
        return Err(AllocError);
    }
    Ok(Value::Text(Txt::of(alloc, words.as_bytes())?))
}

/// The number of a column's value at a row. The first two go through all pairs.
fn number(column: u32, row: u32) -> u32 {
    match column {
        0 => row % 6,
        1 => row / 6,
        2 => row % 5,
        _ => row / 5 % 6,
    }
}

pub fn column(
    alloc: Global,
    kind: Kind,
    encoding: Encoding,
    argument: u32,
) -> Result<Vector, AllocError> {
    match encoding {
        Encoding::Flat => flat(alloc, kind, argument),
        Encoding::Constant(number) => {
            let one = value(alloc, kind, number)?;
            Vector::constant(alloc, kind, &one, ROWS)
        }
        Encoding::Dictionary => dictionary(alloc, kind, argument),
    }
}

fn flat(alloc: Global, kind: Kind, argument: u32) -> Result<Vector, AllocError> {
    let mut values = Vec::new(alloc);
    for row in 0..ROWS {
        values.push(value(alloc, kind, number(argument, row))?)?;
    }
    stored(alloc, kind, values.as_slice())
}

/// A column that stores values of its kind.
pub fn stored(alloc: Global, kind: Kind, values: &[Value]) -> Result<Vector, AllocError> {
    if !are_of(kind, values) {
        return Err(AllocError);
    }
    Vector::flat(alloc, kind, values)
}

/// Whether each value is of this kind or null.
fn are_of(kind: Kind, values: &[Value]) -> bool
    ensures { IsTrue result → All (FitsKind kind) values.now }
{
    values.iter().all(|value| fits(kind, value))
}

fn fits(kind: Kind, value: &Value) -> bool
    ensures { IsTrue result → FitsKind kind value.now }
{
    match value.kind() {
        Some(own) => own == kind,
        None => true,
    }
}

/// Places in the flat column, which has each value of the first argument among its first six.
fn dictionary(alloc: Global, kind: Kind, argument: u32) -> Result<Vector, AllocError> {
    let base = flat(alloc, kind, 0)?;
    let mut places = Vec::new(alloc);
    let mut nulls = Vec::new(alloc);
    for row in 0..ROWS {
        places.push(number(argument, row))?;
        nulls.push(row % 7 == 3)?;
    }
    if nulls.len() != places.len() || !are_below(places.as_slice(), base.len()) {
        return Err(AllocError);
    }
    base.wrap(alloc, places.as_slice(), nulls.as_slice())
}

/// Whether each place is less than a count.
pub fn are_below(places: &[u32], count: usize) -> bool
    ensures { IsTrue result → All (λ p. p < count) places.now }
{
    places.iter().all(|place| (*place as usize) < count)
}
