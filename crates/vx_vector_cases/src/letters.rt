//! Vectors spelled by a letter a value, as they are made, copied, wrapped, selected, flattened and decoded.
ghost use Rattle.std.specs.Prelude.{◌≡◌, ◌<◌, length, All, IfOk, IsTrue};
ghost use Rattle.vx_vector.specs.Column.{FitsKind};

use std::alloc::{AllocError, Global};
use vx_value::{Kind, Txt, Value, ValueRef};
use vx_vector::{Batch, Lanes, Selection, Vector};

/// One letter a value: `n` is null, `t` is true, an int is the letter's byte, and a text is empty but for `a`.
fn value(alloc: Global, kind: Kind, letter: u8) -> Result<Value, AllocError>
    ensures { IfOk result (FitsKind kind) }
{
    if letter == b'n' {
        return Ok(Value::Null);
    }
    match kind {
        Kind::Bool => Ok(Value::Bool(letter == b't')),
        Kind::Int => Ok(Value::Int(i64::from(letter))),
        Kind::Text => Ok(Value::Text(text(alloc, usize::from(letter == b'a'))?)),
    }
}

/// A text of so many times `a`.
fn text(alloc: Global, count: usize) -> Result<Txt, AllocError> {
    let words = "a".repeat(alloc, count)?;
    text_of(alloc, words.as_str())
}

fn text_of(alloc: Global, words: &str) -> Result<Txt, AllocError> {
    if words.len() > 65_535 {
        return Err(AllocError);
    }
    Txt::of(alloc, words.as_bytes())
}

fn letter(value: ValueRef<'_>) -> u8 {
    match value {
        ValueRef::Null => b'n',
        ValueRef::Bool(b) => letter_of_bool(b),
        ValueRef::Int(n) => letter_of_int(n),
        ValueRef::Text(text) => letter_of_text(text),
    }
}

fn letter_of_bool(b: bool) -> u8 {
    if b { b't' } else { b'f' }
}

fn letter_of_int(n: i64) -> u8 {
    u8::try_from(n).unwrap_or(b'?')
}

fn letter_of_text(text: &[u8]) -> u8 {
    text.first().copied().unwrap_or(b'e')
}

/// A column that stores each value, spelled by letters.
pub fn flat(alloc: Global, kind: Kind, letters: &[u8]) -> Result<Vector, AllocError>
    ensures { IfOk result (λ v. length v.values ≡ length letters.now) }
{
    let mut values = Vec::new(alloc);
    for one in letters {
        values.push(value(alloc, kind, *one)?)?;
    }
    Vector::flat(alloc, kind, values.as_slice())
}

/// The letters of a vector.
fn spelled(alloc: Global, vector: &Vector) -> Result<Vec<u8>, AllocError> {
    let mut letters = Vec::new(alloc);
    let count = u32::try_from(vector.len()).map_err(|_| AllocError)?;
    for row in 0..count {
        letters.push(letter(vector.get(row)))?;
    }
    Ok(letters)
}

/// The letters of a vector by its places in a base.
fn spelled_decoded(alloc: Global, vector: &Vector) -> Result<Vec<u8>, AllocError> {
    let decoded = vector.decode(alloc)?;
    let base = spelled(alloc, &decoded.base)?;
    let mut letters = Vec::new(alloc);
    for place in decoded.index.as_slice() {
        match *place {
            Some(place) => letters.push(base.get(place as usize).copied().unwrap_or(b'?'))?,
            None => letters.push(b'n')?,
        }
    }
    Ok(letters)
}

/// Adds the letters of a vector and a blank, where it, its copy, and what it is flattened and decoded to agree.
fn tell(alloc: Global, vector: &Vector, told: &mut Vec<u8>) -> Result<(), AllocError> {
    let letters = spelled(alloc, vector)?;
    let copied = spelled(alloc, &vector.copy(alloc)?)?;
    let flattened = spelled(alloc, &vector.flatten(alloc)?)?;
    let decoded = spelled_decoded(alloc, vector)?;
    let first = letters.as_slice();
    if copied.as_slice() == first && flattened.as_slice() == first && decoded.as_slice() == first {
        told.extend_from_slice(first)?;
    } else {
        told.push(b'!')?;
    }
    told.push(b' ')?;
    Ok(())
}

/// Whether each place is less than a count.
fn are_below(places: &[u32], count: usize) -> bool
    ensures { IsTrue result → All (λ p. p < count) places.now }
{
    places.iter().all(|place| (*place as usize) < count)
}

/// A wrap, where its conditions hold.
pub fn wrap(
    alloc: Global,
    vector: Vector,
    indices: &[u32],
    nulls: &[bool],
) -> Result<Vector, AllocError> {
    if indices.len() != nulls.len() || !are_below(indices, vector.len()) {
        return Err(AllocError);
    }
    vector.wrap(alloc, indices, nulls)
}

/// A vector, a wrap of it, and a wrap of the wrap.
fn tell_wraps(alloc: Global, vector: Vector, told: &mut Vec<u8>) -> Result<(), AllocError> {
    tell(alloc, &vector, told)?;
    let once = wrap(alloc, vector, &[2, 0, 1, 2], &[false, false, false, true])?;
    tell(alloc, &once, told)?;
    let twice = wrap(alloc, once, &[3, 0, 1], &[false, false, true])?;
    tell(alloc, &twice, told)
}

/// Wraps of three values that are stored, and of the first of them three times.
pub fn wraps(alloc: Global, kind: Kind, letters: &[u8], first: u8) -> Result<Vec<u8>, AllocError> {
    let mut told = Vec::new(alloc);
    tell_wraps(alloc, flat(alloc, kind, letters)?, &mut told)?;
    let one = value(alloc, kind, first)?;
    let constant = Vector::constant(alloc, kind, &one, 3)?;
    tell_wraps(alloc, constant, &mut told)?;
    Ok(told)
}

/// The letters of the rows at these places, by `select` and by `lanes_at`.
fn tell_rows(
    alloc: Global,
    vector: &Vector,
    rows: &Selection,
    told: &mut Vec<u8>,
) -> Result<(), AllocError> {
    if !are_below(rows.places(), vector.len()) {
        return Err(AllocError);
    }
    tell(alloc, &vector.select(alloc, rows)?, told)?;
    tell(alloc, &vector_at(alloc, vector, rows)?, told)
}

/// The rows at these places, by `lanes_at`.
fn vector_at(alloc: Global, vector: &Vector, rows: &Selection) -> Result<Vector, AllocError>
    requires { All (λ p. p < length vector.now.values) rows.now }
{
    let lanes = Lanes::owned(alloc, vector.lanes_at(alloc, rows)?)?;
    Ok(Vector::of_lanes(lanes))
}

/// The rows at 0 and 2, all three rows, and no row.
fn selections(alloc: Global, vector: &Vector, told: &mut Vec<u8>) -> Result<(), AllocError> {
    tell_rows(alloc, vector, &Selection::of(alloc, &[0, 2])?, told)?;
    tell_rows(alloc, vector, &Selection::first(alloc, 3)?, told)?;
    tell_rows(alloc, vector, &Selection::of(alloc, &[])?, told)
}

/// Selections of three values that are stored, of a constant, and of a wrap.
pub fn selected(
    alloc: Global,
    kind: Kind,
    letters: &[u8],
    first: u8,
) -> Result<Vec<u8>, AllocError> {
    let mut told = Vec::new(alloc);
    let stored = flat(alloc, kind, letters)?;
    selections(alloc, &stored, &mut told)?;
    let one = value(alloc, kind, first)?;
    selections(alloc, &Vector::constant(alloc, kind, &one, 3)?, &mut told)?;
    let wrapped = wrap(alloc, stored, &[2, 1, 0], &[true, false, false])?;
    selections(alloc, &wrapped, &mut told)?;
    Ok(told)
}

/// The length of the text at each row; a null counts as 1.
pub fn lengths(alloc: Global, vector: &Vector) -> Result<Vec<usize>, AllocError> {
    let mut counted = Vec::new(alloc);
    let count = u32::try_from(vector.len()).map_err(|_| AllocError)?;
    for row in 0..count {
        match vector.get(row) {
            ValueRef::Text(text) => counted.push(text.len())?,
            _ => counted.push(1)?,
        }
    }
    Ok(counted)
}

/// Texts of these lengths.
pub fn texts(alloc: Global, counts: &[usize]) -> Result<Vector, AllocError> {
    let mut values = Vec::new(alloc);
    for count in counts {
        values.push(Value::Text(text(alloc, *count)?))?;
    }
    Vector::flat(alloc, Kind::Text, values.as_slice())
}

/// The letters of a copied batch, one column after another.
pub fn copied(alloc: Global, left: Vector, right: Vector) -> Result<Vec<u8>, AllocError>
    requires { (length left.values ≡ 3) × (length right.values ≡ 3) }
{
    let columns = vec![in alloc; left, right]?;
    let batch = Batch { columns, rows: 3 }.copy(alloc)?;
    let mut told = Vec::new(alloc);
    for column in batch.columns.as_slice() {
        tell(alloc, column, &mut told)?;
    }
    Ok(told)
}
