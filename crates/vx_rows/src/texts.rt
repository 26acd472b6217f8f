//! Fields that store texts: short ones in the slot, longer ones in the arena.
ghost use Rattle.std.specs.Prelude.{◌≡◌, ◌↔◌, [], ◌∷◌, ◌^◌, ◌≤◌, ◌<◌, IfOk, OnErr, IsTrue, length, map, take};
ghost use Rattle.vx_arena.specs.Text.{bytes_at, IsText};
ghost use Rattle.vx_value.specs.Value.{owned, IsLawful, IsText as IsLawfulText};
ghost use Rattle.vx_value.specs.declared.value.Value.TheVariants as values;
ghost use Rattle.vx_vector.specs.Batch.{kinds_of, row_of};
ghost use Rattle.std.specs.List.{sum_by};
ghost use Rattle.vx_rows.specs.Layout.{body_len};
ghost use Rattle.vx_rows.specs.Body.{all_stored, long, seen};
ghost use Rattle.vx_rows.specs.Texts.{value_of, text_cost, StandsAt, IsKept, Fills, HasColumns, Holds, empty_of, Frees, Keeps, Stores};

use crate::body::{field, put};
use crate::field::FieldRef;
use crate::layout::Layout;
use std::alloc::{AllocError, Global};
use vx_arena::Arena;
use vx_raw::Place;
use vx_value::{Row, Txt, Value, ValueRef};
use vx_vector::Batch;

/// How many bytes of a text stand in its slot at most.
const SHORT: usize = 12;

/// What stores this value: a text of more than 12 bytes is put into the arena.
pub(crate) fn store<'a>(arena: &mut Arena, value: ValueRef<'a>) -> Result<FieldRef<'a>, AllocError>
    requires { IsLawful (owned value) }
    ensures ok { IfOk result (λ stored. Stores arena.old arena.new (owned value.entry) (seen stored)) }
    ensures err { OnErr result (Keeps arena.old arena.new (text_cost (owned value.entry))) }
{
    let _taken = arena.taken();
    match value {
        ValueRef::Null => Ok(FieldRef::Null),
        ValueRef::Bool(b) => Ok(FieldRef::Bool(b)),
        ValueRef::Int(n) => Ok(FieldRef::Int(n)),
        ValueRef::Text(text) => store_text(arena, text),
    }
}

/// What stores this text.
fn store_text<'a>(arena: &mut Arena, text: &'a [u8]) -> Result<FieldRef<'a>, AllocError>
    requires { IsLawfulText text.now }
    ensures ok { IfOk result (λ stored. Stores arena.old arena.new (values.Text text.now) (seen stored)) }
    ensures err { OnErr result (Keeps arena.old arena.new (text_cost (values.Text text.now))) }
{
    let _taken = arena.taken();
    if text.len() <= SHORT {
        return Ok(FieldRef::Short(text));
    }
    let place = arena.take_text(text)?;
    Ok(long_ref(text, place))
}

/// What stores a text that stands at this place.
fn long_ref(text: &[u8], place: Place) -> FieldRef<'_>
    requires least { 4 ≤ length text.now }
    requires most { length text.now ≤ 65535 }
    ensures is { seen result ≡ long (length text.now) (take 4 text.now) place }
    ensures chunk { place.chunk < 2 ^ 32 }
{
    FieldRef::Long(text.len() as u32, &text[..4], place)
}

/// Gives back what the arena holds of this.
pub(crate) fn give(arena: &mut Arena, stored: FieldRef<'_>)
    requires { IsKept arena.old (seen stored) }
    ensures { Frees arena.old arena.new (seen stored.entry ∷ []) }
{
    let _given = arena.given();
    match stored {
        FieldRef::Long(_, _, place) => arena.give_text(place),
        _ => {}
    }
}

/// Gives back what the arena holds of all fields of a body.
pub(crate) fn release(arena: &mut Arena, layout: &Layout, body: &[u8])
    requires body { length body.now ≡ body_len layout.now }
    requires held { Holds arena.old (all_stored layout.now body.now) }
    ensures { Frees arena.old arena.new (all_stored layout.now body.now) }
{
    let _given = arena.given();
    for which in 0..layout.count() {
        give(arena, field(body, layout, which));
    }
}

/// Puts a row of a batch into a body that stores nothing yet, its longer texts into the arena. Where memory is wanted,
/// what was taken is given back, and the body is of no use.
pub(crate) fn fill(
    arena: &mut Arena,
    layout: &Layout,
    body: &mut [u8],
    batch: &Batch,
    at: u32,
) -> Result<(), AllocError>
    requires body { length body.old ≡ body_len layout.now }
    requires empty { all_stored layout.now body.old ≡ empty_of layout.now }
    requires columns { HasColumns layout.now (kinds_of batch.now.columns) }
    requires row { at < batch.now.rows }
    ensures ok { IfOk result (λ _. Fills arena.old arena.new (empty_of layout.now) (all_stored layout.now body.new) (row_of batch.now.columns at)) }
    ensures len { length body.new ≡ length body.old }
    ensures err { OnErr result (Keeps arena.old arena.new (sum_by text_cost (row_of batch.now.columns at))) }
{
    let (_taken, _fields) = (arena.taken(), layout.count());
    for which in 0..batch.columns.len() as u32 {
        match store(arena, batch.columns[which as usize].get(at)) {
            Ok(stored) => put(body, layout, which, stored),
            Err(error) => {
                release(arena, layout, body);
                return Err(error);
            }
        }
    }
    Ok(())
}

/// The value that is stored.
pub(crate) fn value(alloc: Global, arena: &Arena, stored: FieldRef<'_>) -> Result<Value, AllocError>
    requires { IsKept arena.now (seen stored) }
    ensures { IfOk result (λ value. value ≡ value_of arena.now (seen stored.entry)) }
{
    match stored {
        FieldRef::Null => Ok(Value::Null),
        FieldRef::Bool(b) => Ok(Value::Bool(b)),
        FieldRef::Int(n) => Ok(Value::Int(n)),
        FieldRef::Short(text) => Ok(Value::Text(Txt::of(alloc, text)?)),
        FieldRef::Long(len, _, place) => long_value(alloc, arena, len, place),
        FieldRef::Raw(_) => Ok(Value::Null),
    }
}

/// The text of so many bytes that stands in the arena.
fn long_value(alloc: Global, arena: &Arena, len: u32, place: Place) -> Result<Value, AllocError>
    requires there { IsText arena.now place }
    requires text { IsLawfulText (take len (bytes_at arena.now place)) }
    ensures { IfOk result (λ value. value ≡ values.Text (take len (bytes_at arena.now place))) }
{
    let mut bytes = Vec::with_capacity(alloc, len as usize)?;
    arena.read_text(place, u64::from(len), &mut bytes)?;
    Ok(Value::Text(Txt::from_bytes(bytes)))
}

/// The values of the first so many fields.
pub(crate) fn cells(
    alloc: Global,
    arena: &Arena,
    layout: &Layout,
    body: &[u8],
    columns: u32,
) -> Result<Row, AllocError>
    requires body { length body.now ≡ body_len layout.now }
    requires held { Holds arena.now (all_stored layout.now body.now) }
    requires columns { columns ≤ length layout.now }
    ensures { IfOk result (λ row. row ≡ map (value_of arena.now) (take columns (all_stored layout.now body.now))) }
{
    let mut cells = Vec::with_capacity(alloc, columns as usize)?;
    for which in 0..columns {
        cells.push(value(alloc, arena, field(body, layout, which))?)?;
    }
    Ok(Row::of(cells))
}

/// Whether this value is stored.
pub(crate) fn is_stored(arena: &Arena, stored: FieldRef<'_>, value: ValueRef<'_>) -> bool
    requires { IsKept arena.now (seen stored) }
    ensures { IsTrue result ↔ (value_of arena.now (seen stored.entry) ≡ owned value.entry) }
{
    match stored {
        FieldRef::Null => value.is_null(),
        FieldRef::Bool(b) => is_bool(value, b),
        FieldRef::Int(n) => is_int(value, n),
        FieldRef::Short(text) => is_text(value, text),
        FieldRef::Long(len, front, place) => match value {
            ValueRef::Text(text) => is_long(arena, text, len, front, place),
            _ => false,
        },
        FieldRef::Raw(_) => value.is_null(),
    }
}

/// Whether a value is this bool.
fn is_bool(value: ValueRef<'_>, wanted: bool) -> bool
    ensures { IsTrue result ↔ (values.Bool wanted ≡ owned value.entry) }
{
    match value {
        ValueRef::Bool(b) => b == wanted,
        _ => false,
    }
}

/// Whether a value is this int.
fn is_int(value: ValueRef<'_>, wanted: i64) -> bool
    ensures { IsTrue result ↔ (values.Int wanted ≡ owned value.entry) }
{
    match value {
        ValueRef::Int(n) => n == wanted,
        _ => false,
    }
}

/// Whether a value is this text.
fn is_text(value: ValueRef<'_>, wanted: &[u8]) -> bool
    ensures { IsTrue result ↔ (values.Text wanted.now ≡ owned value.entry) }
{
    match value {
        ValueRef::Text(text) => text == wanted,
        _ => false,
    }
}

/// Whether the text of so many bytes at this place is this one. The length and the first 4 bytes are compared first.
fn is_long(arena: &Arena, text: &[u8], len: u32, front: &[u8], place: Place) -> bool
    requires { StandsAt arena.now len front.now place }
    ensures { IsTrue result ↔ (take len (bytes_at arena.now place) ≡ text.now) }
{
    if text.len() != len as usize {
        return false;
    }
    if &text[..4] != front {
        return false;
    }
    arena.equals(place, u64::from(len), text)
}
