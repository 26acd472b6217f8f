//! The bytes of a row: null bits and slots.
ghost use Rattle.std.specs.Prelude.{◌≡◌, ◌+◌, ◌/◌, ◌%◌, ◌<◌, ◌≤◌, length, replicate, slice_index, slice_set, IfOk};
ghost use Rattle.std.specs.Vec.{vec_len};
ghost use Rattle.vx_raw.specs.Region.{written};
ghost use Rattle.vx_value.specs.declared.value.Kind.TheVariants as kinds;
ghost use Rattle.vx_rows.specs.Body.{CanBeSpelled, FitsField, Puts, all_stored, bytes_of, read_slot, seen, spelled, stored_in};
ghost use Rattle.vx_rows.specs.Layout.{body_len, cell_len, field_at};
ghost use Rattle.vx_rows.specs.Nulls.{SetsBit};
ghost use Rattle.vx_rows.specs.Texts.{empty_of};

use crate::field::FieldRef;
use crate::fields::{Extra, field_bytes};
use crate::layout::Layout;
use crate::nulls::{is_null, with_null};
use crate::slot::{
    bool_of, bool_slot, front_of, int_of, int_slot, len_of, long_slot, place_of, short_of,
    short_slot,
};
use crate::write::write;
use std::alloc::{AllocError, Global};
use vx_value::Kind;

/// The bytes of a field.
#[inline]
pub(crate) fn bytes_at<'a>(body: &'a [u8], layout: &Layout, which: u32) -> &'a [u8]
    requires which { which < length layout.now }
    requires body { length body.now ≡ body_len layout.now }
    ensures { result.now ≡ bytes_of layout.now body.now which }
{
    let at = layout.at(which) as usize;
    let len = field_bytes(layout.extra(which)) as usize;
    &body[at..at + len]
}

/// What a field stores.
#[inline]
pub(crate) fn field<'a>(body: &'a [u8], layout: &Layout, which: u32) -> FieldRef<'a>
    requires which { which < length layout.now }
    requires body { length body.now ≡ body_len layout.now }
    ensures { seen result ≡ stored_in layout.now body.now which }
{
    let bytes = bytes_at(body, layout, which);
    match layout.extra(which) {
        Extra::Bytes(_) => FieldRef::Raw(bytes),
        Extra::Slot(kind) => {
            if is_null(body, which) {
                return FieldRef::Null;
            }
            slot_of(kind, bytes)
        }
    }
}

/// What a slot stores that isn't null.
#[inline]
fn slot_of(kind: Kind, slot: &[u8]) -> FieldRef<'_>
    requires { cell_len kind ≤ length slot.now }
    ensures { seen result ≡ read_slot kind slot.now }
{
    match kind {
        Kind::Bool => FieldRef::Bool(bool_of(slot)),
        Kind::Int => FieldRef::Int(int_of(slot)),
        Kind::Text => text_of(slot),
    }
}

/// The text that a slot stores.
#[inline]
fn text_of(slot: &[u8]) -> FieldRef<'_>
    requires { 16 ≤ length slot.now }
    ensures { seen result ≡ read_slot kinds.Text slot.now }
{
    let len = len_of(slot);
    if len <= 12 {
        return FieldRef::Short(short_of(slot));
    }
    FieldRef::Long(len, front_of(slot), place_of(slot))
}

/// Puts this into a field.
pub(crate) fn put(body: &mut [u8], layout: &Layout, which: u32, stored: FieldRef<'_>)
    requires which { which < length layout.now }
    requires body { length body.old ≡ body_len layout.now }
    requires fits { FitsField (field_at layout.now which) (seen stored) }
    ensures is { all_stored layout.now body.new ≡ slice_set (all_stored layout.now body.old) which (seen stored.entry) }
    ensures len { length body.new ≡ length body.old }
{
    put_bytes(body, layout, which, stored);
}

/// Sets or clears a field's null bit, and writes what it stores.
fn put_bytes(body: &mut [u8], layout: &Layout, which: u32, stored: FieldRef<'_>)
    requires which { which < length layout.now }
    requires body { length body.old ≡ body_len layout.now }
    requires fits { FitsField (field_at layout.now which) (seen stored) }
    ensures { Puts layout.now body.old body.new which (seen stored.entry) }
{
    let byte = null_byte(body, which, stored.is_null());
    write(body, (which / 8) as usize, &[byte]);
    write_stored(body, layout.at(which) as usize, stored);
}

/// The byte of null bits with this field's bit set or cleared.
pub(crate) fn null_byte(body: &[u8], which: u32, null: bool) -> u8
    requires { which / 8 < length body.now }
    ensures { SetsBit (slice_index body.now (which / 8)) result (which % 8) null }
{
    with_null(body[(which / 8) as usize], which % 8, null)
}

/// Writes a field's bytes.
fn write_stored(body: &mut [u8], at: usize, stored: FieldRef<'_>)
    requires inside { at + length (spelled (seen stored)) ≤ length body.old }
    requires fits { CanBeSpelled (seen stored) }
    ensures { body.new ≡ written body.old at (spelled (seen stored.entry)) }
{
    match stored {
        FieldRef::Null => {}
        FieldRef::Bool(value) => write(body, at, &bool_slot(value)),
        FieldRef::Int(value) => write(body, at, &int_slot(value)),
        FieldRef::Short(text) => write(body, at, &short_slot(text)),
        FieldRef::Long(len, front, place) => write(body, at, &long_slot(len, front, place)),
        FieldRef::Raw(bytes) => write(body, at, bytes),
    }
}

/// A body that stores nothing: all null bits are set, and all other bytes are zero.
pub(crate) fn empty_body(alloc: Global, layout: &Layout) -> Result<Vec<u8>, AllocError>
    ensures is { IfOk result (λ body. all_stored layout.now body.items ≡ empty_of layout.now) }
    ensures len { IfOk result (λ body. length body.items ≡ body_len layout.now) }
{
    let mut body = null_bits(alloc, layout.start())?;
    body.resize(layout.bytes() as usize, 0)?;
    Ok(body)
}

/// So many bytes of null bits, all set.
fn null_bits(alloc: Global, bytes: u32) -> Result<Vec<u8>, AllocError>
    ensures is { IfOk result (λ bits. bits.items ≡ replicate bytes 255) }
    ensures len { IfOk result (λ bits. vec_len bits ≡ bytes) }
{
    Vec::from_elem(alloc, 255u8, bytes as usize)
}
