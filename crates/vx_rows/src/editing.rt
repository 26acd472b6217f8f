//! Fields of a row, changed where it lies.
ghost use Rattle.std.specs.Prelude.{◌≡◌, ◌+◌, ◌<◌, ◌≤◌, length};
ghost use Rattle.vx_raw.specs.Region.{written};
ghost use Rattle.vx_records.specs.Record.{IsLive, record_at, with_record};
ghost use Rattle.vx_rows.specs.Body.{CanBeSpelled, FitsField, SetsField, seen, spelled};
ghost use Rattle.vx_rows.specs.Layout.{body_len, field_at};

use crate::body::null_byte;
use crate::field::FieldRef;
use crate::layout::Layout;
use crate::slot::{bool_slot, int_slot, long_slot, short_slot};
use vx_records::Records;

/// Puts this into a field of a record, where it lies.
pub(crate) fn put_in(
    records: &mut Records,
    layout: &Layout,
    number: u32,
    which: u32,
    stored: FieldRef<'_>,
)
    requires live { IsLive records.old number }
    requires len { records.old.len ≡ body_len layout.now }
    requires which { which < length layout.now }
    requires fits { FitsField (field_at layout.now which) (seen stored) }
    ensures { SetsField layout.now records.old records.new number which (seen stored.entry) }
{
    let byte = null_byte(records.body(number), which, stored.is_null());
    records.write(number, which / 8, &[byte]);
    write_in(records, number, layout.at(which), stored);
}

/// Writes a field's bytes over those of a record.
fn write_in(records: &mut Records, number: u32, at: u32, stored: FieldRef<'_>)
    requires live { IsLive records.old number }
    requires inside { at + length (spelled (seen stored)) ≤ records.old.len }
    requires fits { CanBeSpelled (seen stored) }
    ensures { records.new ≡ with_record records.old number (record (record_at records.old number) { body = written (record_at records.old number).body at (spelled (seen stored.entry)) }) }
{
    match stored {
        FieldRef::Null => {}
        FieldRef::Bool(value) => records.write(number, at, &bool_slot(value)),
        FieldRef::Int(value) => records.write(number, at, &int_slot(value)),
        FieldRef::Short(text) => records.write(number, at, &short_slot(text)),
        FieldRef::Long(len, front, place) => {
            records.write(number, at, &long_slot(len, front, place));
        }
        FieldRef::Raw(bytes) => records.write(number, at, bytes),
    }
}
