//! Columns and accumulators, one after another in a row.
ghost use Rattle.std.specs.Prelude.{◌≡◌, ◌+◌, ◌*◌, ◌/◌, ◌<◌, ◌≤◌, [], ◌∷◌, ◌++◌, length, IfOk};
ghost use Rattle.vx_rows.specs.Layout.{cell_len, end_of, field_at, field_len, fields_of, null_len, place_in, row_len, shape_of};

use std::alloc::{AllocError, Global};
use std::marker::Model;
use vx_value::Kind;

/// The place of an accumulator in a row.
#[derive(Clone, Copy, Debug, PartialEq, Eq)]
pub enum Extra {
    /// So many bytes.
    Bytes(u32),
    /// A cell of this kind, which may be null.
    Slot(Kind),
}

/// A field, and how many bytes of the body stand before it.
#[derive(Clone, Copy, Debug)]
struct Field {
    extra: Extra,
    at: u32,
}

/// Fields one after another.
#[derive(Debug, Drop)]
pub(crate) struct Fields {
    fields: Vec<Field>,
    start: u32,
    end: u32,
}

impl Model for Fields {
    ghost use Rattle.vx_rows.specs.Layout.{Shape};
    ghost use Rattle.vx_rows.specs.Places.{ArePlaced, extras_of};

    ghost Value = { Shape };

    ghost view = { λ l. record { start = l.start; fields = extras_of l.fields.items } };

    ghost invariant = { λ l. ArePlaced l.fields.items l.start l.end };
}

impl Fields {
    /// The fields of rows with these columns and these accumulators.
    pub(crate) fn new(alloc: Global, kinds: &[Kind], extras: &[Extra]) -> Result<Fields, AllocError>
        requires { row_len (fields_of kinds.now extras.now) ≤ 4096 }
        ensures { IfOk result (λ fields. fields ≡ shape_of (fields_of kinds.now extras.now)) }
    {
        let count = (kinds.len() + extras.len()) as u32;
        let mut fields = Fields::from(alloc, null_bytes(count));
        for kind in kinds {
            fields.push(Extra::Slot(*kind))?;
        }
        for extra in extras {
            fields.push(*extra)?;
        }
        Ok(fields)
    }

    /// No fields yet, and the place of the first.
    fn from(alloc: Global, start: u32) -> Fields
        requires { start ≤ 4088 }
        ensures { result ≡ record { start = start; fields = [] } }
    {
        Fields {
            fields: Vec::new(alloc),
            start,
            end: start,
        }
    }

    /// Adds a field behind the others.
    fn push(&mut self, extra: Extra) -> Result<(), AllocError>
        requires { end_of self.old + field_len extra ≤ 4088 }
        ensures ok { IfOk result (λ _. self.new ≡ record { start = self.old.start; fields = self.old.fields ++ extra ∷ [] }) }
    {
        let at = self.end;
        self.fields.push(Field { extra, at })?;
        self.end = at + field_bytes(extra);
        Ok(())
    }

    /// How many there are.
    pub(crate) fn count(&self) -> usize
        ensures is { result ≡ length self.now.fields }
        ensures near { self.now.start ≤ 4088 }
    {
        self.fields.len()
    }

    /// Where the first one begins.
    pub(crate) fn start(&self) -> u32
        ensures { result ≡ self.now.start }
    {
        self.start
    }

    /// How many bytes of the body stand before this one.
    #[inline]
    pub(crate) fn at(&self, which: u32) -> u32
        requires { which < length self.now.fields }
        ensures { result ≡ place_in self.now which }
    {
        self.fields[which as usize].at
    }

    /// What this field is.
    #[inline]
    pub(crate) fn extra(&self, which: u32) -> Extra
        requires { which < length self.now.fields }
        ensures { result ≡ field_at self.now.fields which }
    {
        self.fields[which as usize].extra
    }

    /// Where the last one ends.
    pub(crate) fn end(&self) -> u32
        ensures is { result ≡ end_of self.now }
        ensures most { result ≤ 4088 }
    {
        self.end
    }
}

/// How many bytes the slot of a kind has.
#[inline]
pub(crate) fn cell_bytes(kind: Kind) -> u32
    ensures { result ≡ cell_len kind }
{
    match kind {
        Kind::Bool => 8,
        Kind::Int => 8,
        Kind::Text => 16,
    }
}

/// How many bytes a field has.
#[inline]
pub(crate) fn field_bytes(extra: Extra) -> u32
    ensures { result ≡ field_len extra }
{
    match extra {
        Extra::Bytes(count) => count,
        Extra::Slot(kind) => cell_bytes(kind),
    }
}

/// How many bytes the null bits of so many fields have.
pub(crate) fn null_bytes(count: u32) -> u32
    requires { count ≤ 65536 }
    ensures { result ≡ null_len count }
{
    8 * ((count + 63) / 64)
}
