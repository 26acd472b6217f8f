//! Where the fields of a row's body stand.
ghost use Rattle.std.specs.Prelude.{◌≡◌, ◌+◌, ◌/◌, ◌<◌, ◌≤◌, length, IfOk};
ghost use Rattle.vx_rows.specs.Layout.{body_len, field_at, fields_of, null_len, place_of, row_len, rows_a_chunk};

use crate::fields::{Extra, Fields};
use std::alloc::{AllocError, Global};
use std::marker::Model;
use vx_value::Kind;

/// Where the fields of a row's body stand: one for each column, then one for each accumulator.
#[derive(Debug, Drop)]
pub(crate) struct Layout {
    placed: Fields,
}

impl Model for Layout {
    ghost use Rattle.std.specs.Prelude.{◌≡◌, List};
    ghost use Rattle.vx_rows.specs.Layout.{shape_of};
    ghost use Rattle.vx_rows.specs.declared.fields.Extra.{Extra as Piece};

    ghost Value = { List Piece };

    ghost view = { λ l. l.placed.fields };

    ghost invariant = { λ l. l.placed ≡ shape_of l.placed.fields };
}

impl Layout {
    /// The layout of rows with these columns and these accumulators.
    pub(crate) fn new(alloc: Global, kinds: &[Kind], extras: &[Extra]) -> Result<Layout, AllocError>
        requires { row_len (fields_of kinds.now extras.now) ≤ 4096 }
        ensures { IfOk result (λ layout. layout ≡ fields_of kinds.now extras.now) }
    {
        let placed = Fields::new(alloc, kinds, extras)?;
        Ok(Layout { placed })
    }

    /// How many fields there are.
    pub(crate) fn count(&self) -> u32
        ensures { result ≡ length self.now }
    {
        self.placed.count() as u32
    }

    /// How many bytes of the body stand before this field.
    #[inline]
    pub(crate) fn at(&self, which: u32) -> u32
        requires { which < length self.now }
        ensures { result ≡ place_of self.now which }
    {
        self.placed.at(which)
    }

    /// How many bytes of the body the null bits have.
    pub(crate) fn start(&self) -> u32
        ensures is { result ≡ null_len (length self.now) }
        ensures inside { result ≤ body_len self.now }
    {
        self.placed.start()
    }

    /// What this field is.
    #[inline]
    pub(crate) fn extra(&self, which: u32) -> Extra
        requires { which < length self.now }
        ensures { result ≡ field_at self.now which }
    {
        self.placed.extra(which)
    }

    /// How many bytes a body has.
    pub(crate) fn bytes(&self) -> u32
        ensures is { result ≡ body_len self.now }
        ensures most { result ≤ 4088 }
    {
        self.placed.end()
    }

    /// How many rows stand in a chunk.
    pub(crate) fn rows(&self) -> u32
        ensures is { result ≡ rows_a_chunk self.now }
        ensures least { 1 ≤ result }
    {
        4096 / (8 + self.placed.end())
    }
}
