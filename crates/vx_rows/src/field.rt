//! What a field stores.
ghost use Rattle.std.specs.Prelude.{◌≡◌};

use vx_raw::Place;

/// What a field of a body stores.
#[derive(Clone, Copy, Debug)]
pub(crate) enum FieldRef<'a> {
    Null,
    Bool(bool),
    Int(i64),
    /// A text of at most 12 bytes.
    Short(&'a [u8]),
    /// A longer text: its length, its first 4 bytes, and where it stands in the arena.
    Long(u32, &'a [u8], Place),
    /// The bytes of an accumulator.
    Raw(&'a [u8]),
}

impl FieldRef<'_> {
    ghost use Rattle.vx_rows.specs.Body.{is_null as is_none, seen};

    /// Whether nothing is stored.
    #[inline]
    pub(crate) fn is_null(self) -> bool
        ensures { result ≡ is_none (seen self.entry) }
    {
        matches!(self, FieldRef::Null)
    }
}
