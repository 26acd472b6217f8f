//! A word and the number that follows it, at the end of a text.
ghost use Rattle.std.specs.Prelude.{◌≡◌, ◌++◌, OnOk};

use itoa::{Buffer, Integer};
use std::alloc::AllocError;

/// Appends a word, and a number in decimal digits.
pub(crate) fn push_field<I: Integer>(
    text: &mut Vec<u8>,
    word: &str,
    number: I,
) -> Result<(), AllocError>
    ensures { OnOk result (text.new.items ≡ text.old.items ++ word.now ++ I.text number) }
{
    text.extend_from_slice(word.as_bytes())?;
    text.extend_from_slice(Buffer::new().format(number).as_bytes())
}
