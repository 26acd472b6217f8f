//! How the marks of a strict function's arguments become its own.
ghost use Rattle.std.specs.Prelude.{◌≡◌, length, IfOk};
ghost use Rattle.vx_vector.specs.Marks.{strict_marks};
ghost use Rattle.vx_eval.specs.Got as got;

use std::alloc::{AllocError, Global};
use vx_vector::{FINE, combine_marks};

pub(crate) const OVERFLOW: u8 = 2;

pub(crate) const DIVIDE_BY_ZERO: u8 = 3;

pub(crate) const TOO_LONG: u8 = 4;

/// The mark of a strict function's row before it is computed: the leftmost fault, else null where a side is.
#[inline(always)]
pub(crate) fn strictest(left: u8, right: u8) -> u8
    ensures { result ≡ got.strictest left right }
{
    if left >= 2 || left > right {
        left
    } else {
        right
    }
}

/// A strict function's mark: that of its arguments, or else its own.
#[inline(always)]
pub(crate) fn marked(before: u8, own: u8) -> u8
    ensures { result ≡ got.marked before own }
{
    if before == FINE { own } else { before }
}

/// The marks of a strict function's rows before it is computed.
pub(crate) fn strictest_marks(
    alloc: Global,
    left: &[u8],
    right: &[u8],
) -> Result<Vec<u8>, AllocError>
    requires { length right.now ≡ length left.now }
    ensures { IfOk result (λ marks. marks.items ≡ strict_marks left.now right.now) }
{
    let mut marks = Vec::from_slice(alloc, left)?;
    combine_marks(&mut marks, right);
    Ok(marks)
}
