//! What a query took and gave back, and the line that says so.
ghost use Rattle.std.specs.Prelude.{◌≡◌, IfOk};
ghost use Rattle.vx_report.specs.Stats as spec;

use crate::fields::push_field;
use std::alloc::{AllocError, Global};

/// What a query took and gave back.
#[derive(Clone, Copy, Debug, PartialEq, Eq)]
pub struct Tally {
    /// Blocks taken from arenas.
    pub taken: u64,
    /// Blocks given back to them.
    pub given: u64,
    /// Bytes appended to the store.
    pub spilled: u64,
    /// The most bytes that were reserved at a time.
    pub peak: u64,
}

/// The line on a query that has ended: its tally, and the peak in bytes that was posted for it.
pub fn stats_text(alloc: Global, tally: &Tally, posted: u64) -> Result<Vec<u8>, AllocError>
    ensures { IfOk result (λ text. text.items ≡ spec.stats_text tally.now posted) }
{
    let mut text = Vec::new(alloc);
    push_field(&mut text, "stats taken=", tally.taken)?;
    push_field(&mut text, " given=", tally.given)?;
    push_field(&mut text, " reserved=0 peak=", tally.peak)?;
    push_field(&mut text, " posted=", posted)?;
    push_field(&mut text, " spilled=", tally.spilled)?;
    text.push(b'\n')?;
    Ok(text)
}
