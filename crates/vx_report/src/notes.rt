//! What is printed of the request that aborted a job.
ghost use Rattle.std.specs.Prelude.{◌≡◌, ◌++◌, OnOk};
ghost use Rattle.vx_report.specs.Notes as spec;

use crate::fields::push_field;
use std::alloc::AllocError;
use vx_arb::{AbortNote, NoteCause};

/// Appends the request's number, the job that made it, why it couldn't be met, what it needed and what was free.
pub(crate) fn push_note(text: &mut Vec<u8>, note: &AbortNote) -> Result<(), AllocError>
    ensures { OnOk result (text.new.items ≡ text.old.items ++ spec.note_text note.now) }
{
    push_field(text, " request=", note.request)?;
    push_field(text, " by=", note.by)?;
    text.extend_from_slice(b" cause=")?;
    text.extend_from_slice(cause_name(note.cause).as_bytes())?;
    push_field(text, " need=", note.need)?;
    push_field(text, " free=", note.free)
}

/// The name of the capacity that a request would have passed.
fn cause_name(cause: NoteCause) -> &'static str
    ensures { result.now ≡ spec.cause_name cause }
{
    match cause {
        NoteCause::Total => "total",
        NoteCause::Own => "own",
    }
}
