//! The line of a job whose rows aren't printed, but the hash of their lines.
ghost use Rattle.std.specs.Prelude.{◌≡◌, ◌++◌, string_bytes, IfOk, OnOk};
ghost use Rattle.vx_report.specs.Digests as spec;

use crate::Outcome;
use crate::fields::push_field;
use crate::sections::{push_error, push_lines};
use std::alloc::{AllocError, Global};
use vx_value::{Row, hash_key};

/// What mode `gen` prints of a job: `job J`, and then `ok N digest=H` with the hash of the lines that a section would
/// have of its rows, or the line of its error.
pub fn digest_line(alloc: Global, job: u32, outcome: &Outcome) -> Result<Vec<u8>, AllocError>
    ensures { IfOk result (λ text. text.items ≡ spec.digest_line job outcome.now) }
{
    let mut text = Vec::new(alloc);
    push_field(&mut text, "job ", job)?;
    text.push(b' ')?;
    push_ending(alloc, &mut text, outcome)?;
    Ok(text)
}

fn push_ending(alloc: Global, text: &mut Vec<u8>, outcome: &Outcome) -> Result<(), AllocError>
    ensures { OnOk result (text.new.items ≡ text.old.items ++ spec.ending outcome.now) }
{
    match outcome {
        Outcome::Ok(rows) => push_counted(alloc, text, rows.as_slice()),
        Outcome::Error(cause) => push_error(text, cause),
    }
}

fn push_counted(alloc: Global, text: &mut Vec<u8>, rows: &[Row]) -> Result<(), AllocError>
    ensures { OnOk result (text.new.items ≡ text.old.items ++ spec.counted_rows rows.now) }
{
    let hash = hash_of_lines(alloc, rows)?;
    push_field(text, "ok ", rows.len())?;
    text.extend_from_slice(b" digest=")?;
    let digits = digits(alloc, hash)?;
    text.extend_from_slice(digits.as_bytes())?;
    text.push(b'\n')?;
    Ok(())
}

fn hash_of_lines(alloc: Global, rows: &[Row]) -> Result<u64, AllocError>
    ensures { IfOk result (λ hash. hash ≡ spec.hash_of_lines rows.now) }
{
    let mut lines = Vec::new(alloc);
    push_lines(&mut lines, rows)?;
    Ok(hash_key(lines.as_slice()))
}

/// A number as 16 hexadecimal digits.
fn digits(alloc: Global, number: u64) -> Result<String, AllocError>
    ensures { IfOk result (λ text. string_bytes text ≡ spec.digits number) }
{
    hex::encode(alloc, number.to_be_bytes())
}
