//! The bytes of a file, up to a limit.
// Reading a file whole, up to a limit.
ghost use Rattle.std.specs.Prelude.{◌≡◌, ◌≤◌, ◌↔◌, ℕ, List, length, Option, None, IfOk, IfErr};
ghost use Rattle.std.specs.IoError.{error_kind};
ghost use Rattle.vx_host.specs.Reading.{IsAllOf, IsErrorIn};

use crate::error::ReadError;
use std::alloc::Global;
use std::fs::{File, OpenFile};
use std::io;
use std::io::{ErrorKind, Read};
use std::rt::Files;

// The bytes of a file. Its size only says how much room to begin with.
pub(crate) fn read_file<F: Files>(
    alloc: Global,
    files: &F,
    name: &str,
    limit: u64,
) -> Result<Vec<u8>, ReadError>
    ensures within { IfOk result (λ bytes. length bytes.items ≤ limit) }
    ensures err { IfErr result (IsErrorIn None limit) }
{
    let file = match File::open(files, name) {
        Ok(file) => file,
        Err(error) => return Err(read_error(&error)),
    };
    let size = match file.metadata() {
        Ok(metadata) => metadata.len(),
        Err(error) => return Err(read_error(&error)),
    };
    read_within(alloc, file, size, limit)
}

// All that a reader has left, if that is at most `limit` bytes. No more than one byte past it is read.
pub(crate) fn read_within<R: io::Read + Drop>(
    alloc: Global,
    reader: R,
    size: u64,
    limit: u64,
) -> Result<Vec<u8>, ReadError>
    ensures bytes { IfOk result (λ bytes. IsAllOf (R.remaining reader) bytes.items) }
    ensures within { IfOk result (λ bytes. length bytes.items ≤ limit) }
    ensures err { IfErr result (IsErrorIn (R.remaining reader) limit) }
{
    let most = limit.saturating_add(1);
    let mut bytes = Vec::with_capacity(alloc, size.saturating_add(1).min(most) as usize)?;
    let mut front = reader.take(most);
    if let Err(error) = front.read_to_end(&mut bytes) {
        return Err(read_error(&error));
    }
    if bytes.len() as u64 > limit {
        return Err(ReadError::TooBig { at: limit });
    }
    Ok(bytes)
}

fn read_error(error: &io::Error) -> ReadError
    ensures out_of_memory { (result ≡ ReadError.NoMemory) ↔ (error_kind error.now ≡ ErrorKind.OutOfMemory) }
    ensures err { (known : Option (List ℕ)) (limit : ℕ) → IsErrorIn known limit result }
{
    if error.kind() == ErrorKind::OutOfMemory {
        ReadError::NoMemory
    } else {
        ReadError::Failed
    }
}
