//! A job's files in the folder, each opened anew for a call.
// Calls on real files. Each answers what went wrong, and none counts it.
ghost use Rattle.std.specs.Prelude.{◌≡◌, ◌+◌, ◌↔◌, IfOk, OnOk, length, string_bytes};
ghost use Rattle.std.specs.Io.KnownBytes.{Consumes};
ghost use Rattle.std.specs.IoError.{error_kind};
ghost use Rattle.vx_store.specs.Folder.{file_name};

use crate::error::StoreError;
use std::alloc::{AllocError, Global};
use std::fs::{File, OpenOptions};
use std::io::{ErrorKind, Read, Seek, SeekFrom, Write};
use std::rt::Files;
use std::{fs, io};

const FOLDER: &str = "vxspill";

/// So many bytes of a job's file from a place on.
#[derive(Clone, Copy)]
pub(crate) struct Part {
    pub job: u32,
    pub number: u64,
    pub at: u64,
    pub len: u32,
}

/// The name of a job's file.
pub(crate) fn file_name(alloc: Global, job: u32, number: u64) -> Result<String, AllocError>
    ensures { IfOk result (λ name. string_bytes name ≡ file_name job number) }
{
    format!(in alloc; "vxspill/{job}-{number}.bin")
}

/// Makes the job's empty file of this number, and the folder where there is none. Answers the next number.
pub(crate) fn add_next<F: Files>(
    alloc: Global,
    files: &F,
    job: u32,
    number: u64,
) -> Result<u64, StoreError>
    ensures { IfOk result (λ next. next ≡ number + 1) }
{
    let Some(next) = number.checked_add(1) else {
        return Err(StoreError::Failed);
    };
    let name = file_name(alloc, job, number)?;
    add_file(files, name.as_str())?;
    Ok(next)
}

/// Adds bytes at the end of a job's file, and answers where they begin.
pub(crate) fn add_bytes<F: Files>(
    alloc: Global,
    files: &F,
    job: u32,
    number: u64,
    bytes: &[u8],
) -> Result<u64, StoreError> {
    let name = file_name(alloc, job, number)?;
    add_to_file(files, name.as_str(), bytes)
}

/// Sets `into` to so many bytes of a job's file from a place on.
pub(crate) fn read_bytes<F: Files>(
    alloc: Global,
    files: &F,
    part: Part,
    into: &mut Vec<u8>,
) -> Result<(), StoreError>
    ensures count { OnOk result (length into.new.items ≡ part.len) }
{
    let name = file_name(alloc, part.job, part.number)?;
    read_of_file(files, name.as_str(), part.at, part.len, into)
}

/// Takes a job's file away.
pub(crate) fn take_file<F: Files>(
    alloc: Global,
    files: &F,
    job: u32,
    number: u64,
) -> Result<(), StoreError> {
    let name = file_name(alloc, job, number)?;
    remove_file(files, name.as_str())
}

/// Makes an empty file, and the folder where there is none.
fn add_file<F: Files>(files: &F, name: &str) -> Result<(), StoreError> {
    if let Err(error) = fs::create_dir(files, FOLDER) {
        if error.kind() != ErrorKind::AlreadyExists {
            return Err(store_error(&error));
        }
    }
    match File::create(files, name) {
        Ok(_) => Ok(()),
        Err(error) => Err(store_error(&error)),
    }
}

/// Adds bytes at the end of a file, and answers where they begin.
fn add_to_file<F: Files>(files: &F, name: &str, bytes: &[u8]) -> Result<u64, StoreError> {
    let mut file = match OpenOptions::new().append(true).open(files, name) {
        Ok(file) => file,
        Err(error) => return Err(store_error(&error)),
    };
    let at = match file.seek(SeekFrom::End(0)) {
        Ok(at) => at,
        Err(error) => return Err(store_error(&error)),
    };
    match file.write_all(bytes) {
        Ok(()) => Ok(at),
        Err(error) => Err(store_error(&error)),
    }
}

/// Sets `into` to so many bytes of a file from a place on.
fn read_of_file<F: Files>(
    files: &F,
    name: &str,
    at: u64,
    len: u32,
    into: &mut Vec<u8>,
) -> Result<(), StoreError>
    ensures count { OnOk result (length into.new.items ≡ len) }
{
    let mut file = match File::open(files, name) {
        Ok(file) => file,
        Err(error) => return Err(store_error(&error)),
    };
    if let Err(error) = file.seek(SeekFrom::Start(at)) {
        return Err(store_error(&error));
    }
    read_part(&mut file, len, into)
}

/// Sets `into` to exactly so many bytes of a reader.
pub(crate) fn read_part<R: io::Read>(
    reader: &mut R,
    len: u32,
    into: &mut Vec<u8>,
) -> Result<(), StoreError>
    ensures count { OnOk result (length into.new.items ≡ len) }
    ensures bytes { OnOk result (Consumes (R.remaining reader.old) (R.remaining reader.new) into.new.items) }
{
    into.clear();
    into.resize(len as usize, 0)?;
    match reader.read_exact(into.as_mut_slice()) {
        Ok(()) => Ok(()),
        Err(error) => Err(store_error(&error)),
    }
}

/// Takes a file away.
fn remove_file<F: Files>(files: &F, name: &str) -> Result<(), StoreError> {
    match fs::remove_file(files, name) {
        Ok(()) => Ok(()),
        Err(error) => Err(store_error(&error)),
    }
}

fn store_error(error: &io::Error) -> StoreError
    ensures { (result ≡ StoreError.NoMemory) ↔ (error_kind error.now ≡ ErrorKind.OutOfMemory) }
{
    if error.kind() == ErrorKind::OutOfMemory {
        StoreError::NoMemory
    } else {
        StoreError::Failed
    }
}
