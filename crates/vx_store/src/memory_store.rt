//! A store in memory, which fails at listed calls.
ghost use Rattle.std.specs.Prelude.{◌≡◌, ◌+◌, ◌↔◌, ◌||◌, ◌≤◌, ◌<◌, true, Some, None, take, drop, IfSome, IfOk, IfErr, OnOk, OnErr, IsErrOf, length, slice_set};
ghost use Rattle.vx_store.specs.Files.{bytes_at};
ghost use Rattle.vx_store.specs.Memory.{files_of, store_view, new_store, next_fails, after_call, after_create, with_added, after_append, after_remove, is_past_end};
ghost use Rattle.vx_store.specs.Store.{HasFile, AppendsAt, IsThere, Stays, Creates, Appends, AppendsSome, Reads, IsPastEnd, Removes, MayRemove, Goes, Keeps, created_after};

use crate::error::StoreError;
use crate::script::Script;
use crate::store::{FileNo, Store};
use std::alloc::{AllocError, Global};
use std::marker::Model;

/// A store that keeps its files in memory and fails at listed calls.
///
/// Files are numbered in the order in which they come, and no number is used again. A call that fails
/// changes no file.
#[derive(Drop)]
pub struct MemoryStore {
    alloc: Global,
    files: Vec<Option<Vec<u8>>>,
    script: Script,
}

impl Model for MemoryStore {
    ghost use Rattle.vx_store.specs.Memory.{StoreMemory, files_of};

    ghost Value = { StoreMemory };

    ghost view = { λ s. record { files = files_of s.files.items; fails = s.script.fails.items; calls = s.script.calls; faults = s.script.faults } };
}

impl MemoryStore {
    /// A store without files. Its calls of `create`, `append`, `read` and `remove` are numbered together
    /// from 0, and those in `fails` fail.
    pub fn new(alloc: Global, fails: Vec<u64>) -> MemoryStore
        ensures { result ≡ new_store fails.items }
    {
        MemoryStore {
            alloc,
            files: Vec::new(alloc),
            script: Script::new(fails),
        }
    }
}

impl Store for MemoryStore {
    ghost state = { store_view };

    fn faults(&self) -> u64 {
        self.script.faults
    }

    fn create(&mut self) -> Result<FileNo, StoreError>
        ensures ok { IfOk result (λ file. Creates (store_view self.old).files (store_view self.new).files file.0) }
        ensures err { OnErr result (Stays (store_view self.old).files (store_view self.new).files) }
        ensures ready { IfOk result (λ file. IsThere (store_view self.new).files file.0) }
        ensures keeps { Keeps (λ _. ⊥) ⊥ (store_view self.old) (store_view self.new) result }
        ensures number { IfOk result (λ file. file.0 ≡ (store_view self.old).created) }
        ensures created { (store_view self.new).created ≡ created_after (store_view self.old).created result }

        // It fails exactly at the listed calls.
        ensures listed { IsErrOf result StoreError.Failed ↔ (next_fails self.old ≡ true) }
        ensures after { self.new ≡ after_call self.old result (after_create self.old.files result) }
    {
        if self.script.next_fails() {
            return Err(StoreError::Failed);
        }
        let number = self.files.len() as u64;
        match self.files.push(Some(Vec::new(self.alloc))) {
            Ok(()) => Ok(FileNo(number)),
            Err(_) => Err(StoreError::NoMemory),
        }
    }

    fn append(&mut self, file: FileNo, bytes: &[u8]) -> Result<u64, StoreError>
        requires { IsThere (store_view self.old).files file.0 }
        ensures ok { IfOk result (λ at. Appends (store_view self.old).files (store_view self.new).files file.0 bytes.now at) }
        ensures err { OnErr result (AppendsSome (store_view self.old).files (store_view self.new).files file.0 bytes.now) }
        ensures keeps { Keeps (λ _. ⊥) ⊥ (store_view self.old) (store_view self.new) result }
        ensures created { (store_view self.new).created ≡ (store_view self.old).created }

        // It fails exactly at the listed calls.
        ensures listed { IsErrOf result StoreError.Failed ↔ (next_fails self.old ≡ true) }
        ensures after { self.new ≡ after_call self.old result (after_append self.old.files file.0 bytes.now result) }
    {
        if self.script.next_fails() {
            return Err(StoreError::Failed);
        }
        let at = append_to(&mut self.files, file.0, bytes)?;
        Ok(at)
    }

    fn read(
        &mut self,
        file: FileNo,
        at: u64,
        len: u32,
        into: &mut Vec<u8>,
    ) -> Result<(), StoreError>
        requires { IsThere (store_view self.old).files file.0 }
        ensures ok { OnOk result (Reads (store_view self.old).files file.0 at len into.new.items) }
        ensures files { Stays (store_view self.old).files (store_view self.new).files }
        ensures keeps { Keeps (λ _. ⊥) (IsPastEnd (store_view self.old).files file.0 (at + len)) (store_view self.old) (store_view self.new) result }
        ensures created { (store_view self.new).created ≡ (store_view self.old).created }

        // It fails exactly at the listed calls and past the file's end.
        ensures listed { IsErrOf result StoreError.Failed ↔ (next_fails self.old || is_past_end self.old.files file.0 (at + len) ≡ true) }
        ensures after { self.new ≡ after_call self.old result self.old.files }
    {
        if self.script.next_fails() {
            return Err(StoreError::Failed);
        }
        let bytes = bytes_of(&self.files, file.0);
        let Some(part) = part_of(bytes, at, len) else {
            self.script.note_fault();
            return Err(StoreError::Failed);
        };
        into.clear();
        into.extend_from_slice(part)?;
        Ok(())
    }

    fn remove(&mut self, file: FileNo) -> Result<(), StoreError>
        requires { IsThere (store_view self.old).files file.0 }
        ensures ok { OnOk result (Removes (store_view self.old).files (store_view self.new).files file.0) }
        ensures err { IfErr result (MayRemove (store_view self.old).files (store_view self.new).files file.0) }
        ensures keeps { Keeps (Goes file.0 result) ⊥ (store_view self.old) (store_view self.new) result }
        ensures created { (store_view self.new).created ≡ (store_view self.old).created }

        // It fails exactly at the listed calls.
        ensures listed { IsErrOf result StoreError.Failed ↔ (next_fails self.old ≡ true) }
        ensures after { self.new ≡ after_call self.old result (after_remove self.old.files file.0 result) }
    {
        if self.script.next_fails() {
            return Err(StoreError::Failed);
        }
        take_away(&mut self.files, file.0);
        Ok(())
    }
}

/// The bytes of a file that is there.
fn bytes_of(files: &[Option<Vec<u8>>], number: u64) -> &[u8]
    requires { HasFile number (files_of files.now) }
    ensures { bytes_at (files_of files.now) number ≡ Some result.now }
{
    match &files[number as usize] {
        Some(bytes) => bytes.as_slice(),
        None => &[],
    }
}

/// So many bytes from this place on, where there are as many.
fn part_of(bytes: &[u8], at: u64, len: u32) -> Option<&[u8]>
    ensures some { IfSome result (λ part. (at + len ≤ length bytes.now) × (part.now ≡ take len (drop at bytes.now))) }
    ensures none { result ≡ None → length bytes.now < at + len }
{
    let Some(end) = at.checked_add(u64::from(len)) else {
        return None;
    };
    if end > bytes.len() as u64 {
        return None;
    }
    Some(&bytes[at as usize..end as usize])
}

/// Adds bytes to a file that is there, and answers how many it had. Without memory it stays as it was.
fn append_to(files: &mut Vec<Option<Vec<u8>>>, number: u64, bytes: &[u8]) -> Result<u64, AllocError>
    requires { HasFile number (files_of files.old.items) }
    ensures ok { IfOk result (λ at. AppendsAt number bytes.now at (files_of files.old.items) (files_of files.new.items)) }
    ensures set { OnOk result (files_of files.new.items ≡ with_added (files_of files.old.items) number bytes.now) }
    ensures count { length (files_of files.new.items) ≡ length (files_of files.old.items) }
    ensures err { OnErr result (files_of files.new.items ≡ files_of files.old.items) }
{
    match &mut files[number as usize] {
        Some(file) => {
            let at = file.as_slice().len() as u64;
            file.extend_from_slice(bytes)?;
            Ok(at)
        }
        None => Ok(0),
    }
}

/// Takes a file away.
fn take_away(files: &mut Vec<Option<Vec<u8>>>, number: u64)
    requires { HasFile number (files_of files.old.items) }
    ensures set { files_of files.new.items ≡ slice_set (files_of files.old.items) number None }
    ensures count { length (files_of files.new.items) ≡ length (files_of files.old.items) }
{
    files[number as usize] = None;
}
