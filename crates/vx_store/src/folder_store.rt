//! A store over files in a folder.
ghost use Rattle.std.specs.Prelude.{◌≡◌, ◌≤◌, ◌+◌, OnOk, length};
ghost use Rattle.vx_base.specs.Causes.{Rose};
ghost use Rattle.vx_store.specs.Folder.{folder_view};
ghost use Rattle.vx_store.specs.Store.{IsThere, Stays, Reads, IsPastEnd, Keeps, faults_with};

use crate::error::StoreError;
use crate::real_files::{Part, add_bytes, add_next, read_bytes, take_file};
use crate::store::{FileNo, Store};
use std::alloc::Global;
use std::rt::Files;

/// A store over real files, `vxspill/J-N.bin` below the current folder, with J the job and N the file's
/// number.
///
/// The folder is made at the first `create`, and a file that stood under a name is replaced. Files are
/// opened anew for each call. No clause tells what they hold.
#[derive(Drop)]
pub struct FolderStore<F> {
    alloc: Global,
    files: F,
    job: u32,
    next: u64,
    faults: u64,
}

impl<F: Files + Drop> FolderStore<F> {
    /// A store without files, none of whose calls has failed.
    pub fn new(alloc: Global, files: F, job: u32) -> FolderStore<F>
        ensures { result ≡ record { alloc = alloc; files = files; job = job; next = 0; faults = 0 } }
    {
        FolderStore {
            alloc,
            files,
            job,
            next: 0,
            faults: 0,
        }
    }
}

impl<F: Files> Store for FolderStore<F> {
    ghost state = { λ s. folder_view s.next s.faults };

    fn faults(&self) -> u64 {
        self.faults
    }

    fn create(&mut self) -> Result<FileNo, StoreError> {
        let number = self.next;
        match add_next(self.alloc, &self.files, self.job, number) {
            Ok(after) => {
                self.next = after;
                Ok(FileNo(number))
            }
            Err(error) => Err(self.noted(error)),
        }
    }

    fn append(&mut self, file: FileNo, bytes: &[u8]) -> Result<u64, StoreError> {
        match add_bytes(self.alloc, &self.files, self.job, file.0, bytes) {
            Ok(at) => Ok(at),
            Err(error) => Err(self.noted(error)),
        }
    }

    fn read(
        &mut self,
        file: FileNo,
        at: u64,
        len: u32,
        into: &mut Vec<u8>,
    ) -> Result<(), StoreError>
        requires { IsThere (folder_view self.old.next self.old.faults).files file.0 }
        ensures ok { OnOk result (Reads (folder_view self.old.next self.old.faults).files file.0 at len into.new.items) }
        ensures files { Stays (folder_view self.old.next self.old.faults).files (folder_view self.new.next self.new.faults).files }
        ensures keeps { Keeps (λ _. ⊥) (IsPastEnd (folder_view self.old.next self.old.faults).files file.0 (at + len)) (folder_view self.old.next self.old.faults) (folder_view self.new.next self.new.faults) result }
        ensures created { (folder_view self.new.next self.new.faults).created ≡ (folder_view self.old.next self.old.faults).created }

        ensures count { OnOk result (length into.new.items ≡ len) }
    {
        let part = Part {
            job: self.job,
            number: file.0,
            at,
            len,
        };
        match read_bytes(self.alloc, &self.files, part, into) {
            Ok(()) => Ok(()),
            Err(error) => Err(self.noted(error)),
        }
    }

    fn remove(&mut self, file: FileNo) -> Result<(), StoreError> {
        match take_file(self.alloc, &self.files, self.job, file.0) {
            Ok(()) => Ok(()),
            Err(error) => Err(self.noted(error)),
        }
    }
}

impl<F> FolderStore<F> {
    /// Counts an error that is a fault, and hands it on.
    fn noted(&mut self, error: StoreError) -> StoreError
        ensures same { result ≡ error }
        ensures faults { self.new ≡ record self.old { faults = faults_with self.old.faults error } }
        ensures later { self.old.faults ≤ self.new.faults }
        ensures risen { error ≡ StoreError.Failed → Rose self.old.faults self.new.faults }
    {
        match error {
            StoreError::NoMemory => StoreError::NoMemory,
            StoreError::Failed => {
                self.faults = self.faults.saturating_add(1);
                StoreError::Failed
            }
        }
    }
}
