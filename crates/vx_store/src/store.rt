//! Files that a query spills to: the contract.
ghost use Rattle.std.specs.Prelude.{◌≡◌, ◌+◌, IfOk, IfErr, OnOk, OnErr};
ghost use Rattle.vx_store.specs.Views.{StoreView};
ghost use Rattle.vx_store.specs.Store.{IsThere, Stays, Creates, Appends, AppendsSome, Reads, IsPastEnd, Removes, MayRemove, Goes, Keeps, created_after};

use crate::error::StoreError;

/// The number of a file of a store.
#[derive(Clone, Copy, Debug, PartialEq, Eq)]
pub struct FileNo(pub u64);

/// Files that a query spills to.
///
/// The count of faults rises exactly where a call answers `Failed`. What is said of the files holds where
/// the store tells them.
pub trait Store {
    /// The files, how many were created, the faults, and whether a call is still to fail.
    ghost state: { Self → StoreView };

    /// How many calls have failed; it stays at the last `u64`.
    fn faults(&self) -> u64
        ensures { result ≡ (state self.now).faults };

    /// Adds an empty file. Its number is how many files were created before, so no number is given twice.
    /// After an error all files are as they were.
    fn create(&mut self) -> Result<FileNo, StoreError>
        ensures ok { IfOk result (λ file. Creates (state self.old).files (state self.new).files file.0) }
        ensures err { OnErr result (Stays (state self.old).files (state self.new).files) }
        ensures ready { IfOk result (λ file. IsThere (state self.new).files file.0) }
        ensures keeps { Keeps (λ _. ⊥) ⊥ (state self.old) (state self.new) result }
        ensures number { IfOk result (λ file. file.0 ≡ (state self.old).created) }
        ensures created { (state self.new).created ≡ created_after (state self.old).created result };

    /// Adds the bytes at the file's end and answers the place at which they begin. After an error the first
    /// of them may be there.
    fn append(&mut self, file: FileNo, bytes: &[u8]) -> Result<u64, StoreError>
        requires { IsThere (state self.old).files file.0 }
        ensures ok { IfOk result (λ at. Appends (state self.old).files (state self.new).files file.0 bytes.now at) }
        ensures err { OnErr result (AppendsSome (state self.old).files (state self.new).files file.0 bytes.now) }
        ensures keeps { Keeps (λ _. ⊥) ⊥ (state self.old) (state self.new) result }
        ensures created { (state self.new).created ≡ (state self.old).created };

    /// Sets `into` to `len` bytes of the file from the place `at` on. Bytes past the file's end are a fault.
    /// After an error `into` is any list.
    fn read(
        &mut self,
        file: FileNo,
        at: u64,
        len: u32,
        into: &mut Vec<u8>,
    ) -> Result<(), StoreError>
        requires { IsThere (state self.old).files file.0 }
        ensures ok { OnOk result (Reads (state self.old).files file.0 at len into.new.items) }
        ensures files { Stays (state self.old).files (state self.new).files }
        ensures keeps { Keeps (λ _. ⊥) (IsPastEnd (state self.old).files file.0 (at + len)) (state self.old) (state self.new) result }
        ensures created { (state self.new).created ≡ (state self.old).created };

    /// Takes the file away. After `Failed` it may be there or not; want of memory leaves it.
    fn remove(&mut self, file: FileNo) -> Result<(), StoreError>
        requires { IsThere (state self.old).files file.0 }
        ensures ok { OnOk result (Removes (state self.old).files (state self.new).files file.0) }
        ensures err { IfErr result (MayRemove (state self.old).files (state self.new).files file.0) }
        ensures keeps { Keeps (Goes file.0 result) ⊥ (state self.old) (state self.new) result }
        ensures created { (state self.new).created ≡ (state self.old).created };
}
