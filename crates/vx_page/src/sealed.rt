//! A store of pages that notices a page that isn't what was written.
ghost use Rattle.std.specs.Prelude.{◌≡◌, ◌<◌, ◌≤◌, ◌^◌, ◌⊎◌, [], List, All, length, None, IfSome, IfOk, IfErr, OnOk, OnErr, IsErrOf};
ghost use Rattle.vx_base.specs.Causes.{Rose};
ghost use Rattle.vx_value.specs.Hash.{hash_of};
ghost use Rattle.vx_store.specs.Script.{counted};
ghost use Rattle.vx_store.specs.Store.{IsThere, Stays, Creates, AppendsSome, Removes, MayRemove, Goes, Keeps, created_after, faults_after, faults_with};
ghost use Rattle.vx_page.specs.Page.{Cells, HasShape, body, page, IsPageOf};
ghost use Rattle.vx_page.specs.Sealed.{as_store, fresh, seals_of, pages_of, Agrees, HasPage, IsPage, KeepsPages, KeepsSeals, AddsSeal, IsClear, appended_after, IsUntold};

use crate::cell::{PageRow, Slot};
use crate::error::PageError;
use crate::reading::read_page;
use crate::seals::{Seal, add_seal, forget, seal_of};
use crate::writing::write_page;
use std::alloc::Global;
use std::marker::Model;
use vx_store::{FileNo, Store, StoreError};
use vx_value::hash_key;

/// A store of pages that notices a page that isn't what was written.
///
/// Of each page it keeps the length, the hash and the number of rows as they were written. A call is
/// `Failed` where a call of the store inside failed, or where a page that is read differs in one of these
/// or is no page.
#[derive(Drop)]
pub struct Sealed<S: Store + Drop> {
    alloc: Global,
    inner: S,
    faults: u64,
    appended: u64,
    seals: Vec<Vec<Seal>>,
    buffer: Vec<u8>,
}

impl<S: Store + Drop> Model for Sealed<S> {
    ghost use Rattle.vx_page.specs.Sealed.{SealedView, kept_of};

    ghost Value = { SealedView };

    ghost view = { λ s. record {
      store = S.state s.inner;
      faults = s.faults;
      appended = s.appended;
      kept = kept_of s.seals.items;
    } };
}

impl<S: Store + Drop> Sealed<S> {
    /// A sealed store over one that nobody else has used.
    pub fn new(alloc: Global, inner: S) -> Sealed<S>
        ensures { result ≡ fresh (S.state inner) }
    {
        Sealed {
            alloc,
            inner,
            faults: 0,
            appended: 0,
            seals: Vec::new(alloc),
            buffer: Vec::new(alloc),
        }
    }

    /// How many calls were `Failed`; it stays at the last `u64`.
    pub fn faults(&self) -> u64
        ensures { result ≡ self.now.faults }
    {
        self.faults
    }

    /// How many bytes were appended; it stays at the last `u64`, and a failed append adds nothing.
    pub fn appended(&self) -> u64
        ensures { result ≡ self.now.appended }
    {
        self.appended
    }

    /// Adds an empty file, with a number that no file there has.
    pub fn create(&mut self) -> Result<FileNo, StoreError>
        ensures ok { IfOk result (λ file. Creates self.old.store.files self.new.store.files file.0) }
        ensures err { OnErr result (Stays self.old.store.files self.new.store.files) }
        ensures ready { IfOk result (λ file. IsThere self.new.store.files file.0) }
        ensures number { IfOk result (λ file. file.0 ≡ self.old.store.created) }
        ensures created { self.new.store.created ≡ created_after self.old.store.created result }
        ensures empty { IsClear self.old → IfOk result (λ file. seals_of self.new.kept file.0 ≡ []) }

        // What stays as it was, and when it fails.
        ensures keeps { Keeps (λ _. ⊥) ⊥ (as_store self.old) (as_store self.new) result }
        ensures pages { KeepsPages (λ _. ⊥) self.old self.new }
        ensures seals { KeepsSeals (λ _. ⊥) self.old self.new }
        ensures appended { self.new.appended ≡ self.old.appended }
        ensures inner { self.new.store.faults ≡ faults_after self.old.store.faults result }
    {
        match self.inner.create() {
            Ok(file) => Ok(file),
            Err(error) => Err(self.noted(error)),
        }
    }

    /// Adds the page of these rows at the file's end and answers the page's number: pages are numbered in
    /// the order in which they come. A page of 4 GiB or more is answered by want of memory.
    pub fn append(
        &mut self,
        file: FileNo,
        rows: &[PageRow],
        shape: &[Slot],
    ) -> Result<u64, StoreError>
        requires there { IsThere self.old.store.files file.0 }
        requires shape { All (HasShape shape.now) rows.now }
        requires rows { length rows.now < 2 ^ 32 }
        requires body { length (body rows.now) < 2 ^ 32 }
        ensures ok { IfOk result (λ number. HasPage self.new file.0 number shape.now rows.now) }
        ensures number { IfOk result (λ number. number ≡ pages_of self.old.kept file.0) }
        ensures adds { OnOk result (AddsSeal file.0 self.old self.new) }
        ensures err { OnErr result (KeepsSeals (λ _. ⊥) self.old self.new) }
        ensures grows { AppendsSome self.old.store.files self.new.store.files file.0 (page rows.now) }

        // What stays as it was, and when it fails.
        ensures keeps { Keeps (λ _. ⊥) ⊥ (as_store self.old) (as_store self.new) result }
        ensures pages { KeepsPages (λ _. ⊥) self.old self.new }
        ensures created { self.new.store.created ≡ self.old.store.created }
        ensures appended { self.new.appended ≡ appended_after self.old.appended (length (page rows.now)) result }
        ensures inner { self.new.store.faults ≡ faults_after self.old.store.faults result }
    {
        let bytes = write_page(self.alloc, rows, shape)?;
        let written = bytes.as_slice();
        let Some(len) = short_len(written) else {
            return Err(StoreError::NoMemory);
        };
        let at = match self.inner.append(file, written) {
            Ok(at) => at,
            Err(error) => return Err(self.noted(error)),
        };
        let seal = Seal {
            at,
            len,
            hash: hash_key(written),
            rows: rows.len() as u32,
        };
        let number = add_seal(self.alloc, &mut self.seals, file.0, seal)?;
        self.appended = self.appended.saturating_add(u64::from(len));
        Ok(number)
    }

    /// The rows of a page.
    pub fn read(
        &mut self,
        file: FileNo,
        number: u64,
        shape: &[Slot],
    ) -> Result<Vec<PageRow>, StoreError>
        requires there { IsThere self.old.store.files file.0 }
        requires page { IsPage self.old file.0 number shape.now }
        ensures ok { IfOk result (λ rows. HasPage self.old file.0 number shape.now rows.items) }

        // What stays as it was, and when it fails: never by the page's content where that is told.
        ensures keeps { Keeps (λ _. ⊥) (IsUntold self.old.store.files) (as_store self.old) (as_store self.new) result }
        ensures pages { KeepsPages (λ _. ⊥) self.old self.new }
        ensures seals { KeepsSeals (λ _. ⊥) self.old self.new }
        ensures created { self.new.store.created ≡ self.old.store.created }
        ensures appended { self.new.appended ≡ self.old.appended }
        ensures inner { IsErrOf result StoreError.Failed → Rose self.old.store.faults self.new.store.faults ⊎ IsUntold self.old.store.files }
        ensures fine { (IsErrOf result StoreError.Failed → ⊥) → self.new.store.faults ≡ self.old.store.faults }
    {
        let seal = seal_of(&self.seals, file.0, number);
        if let Err(error) = self.inner.read(file, seal.at, seal.len, &mut self.buffer) {
            return Err(self.noted(error));
        }
        match opened(self.alloc, &self.buffer, shape, seal) {
            Ok(rows) => Ok(rows),
            Err(error) => Err(self.noted(error)),
        }
    }

    /// Takes the file away, and its pages. After `Failed` it may be there or not, without pages; want of
    /// memory leaves both.
    pub fn remove(&mut self, file: FileNo) -> Result<(), StoreError>
        requires { IsThere self.old.store.files file.0 }
        ensures ok { OnOk result (Removes self.old.store.files self.new.store.files file.0) }
        ensures err { IfErr result (MayRemove self.old.store.files self.new.store.files file.0) }
        ensures none { Goes file.0 result file.0 → seals_of self.new.kept file.0 ≡ [] }

        // What stays as it was, and when it fails.
        ensures keeps { Keeps (Goes file.0 result) ⊥ (as_store self.old) (as_store self.new) result }
        ensures pages { KeepsPages (Goes file.0 result) self.old self.new }
        ensures seals { KeepsSeals (Goes file.0 result) self.old self.new }
        ensures created { self.new.store.created ≡ self.old.store.created }
        ensures appended { self.new.appended ≡ self.old.appended }
        ensures inner { self.new.store.faults ≡ faults_after self.old.store.faults result }
    {
        match self.inner.remove(file) {
            Ok(()) => {
                forget(&mut self.seals, file.0);
                Ok(())
            }
            Err(StoreError::NoMemory) => Err(StoreError::NoMemory),
            Err(StoreError::Failed) => {
                forget(&mut self.seals, file.0);
                self.note_fault();
                Err(StoreError::Failed)
            }
        }
    }

    /// Counts an error that is a fault, and hands it on.
    fn noted(&mut self, error: StoreError) -> StoreError
        ensures same { result ≡ error }
        ensures after { self.new ≡ record self.old { faults = faults_with self.old.faults error } }
        ensures later { self.old.faults ≤ self.new.faults }
        ensures risen { error ≡ StoreError.Failed → Rose self.old.faults self.new.faults }
    {
        match error {
            StoreError::NoMemory => StoreError::NoMemory,
            StoreError::Failed => {
                self.note_fault();
                StoreError::Failed
            }
        }
    }

    /// Counts a fault.
    fn note_fault(&mut self)
        ensures after { self.new ≡ record self.old { faults = counted self.old.faults } }
        ensures later { self.old.faults ≤ self.new.faults }
        ensures risen { Rose self.old.faults self.new.faults }
    {
        self.faults = self.faults.saturating_add(1);
    }
}

/// How many bytes there are, where the number fits 32 bits.
fn short_len(bytes: &[u8]) -> Option<u32>
    ensures some { IfSome result (λ len. len ≡ length bytes.now) }
    ensures none { result ≡ None → 2 ^ 32 ≤ length bytes.now }
{
    u32::try_from(bytes.len()).ok()
}

/// The rows of a page as it was read, if it is as it was written.
fn opened(
    alloc: Global,
    bytes: &[u8],
    shape: &[Slot],
    seal: Seal,
) -> Result<Vec<PageRow>, StoreError>
    ensures ok { IfOk result (λ rows. IsPageOf shape.now rows.items bytes.now × Agrees seal rows.items) }
    ensures failed { (rows : List Cells) → IsPageOf shape.now rows bytes.now → Agrees seal rows → IsErrOf result StoreError.Failed → ⊥ }

    // Memory is wanted only for bytes of the length and the hash that were kept: others are a failure.
    ensures compared { IsErrOf result StoreError.NoMemory → (length bytes.now ≡ seal.len) × (hash_of bytes.now ≡ seal.hash) }
{
    if bytes.len() != seal.len as usize || hash_key(bytes) != seal.hash {
        return Err(StoreError::Failed);
    }
    match read_page(alloc, bytes, shape) {
        Ok(rows) => {
            if rows.len() != seal.rows as usize {
                return Err(StoreError::Failed);
            }
            Ok(rows)
        }
        Err(PageError::Bad { at: _ }) => Err(StoreError::Failed),
        Err(PageError::NoMemory) => Err(StoreError::NoMemory),
    }
}
