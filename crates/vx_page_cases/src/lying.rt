//! A store that tells nothing of its files, and lies.
ghost use Rattle.vx_store.specs.Folder.{folder_view};

use vx_store::{FileNo, Store, StoreError};

/// Reads give what was appended last, with the bits of `mask` turned in the byte at `place`.
#[derive(Drop)]
pub struct LyingStore {
    pub bytes: Vec<u8>,
    pub created: u64,
    pub place: usize,
    pub mask: u8,
}

impl Store for LyingStore {
    ghost state = { λ s. folder_view s.created 0 };

    fn faults(&self) -> u64 {
        0
    }

    fn create(&mut self) -> Result<FileNo, StoreError> {
        let number = self.created;
        let Some(created) = number.checked_add(1) else {
            return Err(StoreError::NoMemory);
        };
        self.created = created;
        Ok(FileNo(number))
    }

    fn append(&mut self, _file: FileNo, bytes: &[u8]) -> Result<u64, StoreError> {
        self.bytes.clear();
        self.bytes.extend_from_slice(bytes)?;
        Ok(0)
    }

    fn read(
        &mut self,
        _file: FileNo,
        _at: u64,
        _len: u32,
        into: &mut Vec<u8>,
    ) -> Result<(), StoreError> {
        into.clear();
        into.extend_from_slice(&self.bytes)?;
        if self.place < into.len() {
            into[self.place] ^= self.mask;
        }
        Ok(())
    }

    fn remove(&mut self, _file: FileNo) -> Result<(), StoreError> {
        Ok(())
    }
}
