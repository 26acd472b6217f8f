//! One chunk of memory, freed where its owner goes.
ghost use Rattle.std.specs.Prelude.{◌≡◌, ℕ, ◌+◌, ◌≤◌, List, [], IfOk, length, take, drop, replicate, unwrap_or};
ghost use Rattle.vx_raw.specs.Region.{written};

use crate::block::{Bytes, Deed, Start, Taken, allocate, clear, deallocate};
use std::alloc::{AllocError, Global};
use std::marker::Model;

/// A block that was taken, and all that it takes to lend its bytes and to give it back.
struct Block {
    start: Start,
    len: usize,
    bytes: Bytes,
    deed: Deed<Global>,
    alloc: Global,
}

impl Model for Block {
    ghost Value = { List ℕ };

    ghost view = { λ b. b.bytes.bytes };

    ghost invariant = { λ b. (b.bytes.at ≡ b.start.at) × (length b.bytes.bytes ≡ b.len) × (b.deed.at ≡ b.start.at) × (b.deed.len ≡ b.len) × (b.deed.alloc ≡ b.alloc) };
}

/// The block goes back where its owner goes.
impl Drop for Block {
    fn drop(self) {
        let Block {
            start,
            len,
            bytes,
            deed,
            alloc,
        } = self;
        deallocate(&alloc, start, len, bytes, deed);
    }
}

impl Block {
    /// A block of so many zeros.
    fn zeroed(alloc: Global, len: usize) -> Result<Block, AllocError>
        ensures ok { IfOk result (λ block. block ≡ replicate len 0) }
    {
        if len > isize::MAX as usize {
            return Err(AllocError);
        }
        let Taken { start, room, deed } = allocate(&alloc, len)?;
        let bytes = clear(start, len, room);
        Ok(Block {
            start,
            len,
            bytes,
            deed,
            alloc,
        })
    }

    #[inline]
    fn len(&self) -> usize
        ensures { result ≡ length self.now }
    {
        self.len
    }

    #[inline]
    fn lend(&self) -> &[u8]
        ensures { result.now ≡ self.now }
    {
        self.bytes.lend(self.start, self.len)
    }

    /// Puts these bytes over those that stand there.
    #[inline]
    fn put(&mut self, at: usize, from: &[u8])
        requires { at + length from.now ≤ length self.old }
        ensures { self.new ≡ written self.old at from.now }
    {
        let bytes = self.bytes.lend_mut(self.start, self.len);
        bytes[at..at + from.len()].copy_from_slice(from);
    }
}

/// The memory of one chunk. It is taken at once at its whole size, never moves, and is freed when the
/// chunk is dropped.
#[derive(Drop)]
pub(crate) struct Chunk {
    block: Option<Block>,
}

impl Model for Chunk {
    ghost Value = { List ℕ };

    ghost view = { λ c. unwrap_or c.block [] };
}

impl Chunk {
    /// A chunk without memory.
    pub(crate) fn empty() -> Chunk
        ensures { result ≡ [] }
    {
        Chunk { block: None }
    }

    /// A chunk of so many zeros.
    pub(crate) fn zeroed(alloc: Global, bytes: u64) -> Result<Chunk, AllocError>
        ensures ok { IfOk result (λ chunk. chunk ≡ replicate bytes 0) }
    {
        let block = Block::zeroed(alloc, bytes as usize)?;
        Ok(Chunk { block: Some(block) })
    }

    /// How many bytes it has.
    #[inline]
    pub(crate) fn len(&self) -> u64
        ensures { result ≡ length self.now }
    {
        match &self.block {
            Some(block) => block.len() as u64,
            None => 0,
        }
    }

    /// Lends so many of its bytes.
    #[inline]
    pub(crate) fn lend(&self, at: u64, len: u64) -> &[u8]
        requires { at + len ≤ length self.now }
        ensures { result.now ≡ take len (drop at self.now) }
    {
        let start = at as usize;
        match &self.block {
            Some(block) => &block.lend()[start..start + len as usize],
            None => &[],
        }
    }

    /// Puts these bytes over those that stand there.
    #[inline]
    pub(crate) fn put(&mut self, at: u64, from: &[u8])
        requires { at + length from.now ≤ length self.old }
        ensures { self.new ≡ written self.old at from.now }
    {
        if let Some(block) = &mut self.block {
            block.put(at as usize, from);
        }
    }
}
