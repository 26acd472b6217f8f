//! Chunks of memory by number.
ghost use Rattle.std.specs.Prelude.{◌≡◌, ◌+◌, ◌^◌, ◌<◌, ◌≤◌, [], IfOk, OnErr, length, take, drop};
ghost use Rattle.vx_raw.specs.Region.{IsChunkSize, IsInside, chunk_at, bytes_held, after_grow, after_write, after_shed};

use crate::chunk::Chunk;
use crate::place::Place;
use std::alloc::{AllocError, Global};
use std::marker::Model;

/// Chunks of memory by number.
///
/// Each chunk's memory is freed once: when it is shed, or when the region is closed or dropped.
#[derive(Drop)]
pub struct Region {
    alloc: Global,
    chunks: Vec<Chunk>,
    held: u64,
}

impl Model for Region {
    ghost use Rattle.vx_raw.specs.Region.{RegionModel, IsKept};

    ghost Value = { RegionModel };

    ghost view = { λ r. r.chunks.items };

    ghost invariant = { λ r. IsKept r.chunks.items r.held };
}

impl Region {
    /// A region that holds nothing.
    pub fn new(alloc: Global) -> Region
        ensures { result ≡ [] }
    {
        Region {
            alloc,
            chunks: Vec::new(alloc),
            held: 0,
        }
    }

    /// Adds a chunk of so many zeros, and answers its number: how many chunks were added before it since
    /// the region last held nothing.
    pub fn grow(&mut self, bytes: u64) -> Result<u32, AllocError>
        requires size { IsChunkSize bytes }
        requires number { length self.old < 2 ^ 32 }
        requires room { bytes_held self.old + bytes ≤ 2 ^ 34 }
        ensures number { IfOk result (λ number. number ≡ length self.old) }
        ensures ok { IfOk result (λ _. self.new ≡ after_grow self.old bytes) }
        ensures err { OnErr result (self.new ≡ self.old) }
    {
        let number = self.chunks.len() as u32;
        let chunk = Chunk::zeroed(self.alloc, bytes)?;
        self.chunks.push(chunk)?;
        self.held += bytes;
        Ok(number)
    }

    /// The so many bytes that stand there.
    #[inline]
    pub fn bytes(&self, at: Place, len: u64) -> &[u8]
        requires { IsInside self.now at len }
        ensures { result.now ≡ take len (drop at.at (chunk_at self.now at.chunk)) }
    {
        self.chunks[at.chunk as usize].lend(at.at, len)
    }

    /// Puts these bytes there.
    #[inline]
    pub fn write(&mut self, at: Place, from: &[u8])
        requires { IsInside self.old at (length from.now) }
        ensures { self.new ≡ after_write self.old at from.now }
    {
        self.chunks[at.chunk as usize].put(at.at, from);
    }

    /// Frees a chunk's memory and leaves it empty at its number. A chunk that was shed stays so.
    #[tactic(auto, using(crate::proofs::RegionLemmas::shedding))]
    pub fn shed(&mut self, chunk: u32)
        requires { chunk < length self.old }
        ensures { self.new ≡ after_shed self.old chunk }
    {
        let number = chunk as usize;
        self.held -= self.chunks[number].len();
        if self.held == 0 {
            self.chunks.clear();
        } else {
            self.chunks[number] = Chunk::empty();
        }
    }

    /// Frees all chunks.
    pub fn close(self) {}

    /// How many bytes its chunks have together.
    #[inline]
    pub fn held(&self) -> u64
        ensures is { result ≡ bytes_held self.now }
        ensures most { result ≤ 2 ^ 34 }
    {
        self.held
    }
}
