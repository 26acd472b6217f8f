//! Chunks tiled by blocks: the lowest layer, which knows heads and payloads alone.
ghost use Rattle.std.specs.Prelude.{◌≡◌, ◌+◌, ◌^◌, ◌<◌, ◌≤◌, [], ◌∷◌, IfOk, OnErr, length, take, drop};
ghost use Rattle.vx_raw.specs.Region.{written};
ghost use Rattle.vx_arena.specs.Chunks.{IsBlock, block_at, with_blocks, with_chunk, halves, held_by};

use crate::words::{flag, head, word};
use std::alloc::{AllocError, Global};
use std::marker::Model;
use vx_raw::{Place, Region};

/// Chunks that are tiled by blocks. A block is named by the place of its head.
#[derive(Drop)]
pub(crate) struct Blocks {
    alloc: Global,
    region: Region,
}

impl Model for Blocks {
    ghost use Rattle.vx_arena.specs.Chunks.{Chunks, chunks_of, IsTiling};

    ghost Value = { Chunks };

    ghost view = { λ b. chunks_of b.region };

    ghost invariant = { λ b. IsTiling b.region };
}

impl Blocks {
    /// No chunks.
    pub(crate) fn new(alloc: Global) -> Blocks
        ensures { result ≡ [] }
    {
        Blocks {
            alloc,
            region: Region::new(alloc),
        }
    }

    /// Adds a chunk that is one free block, and answers its number.
    pub(crate) fn add(&mut self) -> Result<u32, AllocError>
        requires number { length self.old < 2 ^ 32 }
        requires room { held_by self.old + 4096 ≤ 2 ^ 34 }
        ensures number { IfOk result (λ number. number ≡ length self.old) }
        ensures ok { IfOk result (λ _. self.new ≡ with_chunk self.old) }
        ensures there { IfOk result (λ number. IsBlock self.new (record { chunk = number; at = 0 })) }
        ensures err { OnErr result (self.new ≡ self.old) }
    {
        let chunk = self.region.grow(4096)?;
        self.region
            .write(Place { chunk, at: 0 }, &head(4088, false));
        Ok(chunk)
    }

    /// Frees all chunks.
    pub(crate) fn clear(&mut self)
        ensures { self.new ≡ [] }
    {
        self.region = Region::new(self.alloc);
    }

    /// How many bytes its chunks have together.
    pub(crate) fn held(&self) -> u64
        ensures is { result ≡ held_by self.now }
        ensures most { result ≤ 2 ^ 34 }
    {
        self.region.held()
    }

    /// How many bytes a block's payload has.
    pub(crate) fn len(&self, at: Place) -> u32
        requires there { IsBlock self.now at }
        ensures len { result ≡ length (block_at self.now at).payload }
        ensures within { at.at + 8 + result ≤ 4096 }
    {
        word(&self.region, at)
    }

    /// Whether a block is live.
    pub(crate) fn is_live(&self, at: Place) -> bool
        requires there { IsBlock self.now at }
        ensures { result ≡ (block_at self.now at).live }
    {
        let _ = &self.region;
        let head = Place {
            chunk: at.chunk,
            at: at.at + 4,
        };
        word(&self.region, head) == 1
    }

    /// So many bytes of a block's payload.
    pub(crate) fn payload(&self, at: Place, from: u64, len: u64) -> &[u8]
        requires there { IsBlock self.now at }
        requires inside { from + len ≤ length (block_at self.now at).payload }
        ensures { result.now ≡ take len (drop from (block_at self.now at).payload) }
    {
        let _ = &self.region;
        let start = Place {
            chunk: at.chunk,
            at: at.at + (8 + from),
        };
        self.region.bytes(start, len)
    }

    /// Makes a block live or free.
    pub(crate) fn set_live(&mut self, at: Place, live: bool)
        requires there { IsBlock self.old at }
        ensures set { self.new ≡ with_blocks self.old at (record (block_at self.old at) { live = live } ∷ []) }
        ensures there { IsBlock self.new at }
    {
        let _ = &self.region;
        let start = Place {
            chunk: at.chunk,
            at: at.at + 4,
        };
        self.region.write(start, &flag(live));
    }

    /// Puts these bytes over those of a block's payload.
    pub(crate) fn write(&mut self, at: Place, to: u64, from: &[u8])
        requires there { IsBlock self.old at }
        requires inside { to + length from.now ≤ length (block_at self.old at).payload }
        ensures set { self.new ≡ with_blocks self.old at (record (block_at self.old at) { payload = written (block_at self.old at).payload to from.now } ∷ []) }
        ensures there { IsBlock self.new at }
    {
        let _ = &self.region;
        let start = Place {
            chunk: at.chunk,
            at: at.at + (8 + to),
        };
        self.region.write(start, from);
    }

    /// Cuts a block in two: so many bytes of payload stay with it, and the rest is a free block.
    pub(crate) fn split(&mut self, at: Place, len: u32)
        requires there { IsBlock self.old at }
        requires inside { len + 8 ≤ length (block_at self.old at).payload }
        ensures set { self.new ≡ with_blocks self.old at (halves (block_at self.old at) len) }
        ensures there { IsBlock self.new at }
        ensures rest { IsBlock self.new (record { chunk = at.chunk; at = at.at + (8 + len) }) }
        ensures within { at.at + 8 + len ≤ 4096 }
    {
        let rest = self.len(at) - len - 8;
        self.write(at, u64::from(len), &head(rest, false));
        self.region.write(at, &len.to_le_bytes());
    }
}
