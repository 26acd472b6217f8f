//! Free blocks, in a list for each class of length.
ghost use Rattle.std.specs.Prelude.{◌≡◌, ◌≢◌, ◌+◌, ◌*◌, ◌^◌, ◌<◌, ◌≤◌, [], IfOk, OnErr, MatchOption, length, take, drop};
ghost use Rattle.vx_arena.specs.Chunks.{held_by};
ghost use Rattle.vx_arena.specs.Names.{none, named};
ghost use Rattle.vx_arena.specs.Free.{class_of, IsLive, Frees, Gives, HasNone, Grows, Halves, Writes, next_in};
ghost use Rattle.vx_raw.specs.Region.{written};

use crate::blocks::Blocks;
use crate::links::{NONE, add, len, link, mark, next, payload, set_before, split, write};
use std::alloc::{AllocError, Global};
use std::marker::Model;

/// How many bytes a region holds at most.
const MOST: u64 = 1 << 34;

/// Blocks, the free ones in a list for each class.
#[derive(Drop)]
pub(crate) struct FreeBlocks {
    blocks: Blocks,
    heads: [u64; 8],
}

impl Model for FreeBlocks {
    ghost use Rattle.vx_arena.specs.Chunks.{Chunks};
    ghost use Rattle.vx_arena.specs.Free.{IsListed};

    ghost Value = { Chunks };

    ghost view = { λ f. f.blocks };

    ghost invariant = { λ f. IsListed f.blocks f.heads };
}

impl FreeBlocks {
    /// No chunks.
    pub(crate) fn new(alloc: Global) -> FreeBlocks
        ensures { result ≡ [] }
    {
        FreeBlocks {
            blocks: Blocks::new(alloc),
            heads: [NONE; 8],
        }
    }

    /// How many bytes its chunks have together.
    pub(crate) fn held(&self) -> u64
        ensures held { result ≡ held_by self.now }
        ensures whole { result ≡ 4096 * length self.now }
        ensures most { result ≤ 2 ^ 34 }
    {
        let _ = &self.heads;
        self.blocks.held()
    }

    /// Frees all chunks.
    pub(crate) fn clear(&mut self)
        ensures { self.new ≡ [] }
    {
        self.blocks.clear();
        self.heads = [NONE; 8];
    }

    /// Takes the first block out of a class's list, and makes it live.
    pub(crate) fn pop(&mut self, class: usize) -> Option<u64>
        requires { class < 8 }
        ensures { MatchOption result (HasNone class self.old self.new) (Gives class self.old self.new) }
    {
        let name = self.heads[class];
        if name == NONE {
            return None;
        }
        let after = next(&self.blocks, name);
        mark(&mut self.blocks, name, true);
        set_before(&mut self.blocks, after, NONE);
        self.heads[class] = after;
        Some(name)
    }

    /// Makes a live block free, and puts it to the front of its class's list.
    pub(crate) fn push(&mut self, name: u64)
        requires { IsLive self.old name }
        ensures { Frees self.old self.new name }
    {
        let class = class_of(len(&self.blocks, name));
        let after = self.heads[class];
        link(&mut self.blocks, name, after, NONE);
        mark(&mut self.blocks, name, false);
        set_before(&mut self.blocks, after, name);
        self.heads[class] = name;
    }

    /// How many bytes a live block's payload has.
    pub(crate) fn len(&self, name: u64) -> u32
        requires { IsLive self.now name }
        ensures len { result ≡ length (named self.now name).payload }
        ensures some { name ≢ none }
        ensures long { 16 ≤ result }
    {
        len(&self.blocks, name)
    }

    /// So many bytes of a live block's payload.
    pub(crate) fn payload(&self, name: u64, from: u64, len: u64) -> &[u8]
        requires live { IsLive self.now name }
        requires inside { from + len ≤ length (named self.now name).payload }
        ensures { result.now ≡ take len (drop from (named self.now name).payload) }
    {
        payload(&self.blocks, name, from, len)
    }

    /// The link in a live block.
    pub(crate) fn next(&self, name: u64) -> u64
        requires { IsLive self.now name }
        ensures { result ≡ next_in (named self.now name).payload }
    {
        let _ = &self.heads;
        next(&self.blocks, name)
    }

    /// Puts these bytes over those of a live block's payload.
    pub(crate) fn write(&mut self, name: u64, to: u64, from: &[u8])
        requires live { IsLive self.old name }
        requires inside { to + length from.now ≤ length (named self.old name).payload }
        ensures { Writes self.old self.new name (written (named self.old name).payload to from.now) }
    {
        write(&mut self.blocks, name, to, from);
    }

    /// Adds a chunk, and answers its one block, which is live. More than 16 gibibytes are not held.
    pub(crate) fn grow(&mut self) -> Result<u64, AllocError>
        ensures ok { IfOk result (λ name. Grows self.old self.new name) }
        ensures err { OnErr result (self.new ≡ self.old) }
    {
        let _ = &self.heads;
        if self.blocks.held() > MOST - 4096 {
            return Err(AllocError);
        }
        let name = add(&mut self.blocks)?;
        mark(&mut self.blocks, name, true);
        Ok(name)
    }

    /// Cuts a live block into two live ones: so many bytes of payload stay with it. Answers the second.
    pub(crate) fn halve(&mut self, name: u64, len: u32) -> u64
        requires live { IsLive self.old name }
        requires least { 16 ≤ len }
        requires inside { len + 24 ≤ length (named self.old name).payload }
        ensures { Halves self.old self.new name result len }
    {
        let _ = &self.heads;
        let rest = split(&mut self.blocks, name, len);
        mark(&mut self.blocks, rest, true);
        rest
    }
}

/// The greatest class that a payload of so many bytes holds.
#[tactic(auto, unfolding(crate::specs::Free::class_of))]
fn class_of(len: u32) -> usize
    ensures { result ≡ class_of len }
{
    if len < 32 {
        return 0;
    }
    if len < 64 {
        return 1;
    }
    if len < 128 {
        return 2;
    }
    if len < 256 {
        return 3;
    }
    if len < 512 {
        return 4;
    }
    if len < 1024 {
        return 5;
    }
    if len < 2048 { 6 } else { 7 }
}
