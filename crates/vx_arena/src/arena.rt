//! Texts in counted memory: taken, read, compared and given back.
ghost use Rattle.std.specs.Prelude.{◌≡◌, ◌≢◌, ◌+◌, ◌*◌, ◌^◌, ◌<◌, ◌≤◌, ◌↔◌, [], ◌++◌, IfOk, IfErr, OnErr, IsTrue, length, take, drop};
ghost use Rattle.vx_arena.specs.Chunks.{held_by};
ghost use Rattle.vx_arena.specs.Names.{name_of, none, lives};
ghost use Rattle.vx_arena.specs.Text.{blocks_of, bytes_at, bytes_from, text_at, count_at, more, next_at, part_at, HasText, IsNew, IsText, KeepsOthers, KeepsTexts, Reads, StandsLive, IsUnnamed, CanFollow, AddsPart, GivesPart, HasChain, GivesAll, TakesText, TakesNothing};

use crate::free::FreeBlocks;
use crate::links::{NONE, name, place};
use crate::part::{class_for, take};
use std::alloc::{AllocError, Global};
use std::marker::Model;
use vx_raw::Place;

/// How many bytes of a text a block holds.
const PART: usize = 2040;

/// How many blocks a text has at most.
const BLOCKS: u32 = 33;

/// Texts in counted memory, each a chain of blocks.
#[derive(Drop)]
pub struct Arena {
    blocks: FreeBlocks,
    taken: u64,
    given: u64,
}

impl Model for Arena {
    ghost use Rattle.vx_arena.specs.Text.{ArenaModel, IsArena};

    ghost Value = { ArenaModel };

    ghost view = { λ a. record { chunks = a.blocks; taken = a.taken; given = a.given } };

    ghost invariant = { λ a. IsArena a.blocks a.taken a.given };
}

impl Arena {
    /// No texts, and no chunks.
    pub fn new(alloc: Global) -> Arena
        ensures { result ≡ record { chunks = []; taken = 0; given = 0 } }
    {
        Arena {
            blocks: FreeBlocks::new(alloc),
            taken: 0,
            given: 0,
        }
    }

    /// How many bytes its chunks have together, each 4,096.
    pub fn held(&self) -> u64
        ensures held { result ≡ held_by self.now.chunks }
        ensures whole { result ≡ 4096 * length self.now.chunks }
        ensures most { result ≤ 2 ^ 34 }
    {
        self.blocks.held()
    }

    /// How many blocks were taken, modulo 2^64: those that are live are as many more than those given back.
    pub fn taken(&self) -> u64
        ensures taken { result ≡ self.now.taken }
        ensures counted { result ≡ more self.now.given (lives self.now.chunks) }
    {
        self.taken
    }

    /// How many blocks were given back, modulo 2^64.
    pub fn given(&self) -> u64
        ensures { result ≡ self.now.given }
    {
        self.given
    }

    /// Stores a text of 13 to 65,535 bytes, and answers its place. Where memory is wanted, or 16 gibibytes would
    /// be passed, what was taken is given back.
    pub fn take_text(&mut self, text: &[u8]) -> Result<Place, AllocError>
        requires least { 13 ≤ length text.now }
        requires most { length text.now ≤ 65535 }
        ensures ok { IfOk result (λ place. TakesText self.old self.new (name_of place) text.now) }
        ensures fresh { IfOk result (λ place. IsNew self.old place) }
        ensures there { IfOk result (λ place. IsText self.new place) }
        ensures reads { IfOk result (λ place. Reads self.new place text.now) }
        ensures count { IfOk result (λ place. count_at self.new place ≡ blocks_of (length text.now)) }
        ensures err { OnErr result (TakesNothing self.old self.new text.now) }
        ensures keeps { KeepsTexts self.old self.new }
    {
        let first = self.store(text)?;
        Ok(place(first))
    }

    /// Gives the blocks of the text at this place back.
    pub fn give_text(&mut self, at: Place)
        requires { IsText self.old at }
        ensures gives { GivesAll self.old self.new (name_of at) }
        ensures given { self.new.given ≡ more self.old.given (count_at self.old at) }
        ensures keeps { KeepsOthers self.old self.new at }
    {
        let _ = &self.given;
        self.release(name(at));
    }

    /// Adds so many bytes of the chain at this place. A text's length is its owner's to keep: behind the text
    /// stands what fills the last block.
    pub fn read_text(&self, at: Place, len: u64, into: &mut Vec<u8>) -> Result<(), AllocError>
        requires { IsText self.now at }
        ensures ok { IfOk result (λ _. into.new.items ≡ into.old.items ++ take len (bytes_at self.now at)) }
        ensures err { OnErr result (into.new.items ≡ into.old.items) }
    {
        let start = into.len();
        match self.read_chain(name(at), len as usize, into) {
            Ok(()) => Ok(()),
            Err(error) => {
                into.truncate(start);
                Err(error)
            }
        }
    }

    /// Whether the text of so many bytes at this place is this one.
    pub fn equals(&self, at: Place, len: u64, text: &[u8]) -> bool
        requires { IsText self.now at }
        ensures { IsTrue result ↔ (text_at self.now at len ≡ text.now) }
    {
        self.chain_equals(name(at), len as usize, text)
    }

    /// Gives each live block back, and frees all chunks.
    pub fn clear(&mut self)
        ensures { self.new ≡ record { chunks = []; taken = self.old.taken; given = more self.old.given (lives self.old.chunks) } }
    {
        self.blocks.clear();
        self.given = self.taken;
    }

    /// Puts a block with this part before the chain that begins with the block `next`, and answers its name.
    fn add_part(&mut self, next: u64, part: &[u8]) -> Result<u64, AllocError>
        requires part { length part.now ≤ 2040 }
        requires next { CanFollow self.old.chunks next }
        ensures ok { IfOk result (λ name. AddsPart self.old self.new name next part.now) }
        ensures err { OnErr result (self.new ≡ self.old) }
    {
        let _ = &self.taken;
        let class = class_for(8 + part.len() as u64);
        let name = take(&mut self.blocks, class)?;
        self.blocks.write(name, 0, &next.to_le_bytes());
        self.blocks.write(name, 8, part);
        self.taken = self.taken.wrapping_add(1);
        Ok(name)
    }

    /// Gives a chain's first block back, and answers the name of the next.
    fn give_part(&mut self, name: u64) -> u64
        requires live { StandsLive self.old.chunks name }
        requires first { IsUnnamed self.old.chunks name }
        requires some { name ≢ none }
        ensures { GivesPart self.old self.new name result }
    {
        let next = self.blocks.next(name);
        self.blocks.push(name);
        self.given = self.given.wrapping_add(1);
        next
    }

    /// Gives each block of a chain back, from this one on.
    fn release(&mut self, name: u64)
        requires { HasChain self.old.chunks name }
        ensures { GivesAll self.old self.new name }
    {
        let _ = &self.given;
        if name == NONE {
            return;
        }
        let behind = self.give_part(name);
        self.release(behind);
    }

    /// Puts a text into blocks, its last part first, and answers the name of the first block. Where memory is
    /// wanted, what was taken is given back.
    fn store(&mut self, text: &[u8]) -> Result<u64, AllocError>
        ensures ok { IfOk result (λ first. TakesText self.old self.new first text.now) }
        ensures err { IfErr result (λ _. TakesNothing self.old self.new text.now) }
    {
        let _ = &self.given;
        if text.is_empty() {
            return Ok(NONE);
        }
        let count = text.len().min(PART);
        let next = self.store(&text[count..])?;
        match self.add_part(next, &text[..count]) {
            Ok(name) => Ok(name),
            Err(error) => {
                self.release(next);
                Err(error)
            }
        }
    }

    /// A live block's part of its text.
    fn part(&self, name: u64) -> &[u8]
        requires { StandsLive self.now.chunks name }
        ensures { result.now ≡ part_at self.now.chunks name }
    {
        let len = u64::from(self.blocks.len(name)) - 8;
        self.blocks.payload(name, 8, len.min(PART as u64))
    }

    /// The name of the block behind a live one.
    fn next(&self, name: u64) -> u64
        requires { StandsLive self.now.chunks name }
        ensures { result ≡ next_at self.now.chunks name }
    {
        self.blocks.next(name)
    }

    /// Adds so many bytes of the chain from this block on.
    fn read_chain(&self, first: u64, len: usize, into: &mut Vec<u8>) -> Result<(), AllocError>
        requires { HasText self.now.chunks first }
        ensures ok { IfOk result (λ _. into.new.items ≡ into.old.items ++ take len (bytes_from 33 self.now.chunks first)) }
        ensures err { OnErr result (take (length into.old.items) into.new.items ≡ into.old.items) }
    {
        let mut name = first;
        let mut due = len;
        for _block in 0..BLOCKS {
            if name == NONE {
                return Ok(());
            }
            let part = self.part(name);
            let count = part.len().min(due);
            into.extend_from_slice(&part[..count])?;
            due -= count;
            name = self.next(name);
        }
        Ok(())
    }

    /// Whether so many bytes of the chain from this block on are these.
    fn chain_equals(&self, first: u64, len: usize, text: &[u8]) -> bool
        requires { HasText self.now.chunks first }
        ensures { IsTrue result ↔ (take len (bytes_from 33 self.now.chunks first) ≡ text.now) }
    {
        let mut name = first;
        let mut due = len;
        let mut rest = text;
        for _block in 0..BLOCKS {
            if name == NONE {
                return rest.is_empty();
            }
            let part = self.part(name);
            let count = part.len().min(due);
            if count > rest.len() {
                return false;
            }
            if !same_front(part, rest, count) {
                return false;
            }
            due -= count;
            rest = behind(rest, count);
            name = self.next(name);
        }
        rest.is_empty()
    }
}

/// Whether these begin with the same so many bytes.
fn same_front(one: &[u8], other: &[u8], count: usize) -> bool
    requires first { count ≤ length one.now }
    requires second { count ≤ length other.now }
    ensures { IsTrue result ↔ (take count one.now ≡ take count other.now) }
{
    one[..count] == other[..count]
}

/// The bytes behind so many.
fn behind(bytes: &[u8], count: usize) -> &[u8]
    requires { count ≤ length bytes.now }
    ensures { result.now ≡ drop count bytes.now }
{
    &bytes[count..]
}
