//! The links inside blocks, by the names that blocks have.
ghost use Rattle.std.specs.Prelude.{◌≡◌, ◌≢◌, ◌+◌, ◌^◌, ◌<◌, ◌≤◌, None, IfOk, OnErr, length, take, drop};
ghost use Rattle.vx_raw.specs.Region.{written};
ghost use Rattle.vx_arena.specs.Chunks.{IsBlock, block_at, held_by};
ghost use Rattle.vx_arena.specs.Names.{name_of, place_of, none, block_of, named, IsNamed, Changes};
ghost use Rattle.vx_arena.specs.Free.{next_in, with_links, SetsBefore, Splits, Adds};

use crate::blocks::Blocks;
use crate::words::pair;
use std::alloc::AllocError;
use vx_raw::Place;

/// The name that no block has.
pub(crate) const NONE: u64 = u64::MAX;

/// The place of a block of this name.
pub(crate) fn place(name: u64) -> Place
    ensures is { result ≡ place_of name }
    ensures near { result.at < 2 ^ 32 }
{
    Place {
        chunk: (name % 4_294_967_296) as u32,
        at: name / 4_294_967_296,
    }
}

/// The name of a block at this place.
pub(crate) fn name(at: Place) -> u64
    requires { at.at < 2 ^ 32 }
    ensures { result ≡ name_of at }
{
    u64::from(at.chunk) + at.at * 4_294_967_296
}

/// How many bytes a block's payload has.
pub(crate) fn len(blocks: &Blocks, name: u64) -> u32
    requires { IsNamed blocks.now name }
    ensures { result ≡ length (named blocks.now name).payload }
{
    blocks.len(place(name))
}

/// The first link of a block.
pub(crate) fn next(blocks: &Blocks, name: u64) -> u64
    requires there { IsNamed blocks.now name }
    requires long { 8 ≤ length (named blocks.now name).payload }
    ensures { result ≡ next_in (named blocks.now name).payload }
{
    next_at(blocks, place(name))
}

#[tactic(auto, unfolding(crate::specs::Free::next_in))]
fn next_at(blocks: &Blocks, at: Place) -> u64
    requires there { IsBlock blocks.now at }
    requires long { 8 ≤ length (block_at blocks.now at).payload }
    ensures { result ≡ next_in (block_at blocks.now at).payload }
{
    let bytes = blocks.payload(at, 0, 8);
    u64::from_le_bytes([
        bytes[0], bytes[1], bytes[2], bytes[3], bytes[4], bytes[5], bytes[6], bytes[7],
    ])
}

/// Lends so many bytes of a block's payload.
pub(crate) fn payload(blocks: &Blocks, name: u64, from: u64, len: u64) -> &[u8]
    requires there { IsNamed blocks.now name }
    requires inside { from + len ≤ length (named blocks.now name).payload }
    ensures { result.now ≡ take len (drop from (named blocks.now name).payload) }
{
    blocks.payload(place(name), from, len)
}

/// Writes these bytes over those of a block's payload.
pub(crate) fn write(blocks: &mut Blocks, name: u64, to: u64, from: &[u8])
    requires there { IsNamed blocks.old name }
    requires inside { to + length from.now ≤ length (named blocks.old name).payload }
    ensures { Changes blocks.old blocks.new name (record (named blocks.old name) { payload = written (named blocks.old name).payload to from.now }) }
{
    blocks.write(place(name), to, from);
}

/// Adds a chunk of one free block, and answers its name.
pub(crate) fn add(blocks: &mut Blocks) -> Result<u64, AllocError>
    requires number { length blocks.old < 2 ^ 32 }
    requires room { held_by blocks.old + 4096 ≤ 2 ^ 34 }
    ensures ok { IfOk result (λ name. Adds blocks.old blocks.new name) }
    ensures err { OnErr result (blocks.new ≡ blocks.old) }
{
    let chunk = blocks.add()?;
    Ok(u64::from(chunk))
}

/// Cuts a block in two, and answers the name of the second, which is free.
pub(crate) fn split(blocks: &mut Blocks, name: u64, len: u32) -> u64
    requires there { IsNamed blocks.old name }
    requires inside { len + 8 ≤ length (named blocks.old name).payload }
    ensures { Splits blocks.old blocks.new name result len }
{
    let at = place(name);
    blocks.split(at, len);
    self::name(Place {
        chunk: at.chunk,
        at: at.at + (8 + u64::from(len)),
    })
}

/// Makes a block live or free.
pub(crate) fn mark(blocks: &mut Blocks, name: u64, live: bool)
    requires { IsNamed blocks.old name }
    ensures { Changes blocks.old blocks.new name (record (named blocks.old name) { live = live }) }
{
    blocks.set_live(place(name), live);
}

/// Writes both links of a block.
pub(crate) fn link(blocks: &mut Blocks, name: u64, next: u64, before: u64)
    requires there { IsNamed blocks.old name }
    requires long { 16 ≤ length (named blocks.old name).payload }
    ensures { Changes blocks.old blocks.new name (record (named blocks.old name) { payload = with_links (named blocks.old name).payload next before }) }
{
    blocks.write(place(name), 0, &pair(next, before));
}

/// Writes the link to the block before, where there is a block of this name.
pub(crate) fn set_before(blocks: &mut Blocks, name: u64, before: u64)
    requires there { name ≢ none → IsNamed blocks.old name }
    requires long { name ≢ none → 16 ≤ length (named blocks.old name).payload }
    requires none_is { block_of blocks.old none ≡ None }
    ensures sets { SetsBefore blocks.old blocks.new name before }
    ensures fits { name < 2 ^ 64 }
{
    if name == NONE {
        return;
    }
    blocks.write(place(name), 8, &before.to_le_bytes());
}
