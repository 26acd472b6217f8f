//! How one part of a text is taken: from a free block, or from a new chunk, and trimmed.
ghost use Rattle.std.specs.Prelude.{◌≡◌, ◌<◌, ◌≤◌, IfOk, OnErr, MatchOption, length};
ghost use Rattle.vx_arena.specs.Names.{named};
ghost use Rattle.vx_arena.specs.Free.{class_len, IsLive, Gives};
ghost use Rattle.vx_arena.specs.Part.{class_for, Lacks, Obtains, Trims, Takes};

use crate::free::FreeBlocks;
use std::alloc::AllocError;

/// The least class that holds so many bytes.
#[tactic(auto, unfolding(crate::specs::Part::class_for))]
pub(crate) fn class_for(bytes: u64) -> usize
    ensures { result ≡ class_for bytes }
{
    if bytes <= 16 {
        return 0;
    }
    if bytes <= 32 {
        return 1;
    }
    if bytes <= 64 {
        return 2;
    }
    if bytes <= 128 {
        return 3;
    }
    if bytes <= 256 {
        return 4;
    }
    if bytes <= 512 {
        return 5;
    }
    if bytes <= 1024 { 6 } else { 7 }
}

/// How long the payloads of a class are.
#[tactic(auto, unfolding(crate::specs::Free::class_len))]
fn class_len(class: usize) -> u32
    requires { class < 8 }
    ensures { result ≡ class_len class }
{
    [16, 32, 64, 128, 256, 512, 1024, 2048][class]
}

/// Makes a free block live that holds a class: the first of the least class that has one.
fn find(blocks: &mut FreeBlocks, class: usize) -> Option<u64>
    requires { class < 8 }
    ensures { MatchOption result (Lacks class blocks.old blocks.new) (Gives class blocks.old blocks.new) }
{
    for i in class..8 {
        if let Some(name) = blocks.pop(i) {
            return Some(name);
        }
    }
    None
}

/// Makes a block live that holds a class, of a new chunk where no free block does.
fn obtain(blocks: &mut FreeBlocks, class: usize) -> Result<u64, AllocError>
    requires { class < 8 }
    ensures ok { IfOk result (λ name. Obtains class blocks.old blocks.new name) }
    ensures err { OnErr result (blocks.new ≡ blocks.old) }
{
    if let Some(name) = find(blocks, class) {
        return Ok(name);
    }
    let name = blocks.grow()?;
    Ok(name)
}

/// Makes what lies behind so many bytes of a live block a free one, where there is room for a block.
fn trim(blocks: &mut FreeBlocks, name: u64, len: u32)
    requires live { IsLive blocks.old name }
    requires least { 16 ≤ len }
    requires most { len ≤ 2048 }
    requires inside { len ≤ length (named blocks.old name).payload }
    ensures { Trims blocks.old blocks.new name len }
{
    if blocks.len(name) >= len + 24 {
        let rest = blocks.halve(name, len);
        blocks.push(rest);
    }
}

/// Takes a block that holds a class.
pub(crate) fn take(blocks: &mut FreeBlocks, class: usize) -> Result<u64, AllocError>
    requires { class < 8 }
    ensures ok { IfOk result (λ name. Takes class blocks.old blocks.new name) }
    ensures err { OnErr result (blocks.new ≡ blocks.old) }
{
    let name = obtain(blocks, class)?;
    trim(blocks, name, class_len(class));
    Ok(name)
}
