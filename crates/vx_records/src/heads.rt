//! The head of a record: its flags, and the link to the next.
ghost use Rattle.std.specs.Prelude.{◌≡◌, ◌+◌, ◌/◌, ◌%◌, ◌^◌, ◌<◌, ◌≤◌, ◌==◌, ◌++◌, IfOk, IfSome, OnErr, length};
ghost use Rattle.std.specs.Int.{w32, to_le_bytes};
ghost use Rattle.vx_records.specs.Frame.{frame_at, with_bytes, with_frame, and_frame};
ghost use Rattle.vx_records.specs.Head.{link_in, flags_in, head_of, number_of, link_of};

use crate::frames::Frames;
use std::alloc::AllocError;

/// How many bytes a head has.
pub(crate) const HEAD: u32 = 8;

/// Where the flags stand in a head.
const FLAGS: u32 = 4;

/// The flags of a free number.
const FREE: u32 = 0;

/// The flags of a record.
const LIVE: u32 = 1;

/// The flags of a record that is matched.
const MATCHED: u32 = 3;

/// The number that a link spells.
#[inline]
pub(crate) fn number_of(link: u32) -> Option<u32>
    ensures is { result ≡ number_of link }
    ensures fits { IfSome result (λ number. number + 1 < 2 ^ 32) }
{
    if link == 0 {
        return None;
    }
    Some(link - 1)
}

/// How a link spells a number.
#[inline]
pub(crate) fn link_of(number: Option<u32>) -> u32
    requires { IfSome number (λ number. number + 1 < 2 ^ 32) }
    ensures { result ≡ link_of number }
{
    match number {
        None => 0,
        Some(number) => number + 1,
    }
}

/// Whether these flags are of a record.
#[inline]
pub(crate) fn is_live(flags: u32) -> bool
    ensures { result ≡ (flags % 2 == 1) }
{
    flags % 2 == 1
}

/// Whether these flags are of a record that is matched.
#[inline]
pub(crate) fn is_matched(flags: u32) -> bool
    ensures { result ≡ (flags / 2 % 2 == 1) }
{
    flags / 2 % 2 == 1
}

/// The link in a head.
#[inline]
#[tactic(auto, unfolding(crate::specs::Head::link_in))]
pub(crate) fn link(frames: &Frames, number: u32) -> u32
    requires there { number < length frames.now.frames }
    requires long { 8 ≤ frames.now.size }
    ensures { result ≡ link_in (frame_at frames.now number) }
{
    let bytes = frames.bytes(number, 0, 4);
    u32::from_le_bytes([bytes[0], bytes[1], bytes[2], bytes[3]])
}

/// The flags in a head.
#[inline]
#[tactic(auto, unfolding(crate::specs::Head::flags_in))]
pub(crate) fn flags(frames: &Frames, number: u32) -> u32
    requires there { number < length frames.now.frames }
    requires long { 8 ≤ frames.now.size }
    ensures { result ≡ flags_in (frame_at frames.now number) }
{
    let bytes = frames.bytes(number, FLAGS, 4);
    u32::from_le_bytes([bytes[0], bytes[1], bytes[2], bytes[3]])
}

/// Sets the mark of a record.
#[inline]
pub(crate) fn mark(frames: &mut Frames, number: u32)
    requires there { number < length frames.old.frames }
    requires long { 8 ≤ frames.old.size }
    ensures { frames.new ≡ with_bytes frames.old number 4 (to_le_bytes w32 3) }
{
    frames.put(number, FLAGS, &MATCHED.to_le_bytes());
}

/// Makes a number free, with this link.
pub(crate) fn release(frames: &mut Frames, number: u32, link: u32)
    requires there { number < length frames.old.frames }
    requires long { 8 ≤ frames.old.size }
    ensures { frames.new ≡ with_bytes frames.old number 0 (head_of link 0) }
{
    frames.put(number, 0, &head(link, FREE));
}

/// Writes a new record with these bytes.
#[inline]
pub(crate) fn fill(frames: &mut Frames, number: u32, body: &[u8])
    requires there { number < length frames.old.frames }
    requires long { length (frame_at frames.old number) ≡ frames.old.size }
    requires all { 8 + length body.now ≡ frames.old.size }
    ensures { frames.new ≡ with_frame frames.old number (head_of 0 1 ++ body.now) }
{
    frames.put(number, 0, &head(0, LIVE));
    frames.put(number, HEAD, body);
}

/// Adds a new record with these bytes, and answers its number.
pub(crate) fn push(frames: &mut Frames, body: &[u8]) -> Result<u32, AllocError>
    requires { 8 + length body.now ≡ frames.old.size }
    ensures number { IfOk result (λ number. number ≡ length frames.old.frames) }
    ensures few { IfOk result (λ number. number < 2 ^ 31) }
    ensures ok { IfOk result (λ _. frames.new ≡ and_frame frames.old (head_of 0 1 ++ body.now)) }
    ensures err { OnErr result (frames.new ≡ frames.old) }
{
    let number = frames.add()?;
    fill(frames, number, body);
    Ok(number)
}

/// A head with this link and these flags.
#[inline]
#[tactic(auto, unfolding(crate::specs::Head::head_of))]
fn head(link: u32, flags: u32) -> [u8; 8]
    ensures { result ≡ head_of link flags }
{
    let (a, b) = (link.to_le_bytes(), flags.to_le_bytes());
    [a[0], a[1], a[2], a[3], b[0], b[1], b[2], b[3]]
}
