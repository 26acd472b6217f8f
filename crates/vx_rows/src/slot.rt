//! The bytes of a field's slot.
ghost use Rattle.std.specs.Prelude.{◌≡◌, ◌^◌, ◌<◌, ◌≤◌, ◌==◌, length};
ghost use Rattle.vx_rows.specs.Slot.{bool_in, front_in, int_in, len_in, place_in_slot, short_in, spelled_bool, spelled_int, spelled_long, spelled_short};

use crate::write::write;
use vx_raw::Place;

/// The bytes of a bool's slot.
#[tactic(auto, unfolding(crate::specs::Slot::spelled_bool))]
pub(crate) fn bool_slot(value: bool) -> [u8; 8]
    ensures { result ≡ spelled_bool value }
{
    u64::from(value).to_le_bytes()
}

/// The bytes of an int's slot.
#[tactic(auto, unfolding(crate::specs::Slot::spelled_int))]
pub(crate) fn int_slot(value: i64) -> [u8; 8]
    ensures { result ≡ spelled_int value }
{
    value.to_le_bytes()
}

/// The bytes of the slot of a text of at most 12 bytes: its length, itself, and zeros.
pub(crate) fn short_slot(text: &[u8]) -> [u8; 16]
    requires { length text.now ≤ 12 }
    ensures { result ≡ spelled_short text.now }
{
    let mut slot = [0u8; 16];
    write(&mut slot, 0, &(text.len() as u32).to_le_bytes());
    write(&mut slot, 4, text);
    slot
}

/// The bytes of the slot of a text of more than 12 bytes: its length, its first 4 bytes and its place.
#[tactic(auto, unfolding(crate::specs::Slot::spelled_long), using(crate::proofs::SlotLemmas::four))]
pub(crate) fn long_slot(len: u32, front: &[u8], place: Place) -> [u8; 16]
    requires front { length front.now ≡ 4 }
    requires near { place.at < 2 ^ 32 }
    ensures { result ≡ spelled_long len front.now place }
{
    let (count, chunk) = (len.to_le_bytes(), place.chunk.to_le_bytes());
    let at = (place.at as u32).to_le_bytes();
    [
        count[0], count[1], count[2], count[3], front[0], front[1], front[2], front[3], chunk[0],
        chunk[1], chunk[2], chunk[3], at[0], at[1], at[2], at[3],
    ]
}

/// The bool in a slot.
#[tactic(auto, unfolding(crate::specs::Slot::bool_in))]
pub(crate) fn bool_of(slot: &[u8]) -> bool
    requires { 8 ≤ length slot.now }
    ensures { result ≡ bool_in slot.now }
{
    slot[0] == 1
}

/// The int in a slot.
#[tactic(auto, unfolding(crate::specs::Slot::int_in))]
pub(crate) fn int_of(slot: &[u8]) -> i64
    requires { 8 ≤ length slot.now }
    ensures { result ≡ int_in slot.now }
{
    i64::from_le_bytes([
        slot[0], slot[1], slot[2], slot[3], slot[4], slot[5], slot[6], slot[7],
    ])
}

/// How many bytes the text of a slot has.
#[tactic(auto, unfolding(crate::specs::Slot::len_in))]
pub(crate) fn len_of(slot: &[u8]) -> u32
    requires { 16 ≤ length slot.now }
    ensures { result ≡ len_in slot.now }
{
    u32::from_le_bytes([slot[0], slot[1], slot[2], slot[3]])
}

/// The text in a slot, of at most 12 bytes.
pub(crate) fn short_of(slot: &[u8]) -> &[u8]
    requires slot { 16 ≤ length slot.now }
    requires short { len_in slot.now ≤ 12 }
    ensures { result.now ≡ short_in slot.now }
{
    let len = len_of(slot) as usize;
    &slot[4..4 + len]
}

/// The first 4 bytes of a longer text.
pub(crate) fn front_of(slot: &[u8]) -> &[u8]
    requires { 16 ≤ length slot.now }
    ensures { result.now ≡ front_in slot.now }
{
    &slot[4..8]
}

/// Where a longer text stands.
#[tactic(auto, unfolding(crate::specs::Slot::place_in_slot))]
pub(crate) fn place_of(slot: &[u8]) -> Place
    requires { 16 ≤ length slot.now }
    ensures is { result ≡ place_in_slot slot.now }
    ensures near { result.at < 2 ^ 32 }
{
    Place {
        chunk: u32::from_le_bytes([slot[8], slot[9], slot[10], slot[11]]),
        at: u64::from(u32::from_le_bytes([slot[12], slot[13], slot[14], slot[15]])),
    }
}
