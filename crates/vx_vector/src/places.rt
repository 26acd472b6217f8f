//! A kernel that reads places, four at a time; what is left over goes one by one.
ghost use Rattle.std.specs.Prelude.{◌≡◌, ◌≤◌, ◌<◌, ◌+◌, ◌↔◌, ◌^◌, length, take, IsTrue};
ghost use Rattle.std.specs.List.{range_with_len};

use std::simd::prelude::*;

/// How many places are worked on at once.
const LANES: usize = 4;

/// The last place from which whole lanes of places are still numbers of 32 bits.
const LAST: u32 = u32::MAX - 4;

/// Whether each place is its own number.
pub fn are_first_places(places: &[u32]) -> bool
    ensures { IsTrue result ↔ (places.now ≡ range_with_len 0 (length places.now)) }
{
    let done = first_in_lanes(places);
    are_first_from(places, done as usize)
}

/// How many places are their own numbers, as far as whole lanes are.
fn first_in_lanes(places: &[u32]) -> u32
    ensures within { result ≤ length places.now }
    ensures first { take result places.now ≡ range_with_len 0 result }
{
    let mut at: u32 = 0;
    while at <= LAST && places.len() - at as usize >= LANES {
        if !are_lanes_from(u32x4::from_slice(&places[at as usize..]), at) {
            return at;
        }
        at += 4;
    }
    at
}

/// Whether the lanes count up from a number.
#[inline(always)]
fn are_lanes_from(lanes: u32x4, from: u32) -> bool
    requires lanes { length lanes ≡ 4 }
    requires from { from + 4 < 2 ^ 32 }
    ensures { IsTrue result → lanes ≡ range_with_len from 4 }
{
    let wanted = u32x4::from_array([from, from + 1, from + 2, from + 3]);
    lanes.simd_ne(wanted).to_bitmask() == 0
}

/// Whether each place is its own number, where those before `from` are.
fn are_first_from(places: &[u32], from: usize) -> bool
    requires within { from ≤ length places.now }
    requires first { take from places.now ≡ range_with_len 0 from }
    ensures { IsTrue result ↔ (places.now ≡ range_with_len 0 (length places.now)) }
{
    for row in from..places.len() {
        if places[row] as usize != row {
            return false;
        }
    }
    true
}
