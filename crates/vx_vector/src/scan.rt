//! Kernels that read marks, sixteen at a time; what is left over goes one by one.
ghost use Rattle.std.specs.Prelude.{◌≡◌, ◌≤◌, length, take, count_by, nat_le, nat_eq, false};
ghost use Rattle.std.specs.List.{list_all, list_any};
ghost use Rattle.vx_vector.specs.Marks.{is_fine, is_fault};

use crate::lanes::{FIRST_FAULT, NULL};
use crate::marks::LANES;
use std::simd::prelude::*;

/// Whether each row is fine.
pub fn are_fine(marks: &[u8]) -> bool
    ensures { result ≡ list_all is_fine marks.now }
{
    !reach(marks, NULL)
}

/// Whether a row has a mark that is neither that of a fine row nor that of a null.
pub fn has_fault(marks: &[u8]) -> bool
    ensures { result ≡ list_any is_fault marks.now }
{
    reach(marks, FIRST_FAULT)
}

/// How many rows have this mark.
pub fn count_mark(marks: &[u8], mark: u8) -> usize
    ensures { result ≡ count_by (λ m. nat_eq m mark) marks.now }
{
    let (done, count) = count_in_lanes(marks, mark);
    count + count_one_by_one(&marks[done..], mark)
}

/// Whether a mark is no less than the least one.
fn reach(marks: &[u8], least: u8) -> bool
    ensures { result ≡ list_any (nat_le least) marks.now }
{
    let done = less_in_lanes(marks, least);
    reach_one_by_one(&marks[done..], least)
}

/// How many marks are less than the least one, as far as whole lanes are.
fn less_in_lanes(marks: &[u8], least: u8) -> usize
    ensures within { result ≤ length marks.now }
    ensures less { list_any (nat_le least) (take result marks.now) ≡ false }
{
    let mut at = 0;
    while marks.len() - at >= LANES {
        if lanes_reach(u8x16::from_slice(&marks[at..]), least) {
            return at;
        }
        at += LANES;
    }
    at
}

#[inline(always)]
fn lanes_reach(marks: u8x16, least: u8) -> bool
    requires { length marks ≡ 16 }
    ensures { result ≡ list_any (nat_le least) marks }
{
    marks.simd_ge(u8x16::splat(least)).to_bitmask() != 0
}

fn reach_one_by_one(marks: &[u8], least: u8) -> bool
    ensures { result ≡ list_any (nat_le least) marks.now }
{
    for mark in marks {
        if *mark >= least {
            return true;
        }
    }
    false
}

/// How many marks fill whole lanes, and how many of these are this mark.
fn count_in_lanes(marks: &[u8], mark: u8) -> (usize, usize)
    ensures within { result.0 ≤ length marks.now }
    ensures count { result.1 ≡ count_by (λ m. nat_eq m mark) (take result.0 marks.now) }
{
    let mut at = 0;
    let mut count = 0;
    while marks.len() - at >= LANES {
        count += count_lanes(u8x16::from_slice(&marks[at..]), mark);
        at += LANES;
    }
    (at, count)
}

#[inline(always)]
fn count_lanes(marks: u8x16, mark: u8) -> usize
    requires { length marks ≡ 16 }
    ensures { result ≡ count_by (λ m. nat_eq m mark) marks }
{
    marks.simd_eq(u8x16::splat(mark)).to_bitmask().count_ones() as usize
}

fn count_one_by_one(marks: &[u8], mark: u8) -> usize
    ensures { result ≡ count_by (λ m. nat_eq m mark) marks.now }
{
    marks.iter().filter(|m| **m == mark).count()
}
