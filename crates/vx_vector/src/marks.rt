//! Kernels that rewrite marks, sixteen at a time; what is left over goes one by one.
ghost use Rattle.std.specs.Prelude.{◌≡◌, ℕ, ◌≤◌, ◌++◌, length, take, drop, map};
ghost use Rattle.vx_vector.specs.Lane.{settled_mark};
ghost use Rattle.vx_vector.specs.Marks.{inverted_mark, strict_mark, strict_marks};

use crate::lanes::{FINE, FIRST_FAULT, NULL};
use std::simd::prelude::*;

/// How many marks are worked on at once.
pub(crate) const LANES: usize = 16;

/// The mark of a null for each mark but that of a fine row.
#[inline(always)]
pub(crate) fn settled(mark: u8) -> u8
    ensures { result ≡ settled_mark mark }
{
    u8::from(mark != FINE)
}

/// Turns each mark but that of a fine row into that of a null.
pub fn settle_marks(marks: &mut [u8])
    ensures { marks.new ≡ map settled_mark marks.old }
{
    rewrite_all::<Settle>(marks);
}

/// Turns each mark of a fine row into that of a null, and each other mark into that of a fine row.
pub fn invert_marks(marks: &mut [u8])
    ensures { marks.new ≡ map inverted_mark marks.old }
{
    rewrite_all::<Invert>(marks);
}

/// Turns the left marks into those of a function of two arguments that is null where one of them is.
pub fn combine_marks(left: &mut [u8], right: &[u8])
    requires { length right.now ≡ length left.old }
    ensures { left.new ≡ strict_marks left.old right.now }
{
    let done = combine_in_lanes(left, right);
    combine_one_by_one(&mut left[done..], &right[done..]);
}

/// What each mark becomes.
trait Rewrite {
    ghost becomes: { ℕ → ℕ };

    fn one(mark: u8) -> u8
        ensures { result ≡ becomes mark };

    fn lanes(marks: u8x16) -> u8x16
        requires { length marks ≡ 16 }
        ensures { result ≡ map becomes marks };
}

struct Settle;

impl Rewrite for Settle {
    ghost becomes = { settled_mark };

    #[inline(always)]
    fn one(mark: u8) -> u8 {
        settled(mark)
    }

    #[inline(always)]
    fn lanes(marks: u8x16) -> u8x16 {
        marks
            .simd_eq(u8x16::splat(FINE))
            .select(u8x16::splat(FINE), u8x16::splat(NULL))
    }
}

struct Invert;

impl Rewrite for Invert {
    ghost becomes = { inverted_mark };

    #[inline(always)]
    fn one(mark: u8) -> u8 {
        u8::from(mark == FINE)
    }

    #[inline(always)]
    fn lanes(marks: u8x16) -> u8x16 {
        marks
            .simd_eq(u8x16::splat(FINE))
            .select(u8x16::splat(NULL), u8x16::splat(FINE))
    }
}

fn rewrite_all<R: Rewrite>(marks: &mut [u8])
    ensures { marks.new ≡ map R.becomes marks.old }
{
    let done = rewrite_in_lanes::<R>(marks);
    rewrite_one_by_one::<R>(&mut marks[done..]);
}

/// Rewrites as many marks as fill whole lanes, and tells how many they are.
fn rewrite_in_lanes<R: Rewrite>(marks: &mut [u8]) -> usize
    ensures within { result ≤ length marks.old }
    ensures marks { marks.new ≡ map R.becomes (take result marks.old) ++ drop result marks.old }
{
    let mut at = 0;
    while marks.len() - at >= LANES {
        let lanes = R::lanes(u8x16::from_slice(&marks[at..]));
        lanes.copy_to_slice(&mut marks[at..]);
        at += LANES;
    }
    at
}

fn rewrite_one_by_one<R: Rewrite>(marks: &mut [u8])
    ensures { marks.new ≡ map R.becomes marks.old }
{
    for mark in marks.iter_mut() {
        *mark = R::one(*mark);
    }
}

#[inline(always)]
fn combined(left: u8, right: u8) -> u8
    ensures { result ≡ strict_mark left right }
{
    if left >= FIRST_FAULT || right <= left {
        left
    } else {
        right
    }
}

#[inline(always)]
fn combined_lanes(left: u8x16, right: u8x16) -> u8x16
    requires { (length left ≡ 16) × (length right ≡ 16) }
    ensures { result ≡ strict_marks left right }
{
    let greater = right.simd_le(left).select(left, right);
    left.simd_ge(u8x16::splat(FIRST_FAULT))
        .select(left, greater)
}

/// Combines as many marks as fill whole lanes, and tells how many they are.
fn combine_in_lanes(left: &mut [u8], right: &[u8]) -> usize
    requires { length right.now ≡ length left.old }
    ensures within { result ≤ length left.old }
    ensures marks { left.new ≡ strict_marks (take result left.old) (take result right.now) ++ drop result left.old }
{
    let mut at = 0;
    while left.len() - at >= LANES {
        let lanes = combined_lanes(
            u8x16::from_slice(&left[at..]),
            u8x16::from_slice(&right[at..]),
        );
        lanes.copy_to_slice(&mut left[at..]);
        at += LANES;
    }
    at
}

fn combine_one_by_one(left: &mut [u8], right: &[u8])
    requires { length right.now ≡ length left.old }
    ensures { left.new ≡ strict_marks left.old right.now }
{
    for row in 0..left.len() {
        left[row] = combined(left[row], right[row]);
    }
}
