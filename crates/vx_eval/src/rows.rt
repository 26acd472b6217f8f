//! The loops that carry a function of one row over whole buffers.
ghost use Rattle.std.specs.Prelude.{◌≡◌, ℕ, ◌<◌, length, get_or, IfOk};

use crate::leaf::filled;
use std::alloc::{AllocError, Global};

/// A function of one row of a buffer: what stands there and its mark give what the result has.
pub(crate) trait One<T, R> {
    ghost Gives: { T → ℕ → R → ℕ → Type 0 };

    fn at(x: T, mark: u8) -> (R, u8)
        ensures { Gives x mark result.0 result.1 };
}

/// A function of one row of two buffers.
pub(crate) trait Two<T, U, R> {
    ghost Gives: { T → ℕ → U → ℕ → R → ℕ → Type 0 };

    fn at(x: T, left: u8, y: U, right: u8) -> (R, u8)
        ensures { Gives x left y right result.0 result.1 };
}

/// The function on each row.
pub(crate) fn each_one<T: Copy, R: Copy, O: One<T, R>>(
    alloc: Global,
    blank: R,
    xs: &[T],
    marks: &[u8],
) -> Result<(Vec<R>, Vec<u8>), AllocError>
    requires { length xs.now ≡ length marks.now }
    ensures values { IfOk result (λ r. length r.0.items ≡ length marks.now) }
    ensures marks { IfOk result (λ r. length r.1.items ≡ length marks.now) }
    ensures each { IfOk result (λ r. (k : ℕ) (x : T) (v : R) → k < length marks.now → O.Gives (get_or xs.now k x) (get_or marks.now k 1) (get_or r.0.items k v) (get_or r.1.items k 1)) }
{
    let rows = marks.len();
    let mut values = filled(alloc, blank, rows)?;
    let mut given = filled(alloc, 0, rows)?;
    for row in 0..rows {
        let (value, mark) = O::at(xs[row], marks[row]);
        values[row] = value;
        given[row] = mark;
    }
    Ok((values, given))
}

/// The function on each row.
pub(crate) fn each_two<T: Copy, U: Copy, R: Copy, O: Two<T, U, R>>(
    alloc: Global,
    blank: R,
    xs: &[T],
    left: &[u8],
    ys: &[U],
    right: &[u8],
) -> Result<(Vec<R>, Vec<u8>), AllocError>
    requires xs { length xs.now ≡ length left.now }
    requires ys { length ys.now ≡ length left.now }
    requires right { length right.now ≡ length left.now }
    ensures values { IfOk result (λ r. length r.0.items ≡ length left.now) }
    ensures marks { IfOk result (λ r. length r.1.items ≡ length left.now) }
    ensures each { IfOk result (λ r. (k : ℕ) (x : T) (y : U) (v : R) → k < length left.now → O.Gives (get_or xs.now k x) (get_or left.now k 1) (get_or ys.now k y) (get_or right.now k 1) (get_or r.0.items k v) (get_or r.1.items k 1)) }
{
    let rows = left.len();
    let mut values = filled(alloc, blank, rows)?;
    let mut marks = filled(alloc, 0, rows)?;
    for row in 0..rows {
        let (value, mark) = O::at(xs[row], left[row], ys[row], right[row]);
        values[row] = value;
        marks[row] = mark;
    }
    Ok((values, marks))
}

/// A function of one row of three buffers.
pub(crate) trait Three<S, T, U, R> {
    ghost Gives: { S → ℕ → T → ℕ → U → ℕ → R → ℕ → Type 0 };

    fn at(c: S, first: u8, x: T, left: u8, y: U, right: u8) -> (R, u8)
        ensures { Gives c first x left y right result.0 result.1 };
}

/// Values with a mark each.
#[derive(Clone, Copy)]
pub(crate) struct Marked<'a, T> {
    pub(crate) values: &'a [T],
    pub(crate) marks: &'a [u8],
}

/// The function on each row.
pub(crate) fn each_three<S: Copy, T: Copy, U: Copy, R: Copy, O: Three<S, T, U, R>>(
    alloc: Global,
    blank: R,
    c: Marked<'_, S>,
    a: Marked<'_, T>,
    b: Marked<'_, U>,
) -> Result<(Vec<R>, Vec<u8>), AllocError>
    requires c { length c.values.now ≡ length c.marks.now }
    requires a { length a.values.now ≡ length c.marks.now }
    requires left { length a.marks.now ≡ length c.marks.now }
    requires b { length b.values.now ≡ length c.marks.now }
    requires right { length b.marks.now ≡ length c.marks.now }
    ensures values { IfOk result (λ r. length r.0.items ≡ length c.entry.marks.now) }
    ensures marks { IfOk result (λ r. length r.1.items ≡ length c.entry.marks.now) }
    ensures each { IfOk result (λ r. (k : ℕ) (w : S) (x : T) (y : U) (v : R) → k < length c.entry.marks.now → O.Gives (get_or c.entry.values.now k w) (get_or c.entry.marks.now k 1) (get_or a.entry.values.now k x) (get_or a.entry.marks.now k 1) (get_or b.entry.values.now k y) (get_or b.entry.marks.now k 1) (get_or r.0.items k v) (get_or r.1.items k 1)) }
{
    let rows = c.marks.len();
    let mut values = filled(alloc, blank, rows)?;
    let mut marks = filled(alloc, 0, rows)?;
    for row in 0..rows {
        let (value, mark) = O::at(
            c.values[row],
            c.marks[row],
            a.values[row],
            a.marks[row],
            b.values[row],
            b.marks[row],
        );
        values[row] = value;
        marks[row] = mark;
    }
    Ok((values, marks))
}
