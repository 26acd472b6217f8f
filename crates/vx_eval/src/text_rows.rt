//! `concat`, `if` and `coalesce` over texts, made only where they are wanted.
ghost use Rattle.std.specs.Prelude.{◌≡◌, ℕ, ◌<◌, [], ◌∷◌, ◌++◌, length, get_or, if◌then◌else◌, false, IfOk, OnOk};
ghost use Rattle.vx_eval.specs.TextRows.{blank_row, joined, joined_row, chosen_row, given_row};
ghost use Rattle.vx_value.specs.Value.{IsText};
ghost use Rattle.vx_vector.specs.Lane.{text_at, text_row};

use crate::marks::{TOO_LONG, strictest};
use std::alloc::{AllocError, Global};
use vx_vector::{Bools, FINE, NULL, Texts};

/// `concat` on each wanted row; on the others no text is made.
pub(crate) fn concatenations(
    alloc: Global,
    wanted: &[bool],
    a: &Texts,
    b: &Texts,
) -> Result<Texts, AllocError>
    requires wanted { length wanted.now ≡ length a.now }
    requires rows { length b.now ≡ length a.now }
    ensures rows { IfOk result (λ r. length r ≡ length a.now) }
    ensures each { IfOk result (λ r. (k : ℕ) → k < length a.now → text_at r k ≡ (if get_or wanted.now k false then joined_row (text_at a.now k) (text_at b.now k) else blank_row 1)) }
{
    let mut out = Texts::with_room_of(alloc, a, b)?;
    for row in 0..a.len() {
        if wanted[row] {
            push_joined_row(&mut out, a, b, row)?;
        } else {
            out.push(NULL, &[])?;
        }
    }
    Ok(out)
}

/// `if` on each row.
pub(crate) fn chosen_texts(
    alloc: Global,
    c: &Bools,
    a: &Texts,
    b: &Texts,
) -> Result<Texts, AllocError>
    requires left { length a.now ≡ length c.now.marks.items }
    requires right { length b.now ≡ length c.now.marks.items }
    ensures rows { IfOk result (λ r. length r ≡ length c.now.marks.items) }
    ensures each { IfOk result (λ r. (k : ℕ) → k < length c.now.marks.items → text_at r k ≡ chosen_row (get_or c.now.values.items k false) (get_or c.now.marks.items k 1) (text_at a.now k) (text_at b.now k)) }
{
    let mut out = Texts::with_room(alloc, c.marks.len(), 0)?;
    for row in 0..c.marks.len() {
        push_chosen(&mut out, c.values[row], c.marks[row], a, b, row)?;
    }
    Ok(out)
}

/// `coalesce` on each row.
pub(crate) fn given_texts(alloc: Global, a: &Texts, b: &Texts) -> Result<Texts, AllocError>
    requires { length b.now ≡ length a.now }
    ensures rows { IfOk result (λ r. length r ≡ length a.now) }
    ensures each { IfOk result (λ r. (k : ℕ) → k < length a.now → text_at r k ≡ given_row (text_at a.now k) (text_at b.now k)) }
{
    let mut out = Texts::with_room(alloc, a.len(), 0)?;
    for row in 0..a.len() {
        push_given(&mut out, a, b, row)?;
    }
    Ok(out)
}

/// Adds two rows as one.
fn push_joined_row(out: &mut Texts, a: &Texts, b: &Texts, row: usize) -> Result<(), AllocError>
    requires left { row < length a.now }
    requires right { row < length b.now }
    ensures { OnOk result (out.new ≡ out.old ++ joined_row (text_at a.now row) (text_at b.now row) ∷ []) }
{
    let mark = strictest(a.mark(row), b.mark(row));
    if mark == FINE {
        return push_joined(out, a.get(row), b.get(row));
    }
    out.push(mark, &[])
}

/// Adds two texts as one, or a text that is too long.
fn push_joined(out: &mut Texts, a: &[u8], b: &[u8]) -> Result<(), AllocError>
    requires left { IsText a.now }
    requires right { IsText b.now }
    ensures { OnOk result (out.new ≡ out.old ++ joined (text_row 0 a.now) (text_row 0 b.now) ∷ []) }
{
    if a.len() + b.len() > 65535 {
        return out.push(TOO_LONG, &[]);
    }
    out.push_joined(a, b)
}

fn push_chosen(
    out: &mut Texts,
    c: bool,
    mark: u8,
    a: &Texts,
    b: &Texts,
    row: usize,
) -> Result<(), AllocError>
    requires left { row < length a.now }
    requires right { row < length b.now }
    ensures { OnOk result (out.new ≡ out.old ++ chosen_row c mark (text_at a.now row) (text_at b.now row) ∷ []) }
{
    if c & (mark == FINE) {
        return out.push(a.mark(row), a.get(row));
    }
    if mark > NULL {
        return out.push(mark, &[]);
    }
    out.push(b.mark(row), b.get(row))
}

fn push_given(out: &mut Texts, a: &Texts, b: &Texts, row: usize) -> Result<(), AllocError>
    requires left { row < length a.now }
    requires right { row < length b.now }
    ensures { OnOk result (out.new ≡ out.old ++ given_row (text_at a.now row) (text_at b.now row) ∷ []) }
{
    if a.mark(row) == NULL {
        return out.push(b.mark(row), b.get(row));
    }
    out.push(a.mark(row), a.get(row))
}
