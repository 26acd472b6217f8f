//! The rows of a page's bytes, or the first place at which they are no page.
ghost use Rattle.std.specs.Prelude.{◌≡◌, List, IfOk, Ok};
ghost use Rattle.std.specs.Str.{is_utf8};
ghost use Rattle.std.specs.Int.{w16, w32, w64, w128};
ghost use Rattle.vx_page.specs.Page.{Cells, IsPageOf};
ghost use Rattle.vx_page.specs.Reading as spec;
ghost use Rattle.vx_page.specs.Reading.{Gives, place, number_at, bool_at, text_at, content_at, value_at, wide_at, cell_at, body_cell_at, row_at, rows_at, rows_of};

use crate::cell::{Cell, PageRow, Slot};
use crate::error::PageError;
use std::alloc::Global;
use vx_value::{Kind, Txt, Value};

/// How many bytes there are, and the place where the body ends.
#[derive(Clone, Copy)]
struct Bounds {
    whole: u64,
    end: u64,
}

/// The place where these last bytes start.
#[inline(always)]
fn place_of(whole: u64, rest: &[u8]) -> u64
    ensures { result ≡ place whole rest.now }
{
    whole.saturating_sub(rest.len() as u64)
}

fn u16_of(whole: u64, bytes: &[u8]) -> Result<(u16, &[u8]), PageError>
    ensures { Gives (λ x. (x.0, x.1.now)) result (number_at w16 whole bytes.now) }
{
    if bytes.len() < 2 {
        return Err(PageError::Bad { at: whole });
    }
    let (front, rest) = bytes.split_at(2);
    Ok((u16::from_be_bytes([front[0], front[1]]), rest))
}

fn u32_of(whole: u64, bytes: &[u8]) -> Result<(u32, &[u8]), PageError>
    ensures { Gives (λ x. (x.0, x.1.now)) result (number_at w32 whole bytes.now) }
{
    if bytes.len() < 4 {
        return Err(PageError::Bad { at: whole });
    }
    let (front, rest) = bytes.split_at(4);
    let number = u32::from_be_bytes([front[0], front[1], front[2], front[3]]);
    Ok((number, rest))
}

fn u64_of(whole: u64, bytes: &[u8]) -> Result<(u64, &[u8]), PageError>
    ensures { Gives (λ x. (x.0, x.1.now)) result (number_at w64 whole bytes.now) }
{
    if bytes.len() < 8 {
        return Err(PageError::Bad { at: whole });
    }
    let (front, rest) = bytes.split_at(8);
    let number = u64::from_be_bytes([
        front[0], front[1], front[2], front[3], front[4], front[5], front[6], front[7],
    ]);
    Ok((number, rest))
}

fn u128_of(whole: u64, bytes: &[u8]) -> Result<(u128, &[u8]), PageError>
    ensures { Gives (λ x. (x.0, x.1.now)) result (number_at w128 whole bytes.now) }
{
    if bytes.len() < 16 {
        return Err(PageError::Bad { at: whole });
    }
    let (front, rest) = bytes.split_at(16);
    let number = u128::from_be_bytes([
        front[0], front[1], front[2], front[3], front[4], front[5], front[6], front[7], front[8],
        front[9], front[10], front[11], front[12], front[13], front[14], front[15],
    ]);
    Ok((number, rest))
}

/// 0 or 1, of the field that starts at `at`.
#[tactic(auto, unfolding(crate::specs::Reading::bool_at))]
fn bool_of(whole: u64, at: u64, bytes: &[u8]) -> Result<(bool, &[u8]), PageError>
    ensures { Gives (λ x. (x.0, x.1.now)) result (bool_at whole at bytes.now) }
{
    match bytes {
        [] => Err(PageError::Bad { at: whole }),
        [0, rest @ ..] => Ok((false, rest)),
        [1, rest @ ..] => Ok((true, rest)),
        [_, ..] => Err(PageError::Bad { at }),
    }
}

#[tactic(auto, using(crate::proofs::Texts::is_text), unfolding(crate::specs::Reading::text_at))]
fn text_of(alloc: Global, whole: u64, at: u64, bytes: &[u8]) -> Result<(Txt, &[u8]), PageError>
    ensures { Gives (λ x. (x.0, x.1.now)) result (text_at whole at bytes.now) }
{
    let (count, rest) = u16_of(whole, bytes)?;
    let count = usize::from(count);
    if rest.len() < count {
        return Err(PageError::Bad { at: whole });
    }
    let (text, rest) = rest.split_at(count);
    if !is_text(text) {
        return Err(PageError::Bad { at });
    }
    Ok((Txt::of(alloc, text)?, rest))
}

fn is_text(bytes: &[u8]) -> bool
    ensures { result ≡ is_utf8 bytes.now }
{
    std::str::from_utf8(bytes).is_ok()
}

/// A value of this kind, behind its tag.
#[tactic(auto, unfolding(crate::specs::Reading::content_at))]
fn content_of(
    alloc: Global,
    kind: Kind,
    whole: u64,
    at: u64,
    bytes: &[u8],
) -> Result<(Value, &[u8]), PageError>
    ensures { Gives (λ x. (x.0, x.1.now)) result (content_at kind whole at bytes.now) }
{
    match kind {
        Kind::Bool => {
            let (b, rest) = bool_of(whole, at, bytes)?;
            Ok((Value::Bool(b), rest))
        }
        Kind::Int => {
            let (n, rest) = u64_of(whole, bytes)?;
            Ok((Value::Int(n.cast_signed()), rest))
        }
        Kind::Text => {
            let (text, rest) = text_of(alloc, whole, at, bytes)?;
            Ok((Value::Text(text), rest))
        }
    }
}

/// Null, or a value of this kind.
#[tactic(auto, unfolding(crate::specs::Reading::value_at))]
fn value_of(
    alloc: Global,
    kind: Kind,
    whole: u64,
    bytes: &[u8],
) -> Result<(Value, &[u8]), PageError>
    ensures { Gives (λ x. (x.0, x.1.now)) result (value_at kind whole bytes.now) }
{
    let at = place_of(whole, bytes);
    let Some((tag, rest)) = bytes.split_first() else {
        return Err(PageError::Bad { at: whole });
    };
    if *tag == 0 {
        return Ok((Value::Null, rest));
    }
    if *tag != tag_of(kind) {
        return Err(PageError::Bad { at });
    }
    content_of(alloc, kind, whole, at, rest)
}

#[inline(always)]
fn tag_of(kind: Kind) -> u8
    ensures { result ≡ spec.tag_of kind }
{
    match kind {
        Kind::Bool => 1,
        Kind::Int => 2,
        Kind::Text => 3,
    }
}

#[tactic(auto, unfolding(crate::specs::Reading::cell_at))]
fn cell_of(alloc: Global, slot: Slot, whole: u64, bytes: &[u8]) -> Result<(Cell, &[u8]), PageError>
    ensures { Gives (λ x. (x.0, x.1.now)) result (cell_at slot whole bytes.now) }
{
    match slot {
        Slot::Flag => {
            let (b, rest) = bool_of(whole, place_of(whole, bytes), bytes)?;
            Ok((Cell::Flag(b), rest))
        }
        Slot::Value(kind) => {
            let (value, rest) = value_of(alloc, kind, whole, bytes)?;
            Ok((Cell::Value(value), rest))
        }
        Slot::Wide => {
            let (n, rest) = wide_of(whole, bytes)?;
            Ok((Cell::Wide(n), rest))
        }
    }
}

#[tactic(auto, unfolding(crate::specs::Reading::wide_at))]
fn wide_of(whole: u64, bytes: &[u8]) -> Result<(i128, &[u8]), PageError>
    ensures { Gives (λ x. (x.0, x.1.now)) result (wide_at whole bytes.now) }
{
    match bytes {
        [] => Err(PageError::Bad { at: whole }),
        [4, rest @ ..] => {
            let (n, rest) = u128_of(whole, rest)?;
            Ok((n.cast_signed(), rest))
        }
        [_, ..] => Err(PageError::Bad {
            at: place_of(whole, bytes),
        }),
    }
}

/// A cell of a body that ends at `end`.
#[tactic(auto, unfolding(crate::specs::Reading::body_cell_at))]
fn body_cell_of(
    alloc: Global,
    slot: Slot,
    bounds: Bounds,
    bytes: &[u8],
) -> Result<(Cell, &[u8]), PageError>
    ensures { Gives (λ x. (x.0, x.1.now)) result (body_cell_at bounds.whole bounds.end slot bytes.now) }
{
    let (cell, rest) = cell_of(alloc, slot, bounds.whole, bytes)?;
    if bounds.end < place_of(bounds.whole, rest) {
        return Err(PageError::Bad {
            at: place_of(bounds.whole, bytes),
        });
    }
    Ok((cell, rest))
}

fn row_of<'a>(
    alloc: Global,
    shape: &[Slot],
    bounds: Bounds,
    bytes: &'a [u8],
) -> Result<(PageRow, &'a [u8]), PageError>
    ensures { Gives (λ x. (x.0, x.1.now)) result (row_at bounds.whole bounds.end shape.now bytes.now) }
{
    let mut cells = Vec::with_capacity(alloc, shape.len())?;
    let mut rest = bytes;
    for slot in shape {
        let (cell, after) = body_cell_of(alloc, *slot, bounds, rest)?;
        cells.push(cell)?;
        rest = after;
    }
    Ok((PageRow::of(cells), rest))
}

fn all_rows_of<'a>(
    alloc: Global,
    shape: &[Slot],
    bounds: Bounds,
    count: u32,
    bytes: &'a [u8],
) -> Result<(Vec<PageRow>, &'a [u8]), PageError>
    ensures { Gives (λ x. (x.0.items, x.1.now)) result (rows_at bounds.whole bounds.end shape.now count bytes.now) }
{
    let mut rows = Vec::with_capacity(alloc, bytes.len().min(count as usize))?;
    let mut rest = bytes;
    for _ in 0..count {
        let (row, after) = row_of(alloc, shape, bounds, rest)?;
        rows.push(row)?;
        rest = after;
    }
    Ok((rows, rest))
}

#[tactic(auto, unfolding(crate::specs::Reading::rows_of))]
fn page_of(alloc: Global, bytes: &[u8], shape: &[Slot]) -> Result<Vec<PageRow>, PageError>
    ensures { Gives (λ v. v.items) result (rows_of shape.now bytes.now) }
{
    let whole = bytes.len() as u64;
    let (count, rest) = u32_of(whole, bytes)?;
    let (size, rest) = u32_of(whole, rest)?;
    let end = 8 + u64::from(size);
    let (rows, rest) = all_rows_of(alloc, shape, Bounds { whole, end }, count, rest)?;
    if !rest.is_empty() || end != whole {
        return Err(PageError::Bad {
            at: place_of(whole, rest),
        });
    }
    Ok(rows)
}

/// The rows of this shape whose page the bytes are.
pub fn read_page(alloc: Global, bytes: &[u8], shape: &[Slot]) -> Result<Vec<PageRow>, PageError>
    // What is read has this page.
    ensures found { IfOk result (λ v. IsPageOf shape.now v.items bytes.now) }
    // What has this page is read, unless memory runs out.
    ensures only { (rows : List Cells) → IsPageOf shape.now rows bytes.now → Gives (λ v. v.items) result (Ok rows) }
    // It is bad just where no rows of this shape have this page, at the place that reading gives.
    ensures exact { Gives (λ v. v.items) result (rows_of shape.now bytes.now) }
{
    page_of(alloc, bytes, shape)
}
