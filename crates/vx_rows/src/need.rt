//! How many bytes a put of a batch takes at most.
ghost use Rattle.std.specs.Prelude.{◌≡◌, ◌*◌, ◌^◌, ◌≤◌, All, nat_le, length, if◌then◌else◌};
ghost use Rattle.vx_arena.specs.Text.{block_bytes, cost_of};
ghost use Rattle.vx_value.specs.Value.{owned, IsLawful};
ghost use Rattle.vx_vector.specs.Batch.{kinds_of};
ghost use Rattle.vx_rows.specs.Texts.{text_cost, HasColumns};
ghost use Rattle.vx_rows.specs.Need.{column_cost, need_of, row_need, text_need, texts_cost};

use crate::layout::Layout;
use vx_value::ValueRef;
use vx_vector::{Batch, Vector};

/// How many bytes of a text stand in its slot at most.
const SHORT: usize = 12;

/// How many bytes of a text a full block holds, and how many bytes the block has.
const PART: usize = 2040;

const BLOCK: u64 = 2056;

/// How many bytes of chunks a put of all rows of a batch takes at most.
pub(crate) fn need_of(layout: &Layout, batch: &Batch) -> u64
    requires { HasColumns layout.now (kinds_of batch.now.columns) }
    ensures { result ≡ need_of layout.now batch.now.columns batch.now.rows }
{
    let _bytes = layout.bytes();
    let cost = texts_cost(&batch.columns, batch.rows);
    row_need(layout, batch.rows) + text_need(cost)
}

/// The bytes of the chunks that so many rows need alone.
fn row_need(layout: &Layout, rows: u32) -> u64
    ensures is { result ≡ row_need layout.now rows }
    ensures most { result ≤ 2 ^ 44 }
{
    4096 * u64::from(rows.div_ceil(layout.rows()))
}

/// The bytes of the chunks of texts whose blocks have so many bytes.
fn text_need(cost: u64) -> u64
    requires { cost ≤ 2 ^ 58 }
    ensures is { result ≡ text_need cost }
    ensures most { result ≤ 2 ^ 61 }
{
    if cost == 0 {
        return 0;
    }
    4096 * (cost / PART as u64 + 1)
}

/// The bytes of the blocks of all texts of these columns.
fn texts_cost(columns: &[Vector], rows: u32) -> u64
    requires even { All (λ c. length c.values ≡ rows) columns.now }
    requires few { length columns.now ≤ 511 }
    ensures is { result ≡ texts_cost columns.now }
    ensures most { result ≤ 2 ^ 58 }
{
    let mut total = 0;
    for column in columns {
        total += column_cost(column, rows);
    }
    total
}

/// The bytes of the blocks of a column's texts; a column of another kind isn't read.
#[tactic(auto, using(crate::proofs::NeedLemmas::no_texts_cost))]
fn column_cost(column: &Vector, rows: u32) -> u64
    requires { length column.now.values ≡ rows }
    ensures is { result ≡ column_cost column.now }
    ensures most { result ≤ 2 ^ 49 }
{
    if !column.holds_texts() {
        return 0;
    }
    let mut total = 0;
    for row in 0..rows {
        total += value_cost(column.get(row));
    }
    total
}

/// The bytes of the blocks of a value: none but of a text that doesn't stand in its slot.
#[inline]
fn value_cost(value: ValueRef<'_>) -> u64
    requires { IsLawful (owned value) }
    ensures is { result ≡ text_cost (owned value.entry) }
    ensures most { result ≤ 2 ^ 17 }
{
    match value {
        ValueRef::Null => 0,
        ValueRef::Bool(_) => 0,
        ValueRef::Int(_) => 0,
        ValueRef::Text(text) => length_cost(text.len()),
    }
}

/// The bytes of the blocks of a text of so many bytes: the full ones and the last.
#[inline]
pub(crate) fn length_cost(len: usize) -> u64
    requires { len ≤ 65535 }
    ensures is { result ≡ (if nat_le len 12 then 0 else cost_of len) }
    ensures most { result ≤ 2 ^ 17 }
{
    if len <= SHORT {
        return 0;
    }
    let full = (len - 1) / PART;
    full as u64 * BLOCK + block_bytes(len - full * PART)
}

/// The bytes of the block of a part: its head and the least class that holds the part and a link.
#[tactic(auto, unfolding(vx_arena::specs::Text::block_bytes, vx_arena::specs::Part::class_for, vx_arena::specs::Free::class_len))]
fn block_bytes(part: usize) -> u64
    requires { part ≤ 2040 }
    ensures is { result ≡ block_bytes part }
    ensures most { result ≤ 2056 }
{
    if part <= 8 {
        return 24;
    }
    if part <= 24 {
        return 40;
    }
    if part <= 56 {
        return 72;
    }
    if part <= 120 {
        return 136;
    }
    if part <= 248 {
        return 264;
    }
    if part <= 504 {
        return 520;
    }
    if part <= 1016 { 1032 } else { 2056 }
}
