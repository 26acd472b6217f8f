//! A column of the batch at the selected rows.
ghost use Rattle.std.specs.Prelude.{◌≡◌, ℕ, ◌<◌, [], ◌∷◌, ◌++◌, if◌then◌else◌, length, get_or, slice_get, unwrap_or, true, false, All, IfOk, OnOk, IsOk};
ghost use Rattle.std.specs.Cow.{cow_value};
ghost use Rattle.vx_value.specs.Value.{owned, IsLawful};
ghost use Rattle.vx_value.specs.Row.{value_at};
ghost use Rattle.vx_expr.specs.Typing as typing;
ghost use Rattle.vx_expr.specs.declared.outcome.Got.TheVariants as got;
ghost use Rattle.vx_eval.specs.Got.{got_of};
ghost use Rattle.vx_eval.specs.Gives.{GivesWhere};
ghost use Rattle.vx_eval.specs.TextRows.{blank_row};
ghost use Rattle.vx_vector.specs.Batch.{row_of, kinds_of};
ghost use Rattle.vx_vector.specs.Column.{FitsKind};
ghost use Rattle.vx_vector.specs.Lanes.{kind_of, text_lane};
ghost use Rattle.vx_vector.specs.Store.{text_in};

use std::alloc::{AllocError, Global};
use std::borrow::Cow;
use vx_value::{Kind, Value, ValueRef};
use vx_vector::{Batch, FINE, Lanes, NULL, Selection, Texts, Vector};

/// A column at these rows; of texts only the wanted rows are copied, unless the column lends them.
pub(crate) fn column_lanes<'a>(
    alloc: Global,
    batch: &'a Batch,
    at: u32,
    rows: &Selection,
    wanted: &[bool],
) -> Result<Cow<'a, Lanes>, AllocError>
    requires there { IsOk (typing.kind_at (slice_get (kinds_of batch.now.columns) at)) }
    requires places { All (λ p. p < batch.now.rows) rows.now }
    requires wanted { length wanted.now ≡ length rows.now }
    ensures kind { IfOk result (λ l. typing.kind_at (slice_get (kinds_of batch.now.columns) at) ≡ Ok (kind_of (cow_value l))) }
    ensures each { IfOk result (λ l. GivesWhere wanted.now (length rows.now) (λ k. got.Value (unwrap_or (slice_get (row_of batch.now.columns (get_or rows.now k 0)) at) Value.Null)) (cow_value l)) }
{
    vector_lanes(alloc, &batch.columns[at as usize], rows, wanted)
}

fn vector_lanes<'a>(
    alloc: Global,
    column: &'a Vector,
    rows: &Selection,
    wanted: &[bool],
) -> Result<Cow<'a, Lanes>, AllocError>
    requires places { All (λ p. p < length column.now.values) rows.now }
    requires wanted { length wanted.now ≡ length rows.now }
    ensures kind { IfOk result (λ l. kind_of (cow_value l) ≡ column.now.kind) }
    ensures each { IfOk result (λ l. GivesWhere wanted.now (length rows.now) (λ k. got.Value (value_at column.now.values (get_or rows.now k 0))) (cow_value l)) }
{
    match column.kind() {
        Kind::Text => text_lanes(alloc, column, rows, wanted),
        Kind::Bool => column.lanes_at(alloc, rows),
        Kind::Int => column.lanes_at(alloc, rows),
    }
}

fn text_lanes<'a>(
    alloc: Global,
    column: &'a Vector,
    rows: &Selection,
    wanted: &[bool],
) -> Result<Cow<'a, Lanes>, AllocError>
    requires kind { column.now.kind ≡ Kind.Text }
    requires places { All (λ p. p < length column.now.values) rows.now }
    requires wanted { length wanted.now ≡ length rows.now }
    ensures kind { IfOk result (λ l. kind_of (cow_value l) ≡ column.now.kind) }
    ensures each { IfOk result (λ l. GivesWhere wanted.now (length rows.now) (λ k. got.Value (value_at column.now.values (get_or rows.now k 0))) (cow_value l)) }
{
    if wanted.iter().all(|one| *one) {
        return column.lanes_at(alloc, rows);
    }
    let texts = wanted_texts(alloc, column, rows.places(), wanted)?;
    Ok(Cow::Owned(Lanes::Texts(texts)))
}

#[tactic(auto, using(crate::proofs::TextLemmas::wanted_got))]
fn wanted_texts(
    alloc: Global,
    column: &Vector,
    places: &[u32],
    wanted: &[bool],
) -> Result<Texts, AllocError>
    requires kind { column.now.kind ≡ Kind.Text }
    requires places { All (λ p. p < length column.now.values) places.now }
    requires wanted { length wanted.now ≡ length places.now }
    ensures rows { IfOk result (λ t. length t ≡ length places.now) }
    ensures each { IfOk result (λ t. (k : ℕ) → k < length places.now → get_or wanted.now k false ≡ true → got_of (text_lane t k) ≡ got.Value (value_at column.now.values (get_or places.now k 0))) }
{
    let mut out = Texts::with_room(alloc, places.len(), 0)?;
    for row in 0..places.len() {
        push_wanted(&mut out, column, places[row], wanted[row])?;
    }
    Ok(out)
}

fn push_wanted(out: &mut Texts, column: &Vector, place: u32, wanted: bool) -> Result<(), AllocError>
    requires kind { column.now.kind ≡ Kind.Text }
    requires place { place < length column.now.values }
    ensures row { OnOk result (out.new ≡ out.old ++ (if wanted then text_in (value_at column.now.values place) else blank_row 1) ∷ []) }
    ensures fits { wanted ≡ true → FitsKind Kind.Text (value_at column.now.values place) }
{
    if !wanted {
        return out.push(NULL, &[]);
    }
    push_value(out, column.get(place))
}

fn push_value(out: &mut Texts, value: ValueRef<'_>) -> Result<(), AllocError>
    requires { IsLawful (owned value) }
    ensures { OnOk result (out.new ≡ out.old ++ text_in (owned value.entry) ∷ []) }
{
    match value {
        ValueRef::Text(text) => out.push(FINE, text),
        _ => out.push(NULL, &[]),
    }
}
