//! The rows of a values node, cell by cell.
ghost use Rattle.std.specs.Prelude.{◌≡◌, IfOk};
ghost use Rattle.serde_json.specs.Data.{boolean, number as number_data, string as string_data};
ghost use Rattle.serde_json.specs.View.{view, number_view};
ghost use Rattle.vx_json.specs.Lists.{or_misfit};
ghost use Rattle.vx_json.specs.Outcome.{Gives};
ghost use Rattle.vx_json.specs.Place.{path_of};
ghost use Rattle.vx_json.specs.Cells as spec;

use crate::error::PlanError;
use crate::lists::{Count, Reads, list_at, vec_at};
use crate::way::{Way, misfit};
use crate::words::kind_at;
use serde_json::{Number, Value as Json};
use sqlite_items::Items;
use std::alloc::{AllocError, Global};
use vx_value::{Kind, Row, Txt, Value};

/// The most bytes that a text may have.
pub(crate) const MOST_TEXT: usize = 65_535;

/// The kinds of a values node's columns.
pub(crate) fn kinds_at(alloc: Global, way: &Way<'_>, value: &Json) -> Result<Items<Kind>, PlanError>
    ensures { Gives result (spec.kinds_at (path_of way.now) (view value.now)) }
{
    list_at(alloc, Count::Any, &Kinds, way, value)
}

/// The rows of a values node, each with a cell for each kind.
pub(crate) fn rows_at(
    alloc: Global,
    kinds: &[Kind],
    way: &Way<'_>,
    value: &Json,
) -> Result<Items<Row>, PlanError>
    ensures { Gives result (spec.rows_at kinds.now (path_of way.now) (view value.now)) }
{
    list_at(alloc, Count::Any, &Rows { kinds }, way, value)
}

#[derive(Clone, Copy)]
struct Kinds;

impl Reads for Kinds {
    ghost use Rattle.vx_json.specs.Words.{word_at, kinds};

    type Item = Kind;

    ghost reads = { λ _ _. word_at kinds };

    fn read(
        &self,
        alloc: Global,
        _i: usize,
        way: &Way<'_>,
        value: &Json,
    ) -> Result<Kind, PlanError> {
        kind_at(alloc, way, value)
    }
}

#[derive(Clone, Copy)]
struct Rows<'k> {
    kinds: &'k [Kind],
}

impl<'k> Reads for Rows<'k> {
    ghost use Rattle.vx_json.specs.Cells.{row_at};

    type Item = Row;

    ghost reads = { λ rows _. row_at rows.kinds.now };

    fn read(
        &self,
        alloc: Global,
        _i: usize,
        way: &Way<'_>,
        value: &Json,
    ) -> Result<Row, PlanError> {
        row_at(alloc, self.kinds, way, value)
    }
}

pub(crate) fn row_at(
    alloc: Global,
    kinds: &[Kind],
    way: &Way<'_>,
    value: &Json,
) -> Result<Row, PlanError>
    ensures { Gives result (spec.row_at kinds.now (path_of way.now) (view value.now)) }
{
    let cells = vec_at(
        alloc,
        Count::Exactly(kinds.len()),
        &Cells { kinds },
        way,
        value,
    )?;
    Ok(Row::of(cells))
}

#[derive(Clone, Copy)]
struct Cells<'k> {
    kinds: &'k [Kind],
}

impl<'k> Reads for Cells<'k> {
    ghost use Rattle.vx_json.specs.Cells.{cell_at};

    type Item = Value;

    ghost reads = { λ cells. cell_at cells.kinds.now };

    fn read(
        &self,
        alloc: Global,
        i: usize,
        way: &Way<'_>,
        value: &Json,
    ) -> Result<Value, PlanError> {
        cell_at(alloc, kind_of(self.kinds, i), way, value)
    }
}

/// The kind of a column that is known to be there.
fn kind_of(kinds: &[Kind], i: usize) -> Kind
    ensures { result ≡ spec.kind_of kinds.now i }
{
    match kinds.get(i) {
        Some(kind) => *kind,
        None => Kind::Int,
    }
}

fn cell_at(alloc: Global, kind: Kind, way: &Way<'_>, value: &Json) -> Result<Value, PlanError>
    ensures { Gives result (or_misfit (path_of way.now) (spec.cell_of kind (view value.now))) }
{
    match value {
        Json::Null => Ok(Value::Null),
        Json::Bool(truth) => bool_cell(alloc, kind, way, *truth),
        Json::Number(number) => int_cell(alloc, kind, way, number),
        Json::String(text) => text_cell(alloc, kind, way, text.as_str()),
        Json::Array(_) => misfit(alloc, way),
        Json::Object(_) => misfit(alloc, way),
    }
}

fn bool_cell(alloc: Global, kind: Kind, way: &Way<'_>, truth: bool) -> Result<Value, PlanError>
    ensures { Gives result (or_misfit (path_of way.now) (spec.cell_of kind (boolean truth))) }
{
    match kind {
        Kind::Bool => Ok(Value::Bool(truth)),
        Kind::Int => misfit(alloc, way),
        Kind::Text => misfit(alloc, way),
    }
}

fn int_cell(alloc: Global, kind: Kind, way: &Way<'_>, number: &Number) -> Result<Value, PlanError>
    ensures { Gives result (or_misfit (path_of way.now) (spec.cell_of kind (number_data (number_view number.now)))) }
{
    match kind {
        Kind::Bool => misfit(alloc, way),
        Kind::Int => match number.as_i64() {
            Some(int) => Ok(Value::Int(int)),
            None => misfit(alloc, way),
        },
        Kind::Text => misfit(alloc, way),
    }
}

fn text_cell(alloc: Global, kind: Kind, way: &Way<'_>, text: &str) -> Result<Value, PlanError>
    ensures { Gives result (or_misfit (path_of way.now) (spec.cell_of kind (string_data text.now))) }
{
    match kind {
        Kind::Bool => misfit(alloc, way),
        Kind::Int => misfit(alloc, way),
        Kind::Text => Ok(Value::Text(kept(alloc, text)?)),
    }
}

/// A text; one that is too long is left out here, and the limit of texts refuses it.
pub(crate) fn kept(alloc: Global, text: &str) -> Result<Txt, AllocError>
    ensures { IfOk result (λ txt. txt ≡ spec.kept text.now) }
{
    if text.len() <= MOST_TEXT {
        Txt::of(alloc, text.as_bytes())
    } else {
        Txt::of(alloc, b"")
    }
}
