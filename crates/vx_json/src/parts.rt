//! The lists that stand in nodes: columns, sort keys, aggregates.

ghost use Rattle.std.specs.Prelude.{map};
ghost use Rattle.serde_json.specs.View.{view};
ghost use Rattle.vx_json.specs.Outcome.{Gives};
ghost use Rattle.vx_json.specs.Place.{path_of};
ghost use Rattle.vx_json.specs.Fields.{part};
ghost use Rattle.vx_json.specs.Nodes as spec;

use crate::error::PlanError;
use crate::fields::small_at;
use crate::lists::{Count, Reads, item, items_at, list_at};
use crate::way::{Way, field};
use crate::words::{aggregate_name_at, descending_at, nulls_first_at};
use serde_json::Value as Json;
use sqlite_items::Items;
use std::alloc::Global;
use vx_plan::Aggregate;
use vx_value::SortKey;

/// Columns, so many of them.
fn columns_at(
    alloc: Global,
    count: Count,
    way: &Way<'_>,
    value: &Json,
) -> Result<Items<u32>, PlanError>
    ensures { Gives result (spec.columns_at count (path_of way.now) (view value.now)) }
{
    list_at(alloc, count, &Columns, way, value)
}

/// The same in a field.
pub(crate) fn columns_in(
    alloc: Global,
    count: Count,
    way: &Way<'_>,
    name: &str,
    value: &Json,
) -> Result<Items<u32>, PlanError>
    ensures { Gives result (part name.now (spec.columns_at count) (path_of way.now) (view value.now)) }
{
    columns_at(alloc, count, &Way::Field(way, name), field(value, name))
}

/// Sort keys, at least one.
pub(crate) fn sort_keys_at(
    alloc: Global,
    way: &Way<'_>,
    value: &Json,
) -> Result<Items<SortKey>, PlanError>
    ensures { Gives result (spec.sort_keys_at (path_of way.now) (view value.now)) }
{
    list_at(alloc, Count::NotEmpty, &SortKeys, way, value)
}

/// Aggregates in a field.
pub(crate) fn aggregates_in(
    alloc: Global,
    way: &Way<'_>,
    name: &str,
    value: &Json,
) -> Result<Items<Aggregate>, PlanError>
    ensures { Gives result (part name.now spec.aggregates_at (path_of way.now) (view value.now)) }
{
    let place = Way::Field(way, name);
    list_at(alloc, Count::Any, &Aggregates, &place, field(value, name))
}

#[derive(Clone, Copy)]
struct Columns;

impl Reads for Columns {
    ghost use Rattle.vx_json.specs.Fields.{small_at};

    type Item = u32;

    ghost reads = { λ _ _. small_at };

    fn read(
        &self,
        alloc: Global,
        _i: usize,
        way: &Way<'_>,
        value: &Json,
    ) -> Result<u32, PlanError> {
        small_at(alloc, way, value)
    }
}

#[derive(Clone, Copy)]
struct SortKeys;

impl Reads for SortKeys {
    ghost use Rattle.vx_json.specs.Nodes.{sort_key_at};

    type Item = SortKey;

    ghost reads = { λ _ _. sort_key_at };

    fn read(
        &self,
        alloc: Global,
        _i: usize,
        way: &Way<'_>,
        value: &Json,
    ) -> Result<SortKey, PlanError> {
        sort_key_at(alloc, way, value)
    }
}

/// `[column, direction, place of nulls]`
fn sort_key_at(alloc: Global, way: &Way<'_>, value: &Json) -> Result<SortKey, PlanError>
    ensures { Gives result (spec.sort_key_at (path_of way.now) (view value.now)) }
{
    let values = items_at(alloc, Count::Exactly(3), way, value)?;
    let column = small_at(alloc, &Way::Item(way, 0), item(values, 0))?;
    let descending = descending_at(alloc, &Way::Item(way, 1), item(values, 1))?;
    let nulls_first = nulls_first_at(alloc, &Way::Item(way, 2), item(values, 2))?;
    Ok(SortKey {
        column,
        descending,
        nulls_first,
    })
}

#[derive(Clone, Copy)]
struct Aggregates;

impl Reads for Aggregates {
    ghost use Rattle.vx_json.specs.Nodes.{aggregate_at};

    type Item = Aggregate;

    ghost reads = { λ _ _. aggregate_at };

    fn read(
        &self,
        alloc: Global,
        _i: usize,
        way: &Way<'_>,
        value: &Json,
    ) -> Result<Aggregate, PlanError> {
        aggregate_at(alloc, way, value)
    }
}

/// `[name]` or `[name, column]`
fn aggregate_at(alloc: Global, way: &Way<'_>, value: &Json) -> Result<Aggregate, PlanError>
    ensures { Gives result (spec.aggregate_at (path_of way.now) (view value.now)) }
{
    let values = items_at(alloc, Count::OneOrTwo, way, value)?;
    let name = aggregate_name_at(alloc, &Way::Item(way, 0), item(values, 0))?;
    let column = argument_of(alloc, way, values)?;
    Ok(Aggregate { name, column })
}

/// The column of an aggregate, if its list has one.
fn argument_of(alloc: Global, way: &Way<'_>, values: &[Json]) -> Result<Option<u32>, PlanError>
    ensures { Gives result (spec.argument_of (path_of way.now) (map view values.now)) }
{
    if values.len() <= 1 {
        return Ok(None);
    }
    let column = small_at(alloc, &Way::Item(way, 1), item(values, 1))?;
    Ok(Some(column))
}
