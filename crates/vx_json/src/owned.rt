//! Nodes whose JSON value nobody reads again: that of a row is dropped as soon as the row is made, so that the
//! rows of a plan stand where their JSON value stood. Whether a string in what is dropped is longer than a text may
//! be is noted on the way, as each row is read, and not by going over all of the JSON value once more.

ghost use Rattle.std.specs.Prelude.{◌≡◌, ◌||◌, IsErr, OnOk};
ghost use Rattle.serde_json.specs.Data.{object};
ghost use Rattle.serde_json.specs.View.{view, items_view, members_view};
ghost use Rattle.vx_json.specs.Cells.{row_at, rows_at};
ghost use Rattle.vx_json.specs.Fields.{part};
ghost use Rattle.vx_json.specs.Lists.{each_from};
ghost use Rattle.vx_json.specs.Nodes as spec;
ghost use Rattle.vx_json.specs.Outcome.{Gives, GivesAll};
ghost use Rattle.vx_json.specs.Place as place;
ghost use Rattle.vx_json.specs.Place.{field, path_of};
ghost use Rattle.vx_json.specs.Plans.{has_long, has_long_item, has_long_member};

use crate::cells::{kinds_at, row_at};
use crate::error::PlanError;
use crate::fields::small_at;
use crate::front::{Front, Opened};
use crate::fronts::parallel_at;
use crate::long_texts::{has_long as is_long, has_long_member as is_long_member};
use crate::nodes::{body_at, node_form, opened_at, work_over};
use crate::way::{Way, field, misfit};
use crate::words::NodeWord;
use serde_json::{Map, Value as Json};
use sqlite_items::Items;
use std::alloc::Global;
use vx_plan::{Body, Node};
use vx_value::{Kind, Row};

/// A node with at most so many levels of nodes. The sources of a join are read where they stand.
#[cycle(owned)]
#[tactic(auto, using(crate::proofs::NodeLaws::owned))]
fn node_of(
    alloc: Global,
    levels: u32,
    way: &Way<'_>,
    value: Json,
    long: &mut bool,
) -> Result<Node, PlanError>
    ensures gives { Gives result (spec.node_at levels (path_of way.now) (view value)) }
    ensures noted { OnOk result (long.new ≡ (long.old || has_long (view value))) }
{
    if levels == 0 {
        return misfit(alloc, &*way);
    }
    match node_form(alloc, &*way, &value)? {
        NodeWord::Values => values_node(alloc, &*way, value, &mut *long),
        _ => {
            let Opened { id, front } = opened_at(alloc, &*way, &value)?;
            let body = body_of(alloc, levels - 1, front, &*way, value, &mut *long)?;
            Ok(Node { id, body })
        }
    }
}

/// The body of a node, with its sources.
#[cycle(owned)]
fn body_of(
    alloc: Global,
    levels: u32,
    front: Front,
    way: &Way<'_>,
    value: Json,
    long: &mut bool,
) -> Result<Body, PlanError>
    ensures gives { Gives result (spec.body_at (spec.node_at levels) front (path_of way.now) (view value)) }
    ensures noted { OnOk result (long.new ≡ (long.old || has_long (view value))) }
{
    match front {
        Front::Over(work) => {
            let source = source_of(alloc, levels, &*way, "source", value, &mut *long)?;
            Ok(work_over(alloc, work, source)?)
        }
        front => {
            note(long, &value);
            body_at(alloc, levels, front, &*way, &value)
        }
    }
}

/// The node in a field.
#[cycle(owned)]
pub(crate) fn source_of(
    alloc: Global,
    levels: u32,
    way: &Way<'_>,
    name: &str,
    value: Json,
    long: &mut bool,
) -> Result<Node, PlanError>
    ensures gives { Gives result (part name.now (spec.node_at levels) (path_of way.now) (view value)) }
    ensures noted { OnOk result (long.new ≡ (long.old || has_long (view value))) }
{
    let source = taken(value, name, &mut *long);
    node_of(
        alloc,
        levels,
        &Way::Field(&*way, &*name),
        source,
        &mut *long,
    )
}

/// Notes whether a string in a value is too long.
fn note(long: &mut bool, value: &Json)
    ensures { long.new ≡ (long.old || has_long (view value.now)) }
{
    *long = *long || is_long(value);
}

/// A values node, whose form has been looked at.
fn values_node(
    alloc: Global,
    way: &Way<'_>,
    value: Json,
    long: &mut bool,
) -> Result<Node, PlanError>
    ensures gives { Gives result (spec.values_node_at (path_of way.now) (view value)) }
    ensures noted { OnOk result (long.new ≡ (long.old || has_long (view value))) }
{
    let id = small_at(alloc, &Way::Field(way, "id"), field(&value, "id"))?;
    let body = values_of(alloc, way, value, long)?;
    Ok(Node { id, body })
}

/// The body of a values node.
fn values_of(alloc: Global, way: &Way<'_>, value: Json, long: &mut bool) -> Result<Body, PlanError>
    ensures gives { Gives result (spec.values_body_at (path_of way.now) (view value)) }
    ensures noted { OnOk result (long.new ≡ (long.old || has_long (view value))) }
{
    let kinds = kinds_at(alloc, &Way::Field(way, "kinds"), field(&value, "kinds"))?;
    let parallel = parallel_at(alloc, way, &value);
    let place = Way::Field(way, "rows");
    let rows = taken(value, "rows", &mut *long);
    let rows = rows_of(alloc, kinds.as_slice(), &place, rows, long)?;
    Ok(Body::Values {
        kinds,
        rows,
        parallel: parallel?,
    })
}

/// The field, or the value itself where it isn't there. Nothing else of the value is kept, but whether a string there
/// is too long.
fn taken(value: Json, name: &str, long: &mut bool) -> Json
    ensures is { view result ≡ field name.now (view value) }
    ensures noted { (long.new || has_long (view result)) ≡ (long.old || has_long (view value)) }
{
    match value {
        Json::Object(fields) => taken_member(fields, name, long),
        other => other,
    }
}

/// The same of an object's members.
fn taken_member(fields: Map<String, Json>, name: &str, long: &mut bool) -> Json
    ensures is { view result ≡ field name.now (object (members_view fields.entries)) }
    ensures noted { (long.new || has_long (view result)) ≡ (long.old || has_long (object (members_view fields.entries))) }
{
    let mut rest = fields;
    match rest.remove(name) {
        Some(found) => {
            note_members(long, &rest);
            found
        }
        None => Json::Object(rest),
    }
}

/// Notes whether a string in a member is too long.
fn note_members(long: &mut bool, fields: &Map<String, Json>)
    ensures { long.new ≡ (long.old || has_long_member (members_view fields.now.entries)) }
{
    *long = *long || is_long_member(fields);
}

/// The rows of a values node, each with a cell for each kind.
fn rows_of(
    alloc: Global,
    kinds: &[Kind],
    way: &Way<'_>,
    value: Json,
    long: &mut bool,
) -> Result<Items<Row>, PlanError>
    ensures gives { Gives result (rows_at kinds.now (path_of way.now) (view value)) }
    ensures noted { OnOk result (long.new ≡ (long.old || has_long (view value))) }
{
    let rows = rows_in(alloc, kinds, way, value, long)?;
    Ok(Items::from_vec(rows))
}

/// The same as a `Vec`.
#[tactic(auto, using(crate::proofs::ListLaws::arrays))]
fn rows_in(
    alloc: Global,
    kinds: &[Kind],
    way: &Way<'_>,
    value: Json,
    long: &mut bool,
) -> Result<Vec<Row>, PlanError>
    ensures gives { GivesAll result (rows_at kinds.now (path_of way.now) (view value)) }
    ensures noted { OnOk result (long.new ≡ (long.old || has_long (view value))) }
{
    match value {
        Json::Array(values) => each_row(alloc, kinds, way, values, long),
        Json::Null => misfit_rows(alloc, way),
        Json::Bool(_) => misfit_rows(alloc, way),
        Json::Number(_) => misfit_rows(alloc, way),
        Json::String(_) => misfit_rows(alloc, way),
        Json::Object(_) => misfit_rows(alloc, way),
    }
}

/// Refuses what is no list.
fn misfit_rows(alloc: Global, way: &Way<'_>) -> Result<Vec<Row>, PlanError>
    ensures gives { GivesAll result (place.misfit (path_of way.now)) }
    ensures err { IsErr result }
{
    match misfit(alloc, way) {
        Ok(rows) => Ok(rows),
        Err(error) => Err(error),
    }
}

/// Reads each row and drops its value.
fn each_row(
    alloc: Global,
    kinds: &[Kind],
    way: &Way<'_>,
    values: Vec<Json>,
    long: &mut bool,
) -> Result<Vec<Row>, PlanError>
    ensures gives { GivesAll result (each_from (λ i path value. row_at kinds.now path (view value)) (path_of way.now) 0 values.items) }
    ensures noted { OnOk result (long.new ≡ (long.old || has_long_item (items_view values.items))) }
{
    let count = values.len();
    let mut rows = Vec::with_capacity(alloc, count)?;
    let mut i = 0;
    let mut rest = values.into_iter();
    while let Some(value) = rest.next() {
        note(long, &value);
        rows.push(row_at(alloc, kinds, &Way::Item(way, i), &value)?)?;
        i += 1;
    }
    Ok(rows)
}
